// Reading a polar plane code (document 01, "The poles") on from its first four characters, N000 or S000; or that of a space code,
// whose plane characters are read where they stand in it.
// The reading place is a cursor, a value: each level read hands back the next one, or the place of a bad character.
// What a cursor means, and what was read, stands in specs/inner/Reading.antt.
#![tactic(auto)]

ghost use Rattle.std.specs.Prelude.{◌≡◌, true, cond, ◌+◌, ◌≤◌, ◌<◌, length};
ghost use Rattle.grid.specs.Units.{TURN, HALF, QUARTER};
ghost use Rattle.grid.specs.Answers.{answer_of};
ghost use Rattle.grid.specs.Characters.{digit_of};
ghost use Rattle.grid.specs.Plane.{pole, longitude_at, least_from_pole};
ghost use Rattle.grid.specs.inner.Roads.{later_read};
ghost use Rattle.grid.specs.inner.Standing.{plane_in};
ghost use Rattle.polar_read.specs.inner.Given.{OfLevel};
ghost use Rattle.polar_read.specs.inner.Naming.{named_read, named_by};

use grid::{Cell, Refusal, Split};

// The longitude e units eastward of 0, as a square has it.
fn longitude_at(e: u32) -> i32
    requires { e < TURN }
    ensures { result ≡ longitude_at e }
{
    if e < grid::HALF {
        grid::number_on(true, e)
    } else {
        grid::number_on(false, grid::TURN - 1 - e)
    }
}

// The least of the n latitudes whose distances from a pole are from q on.
fn least_from_pole(north: bool, q: u32, n: u32) -> i32
    requires { (0 < n) × (q + n ≤ QUARTER) }
    ensures { result ≡ least_from_pole north q n }
{
    if north {
        grid::number_on(true, grid::QUARTER - (q + n))
    } else {
        grid::number_on(false, grid::QUARTER - 1 - q)
    }
}

// The polar cell that two digits below 4 name, or the place of the one that is not.
fn named(first: u8, second: u8) -> Result<u32, u32>
    ensures { named_read result ≡ named_by (digit_of first) (digit_of second) }
{
    let s = grid::split_of(1);
    let a = grid::digit_below(10, first);
    let b = grid::digit_below(10, second);
    if 4 <= a {
        return Err(s.length as u32 - 2);
    }
    if 4 <= b {
        return Err(s.length as u32 - 1);
    }
    Ok(4 * a + b)
}

// The cell read so far: from x on w wide, from y on h high.
// A `Result` of it has the place of a bad character as a u32, which lies upon x alone: a usize, upon w too, takes 48 to 71 instructions more.
#[derive(Clone, Copy)]
struct Cursor {
    x: u32,
    w: u32,
    y: u32,
    h: u32,
    north: bool,
    // The cell is a cap: it goes all round the pole.
    cap: bool,
    // It lies in the disc, x eastward and y from the pole; else in the belt, x and y outward, on the east or the west side.
    disc: bool,
    east: bool,
    ghost wide: { x + w ≤ cond disc TURN HALF },
    ghost high: { y + h ≤ QUARTER },
    ghost round: { cap ≡ true → (disc ≡ true) × (x ≡ 0) × (w ≡ TURN) × (y ≡ 0) },
}

impl Cursor {
    ghost use Rattle.std.specs.Prelude.{◌-◌};
    ghost use Rattle.grid.specs.Tree.{ok};
    ghost use Rattle.grid.specs.Plane.{cap, pole_height, polar_node, allowed, cell_at};
    ghost use Rattle.polar_read.specs.inner.Reading.{node_of, polar_reading, columns_of, divided, settled_of, polar_level_on, polar_read_to, second_read, PolarDigits};

    // N000 or S000, seen as a cap of two degrees.
    fn start(north: bool) -> Cursor
        ensures { (result.north ≡ north) × (node_of result ≡ cap north pole_height) }
    {
        let s = grid::split_of(0);
        Cursor {
            x: 0,
            w: grid::TURN / s.ring,
            y: 0,
            h: 2 * grid::DEGREE / s.inward,
            north,
            cap: true,
            disc: true,
            east: true,
        }
    }

    // The polar cell k of level 2: 0 is the cap, 1 to 3 lie in the disc, the others in the belt. With no branch: k cannot be foretold.
    fn polar(self, k: u32) -> Cursor
        requires { k < 16 }
        ensures { node_of result ≡ polar_node self.north k }
    {
        let p = grid::polar_cell(k as usize);
        let s = grid::split_of(1);
        let start = Cursor::start(self.north);
        let h = start.h / s.inward;
        let disc = k < 4;
        let east = p.west < grid::HALF;
        let from_pole = grid::QUARTER - p.low - h;
        let mirrored = grid::TURN - p.west - grid::SIXTH;
        let outward = if east { p.west } else { mirrored };
        let sector = if disc {
            grid::TURN / s.ring
        } else {
            grid::SIXTH
        };
        Cursor {
            x: if disc { p.west } else { outward },
            w: if k == 0 { start.w } else { sector },
            y: if disc { from_pole } else { p.low },
            h,
            north: self.north,
            cap: k == 0,
            disc,
            east,
        }
    }

    // Level 2, where the code has it, from N000 or S000 on.
    fn second<const SPACED: bool>(self, code: &[u8]) -> Result<Cursor, u32>
        requires { node_of self ≡ cap self.north pole_height }
        ensures { polar_reading result ≡ second_read SPACED self.north code.now }
    {
        let s = grid::split_of(1);
        let at = grid::level_place(SPACED, 1, s);
        if code.len() < at + s.characters {
            return Ok(self);
        }
        let k = named(code[at], code[at + 1])?;
        Ok(self.polar(k))
    }

    // Into how many columns the cell divides.
    fn columns(self, s: Split) -> u32
        ensures { result ≡ columns_of self s }
    {
        if self.cap { s.ring } else { s.columns }
    }

    // The cell has a child in column c and row r; the new cap has column 0 only: in a cap a column is at most the row times the columns.
    // With no branch on the cap.
    fn allows(self, s: Split, c: u32, r: u32) -> bool
        requires { PolarDigits s }
        ensures { result ≡ allowed self.cap (divided self s) c r }
    {
        let columns = self.columns(s);
        if columns <= c {
            return false;
        }
        if s.inward <= r {
            return false;
        }
        let last = if self.cap { c } else { 0 };
        last <= r * columns
    }

    // The child in column c and row r, or the place of the level's last character where there is none. With no branch on the row: which is the
    // inmost, the new cap, cannot be foretold, and its column and row are 0.
    fn child(self, s: Split, c: u32, r: u32) -> Result<Cursor, u32>
        requires { PolarDigits s }
        ensures { polar_reading result ≡ settled_of self s c r (s.length - 1) }
    {
        if !self.allows(s, c, r) {
            return Err(s.length as u32 - 1);
        }
        let inmost = self.cap && r == 0;
        let part = self.w / self.columns(s);
        let w = if inmost { self.w } else { part };
        let h = self.h / s.inward;
        Ok(Cursor {
            x: self.x + c * w,
            w,
            y: self.y + r * h,
            h,
            north: self.north,
            cap: inmost,
            disc: self.disc,
            east: self.east,
        })
    }

    // Past level k + 1, where the code has it: of two characters, column and then row; or of one, 2·row + column, in a cap of three columns row + column.
    fn level<const SPACED: bool>(self, k: u32, code: &[u8]) -> Result<Cursor, u32>
        requires { (1 ≤ k) × (k < 10) }
        ensures { polar_reading result ≡ polar_level_on SPACED code.now k (ok (node_of self)) }
    {
        let s = grid::split_of(k as usize);
        let at = grid::level_place(SPACED, k, s);
        if code.len() < at + s.characters {
            return Ok(self);
        }
        let columns = self.columns(s);
        if s.characters == 2 {
            let a = grid::digit_below(columns, code[at]);
            if columns <= a {
                return Err(s.length as u32 - 2);
            }
            let b = grid::digit_below(s.inward, code[at + 1]);
            return self.child(s, a, b);
        }
        let a = grid::digit_below(10, code[at]);
        if columns == 2 {
            return self.child(s, a % 2, a / 2);
        }
        if a == 0 {
            return self.child(s, 0, 0);
        }
        self.child(s, a - 1, 1)
    }

    // Past all the levels after the first, from N000 or S000 on.
    fn later<const SPACED: bool>(self, code: &[u8]) -> Result<Cursor, u32>
        requires { node_of self ≡ cap self.north pole_height }
        ensures { polar_reading result ≡ polar_read_to SPACED self.north code.now 9 }
    {
        let mut cursor = self.second::<SPACED>(code)?;
        for k in 2..10 {
            cursor = cursor.level::<SPACED>(k, code)?;
        }
        Ok(cursor)
    }

    // The cell, as a reader hands it back; a cap is a disc cell that goes all round.
    fn cell(self, level: u32) -> Cell
        requires { (0 < self.w) × (0 < self.h) }
        ensures { result ≡ cell_at level (node_of self) }
    {
        if self.disc {
            return Cell {
                level,
                west: longitude_at(self.x),
                south: least_from_pole(self.north, self.y, self.h),
                width: self.w,
                height: self.h,
            };
        }
        Cell {
            level,
            west: grid::least_on(self.east, self.x, self.w),
            south: grid::least_on(self.north, self.y, self.h),
            width: self.w,
            height: self.h,
        }
    }
}

// The cell of a code of a level in 1 to 10, or refusal 7 or 20 with the place of its first character that is not allowed. In a space code the
// plane characters are read where they stand, and a bad one's place is counted among them. The first four characters are read.
pub fn rest<const SPACED: bool>(level: u32, north: bool, code: &[u8]) -> Result<Cell, Refusal>
    requires { OfLevel SPACED level code.now }
    ensures { answer_of result ≡ later_read level (pole north) (plane_in SPACED level code.now) }
{
    match Cursor::start(north).later::<SPACED>(code) {
        Ok(cursor) => Ok(cursor.cell(level)),
        Err(place) => Err(grid::wrong_in(SPACED, code, place as usize)),
    }
}
