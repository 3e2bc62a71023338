// Reads the rest of an ordinary plane code, after its zone and row (document 01, "Ten levels away from the poles").
// The reading place is a value: a cursor, and each level read hands back the next one, or the place of a bad character.
#![tactic(auto)]

ghost use Rattle.std.specs.Prelude.{◌≡◌, ◌&&◌, ◌+◌, ◌*◌, ◌≤◌, ◌<◌, ltb, length};
ghost use Rattle.grid.specs.Units.{HALF, POLAR};
ghost use Rattle.grid.specs.Answers.{answer_of};
ghost use Rattle.grid.specs.Splits.{first};
ghost use Rattle.grid.specs.Plane.{sheet};
ghost use Rattle.grid.specs.inner.Roads.{later_read};
ghost use Rattle.grid.specs.inner.Standing.{plane_in};
ghost use Rattle.ordinary_read.specs.inner.Given.{SheetCode};

use grid::{Cell, Refusal, Split};

// The cell read so far: the outward indices where it begins, its size, and its quarter.
// A `Result` of it has the place of a bad character as a u32, which lies upon x alone: a usize, upon y too, takes 66 to 93 instructions more.
#[derive(Clone, Copy)]
struct Cursor {
    x: u32,
    y: u32,
    width: u32,
    height: u32,
    north: bool,
    east: bool,
    ghost across: { x + width ≤ HALF },
    ghost along: { y + height ≤ POLAR },
    ghost some_width: { 0 < width },
    ghost some_height: { 0 < height },
}

// Whether the level s has a column and a row. Eight of each are told by one test of both: 13 instructions fewer in a code of level 10.
fn has(s: Split, column: u32, row: u32) -> bool
    ensures { result ≡ (ltb column s.columns && ltb row s.rows) }
{
    if s.columns == 8 && s.rows == 8 {
        (column | row) < 8
    } else {
        column < s.columns && row < s.rows
    }
}

impl Cursor {
    ghost use Rattle.grid.specs.Tree.{ok};
    ghost use Rattle.grid.specs.Plane.{cell_at};
    ghost use Rattle.ordinary_read.specs.inner.Reading.{ordinary_node, ordinary_read, read_to, DividedBy, LevelNext, AtSheet, Child, Onward};

    // At the cell of a zone and a row, after the first four characters.
    fn start(north: bool, zone: u32, row: u32) -> Cursor
        requires { (1 ≤ zone) × (zone ≤ first.columns) × (row < first.rows) }
        ensures { AtSheet north zone row result }
    {
        let s = grid::split_of(0);
        let east = 30 < zone;
        let column = if east { zone - 31 } else { 30 - zone };
        Cursor {
            x: column * s.width,
            y: row * s.height,
            width: s.width,
            height: s.height,
            north,
            east,
        }
    }

    // At the child in a column and a row of the level s; or the place of the column's character, or the row's, where there is none.
    fn child(self, s: Split, column: u32, row: u32) -> Result<Cursor, u32>
        requires { DividedBy s self }
        ensures { Child s column row self result }
    {
        if has(s, column, row) {
            return Ok(Cursor {
                x: self.x + column * s.width,
                y: self.y + row * s.height,
                width: s.width,
                height: s.height,
                north: self.north,
                east: self.east,
            });
        }
        if column < s.columns {
            Err(s.length as u32 - 1)
        } else {
            Err((s.length - s.characters) as u32)
        }
    }

    // Past level k + 1, where the code has it: of two characters, column and then row, or of one, 2 · row + column.
    // The length of the code is tested, and not its level, which then had to be kept: 34 instructions more in a code of level 10.
    fn level<const SPACED: bool>(self, k: u32, code: &[u8]) -> Result<Cursor, u32>
        requires { (1 ≤ k) × (k < 10) × LevelNext SPACED k (length code.now) self }
        ensures { Onward SPACED k code.now self result }
    {
        let s = grid::split_of(k as usize);
        let at = grid::level_place(SPACED, k, s);
        if code.len() < at + s.characters {
            return Ok(self);
        }
        if s.characters == 2 {
            let column = grid::digit_below(s.columns, code[at]);
            let row = grid::digit_below(s.rows, code[at + 1]);
            self.child(s, column, row)
        } else {
            let both = grid::digit_below(10, code[at]);
            self.child(s, both % 2, both / 2)
        }
    }

    // Past all the levels after the first.
    fn later<const SPACED: bool>(self, code: &[u8]) -> Result<Cursor, u32>
        requires { LevelNext SPACED 1 (length code.now) self }
        ensures { ordinary_read result ≡ read_to SPACED code.now 9 (ok (ordinary_node self)) }
    {
        let mut cursor = self;
        for k in 1..10 {
            cursor = cursor.level::<SPACED>(k, code)?;
        }
        Ok(cursor)
    }

    // The cell, as a reader hands it back.
    fn cell(self, level: u32) -> Cell
        ensures { result ≡ cell_at level (ordinary_node self) }
    {
        Cell {
            level,
            west: grid::least_on(self.east, self.x, self.width),
            south: grid::least_on(self.north, self.y, self.height),
            width: self.width,
            height: self.height,
        }
    }
}

// The cell of a code of a level in 1 to 10, or refusal 7 or 20 with the place of its first character that is not allowed. In a space code the
// plane characters are read where they stand, and a bad one's place is counted among them.
// The first four characters are read: north or south, a zone of 1 to 60 and one of the 22 rows.
pub fn rest<const SPACED: bool>(
    level: u32,
    north: bool,
    zone: u32,
    row: u32,
    code: &[u8],
) -> Result<Cell, Refusal>
    requires { SheetCode SPACED level zone row (length code.now) }
    ensures { answer_of result ≡ later_read level (sheet north zone row) (plane_in SPACED level code.now) }
{
    match Cursor::start(north, zone, row).later::<SPACED>(code) {
        Ok(cursor) => Ok(cursor.cell(level)),
        Err(place) => Err(grid::wrong_in(SPACED, code, place as usize)),
    }
}
