// The writer of polar plane codes: those of a latitude index of 648,806,400 or more (document 01, "The poles").
// A square is carried down level by level as a Spot, its place in the cell reached so far. A cell that is no cap is seen as wide as
// it is high, in parts as wide as need be, so that its columns and rows are found alike and every divisor is a constant. Each step takes the place of
// its characters from `grid`: in a plane code, or in a space code where `SPACED` is true.
#![tactic(auto)]

ghost use Rattle.std.specs.Prelude.{◌≡◌, ◌+◌, ◌/◌, ◌≤◌, ◌<◌, length};
ghost use Rattle.grid.specs.Units.{TURN, HALF, DISC, unit, eastward};
ghost use Rattle.grid.specs.inner.Roads.{square_of};
ghost use Rattle.grid.specs.inner.Standing.{zone_place, stands_at, spread};
ghost use Rattle.grid.specs.Plane.{SIXTH, polar_height, belt_box, code_of};
ghost use Rattle.grid.specs.Splits.{second};
ghost use Rattle.polar_write.specs.inner.Spots.{first_chars, cap_step, spot_step, polar_digits, SpotDivides, Polar, Lies, LiesInColumn, Begun, PolarWritable};

use grid::{Digits, Place, Split};

// Where a square stands: in a cap, eastward and from the pole; in another cell, from its corner in its own directions.
#[derive(Clone, Copy)]
enum Spot {
    Cap { eastward: u32, from_pole: u32 },
    Cell { x: u32, y: u32 },
}

// One level: where the square stands in its child, and the digits that lead there (at level 2 those of the polar cell).
// The rest comes first, here and where a step is made: with the digits first the writer takes a tenth more instructions.
#[derive(Clone, Copy)]
struct Step {
    rest: Spot,
    digits: Digits,
}

// One level of a cap, e eastward and q from the pole: row 0 is the new cap, another row leaves it.
fn divide_cap(s: Split, e: u32, q: u32) -> Step
    requires { SpotDivides s }
    ensures { result ≡ cap_step s e q (q / s.width) }
{
    let h = s.width;
    let row = q / h;
    if row == 0 {
        return Step {
            rest: Spot::Cap {
                eastward: e,
                from_pole: q,
            },
            digits: Digits {
                columns: s.ring,
                column: 0,
                row: 0,
            },
        };
    }
    let w = grid::TURN / s.ring;
    Step {
        rest: Spot::Cell {
            x: e % w / (w / h),
            y: q % h,
        },
        digits: Digits {
            columns: s.ring,
            column: e / w,
            row,
        },
    }
}

impl Spot {
    // One level, whatever its split.
    fn divide(self, s: Split) -> Step
        requires { SpotDivides s }
        ensures { result ≡ spot_step s self }
    {
        match self {
            Spot::Cap {
                eastward,
                from_pole,
            } => divide_cap(s, eastward, from_pole),
            Spot::Cell { x, y } => {
                let h = s.width;
                Step {
                    rest: Spot::Cell { x: x % h, y: y % h },
                    digits: Digits {
                        columns: s.columns,
                        column: x / h,
                        row: y / h,
                    },
                }
            }
        }
    }
}

// Level 1: N000 or S000.
fn put_first<const SPACED: bool>(north: bool, line: &mut [u8])
    requires { zone_place SPACED + 3 ≤ length line.old }
    ensures { line.new ≡ spread (stands_at SPACED) 0 (first_chars north) line.old }
{
    let at = grid::zone_place(SPACED);
    line[0] = grid::hemisphere(north);
    line[at..at + 3].copy_from_slice(b"000");
}

// The longitude taken eastward.
fn eastward_of(p: Place) -> u32
    requires { p.x < HALF }
    ensures { result ≡ eastward (unit p.east p.x) }
{
    if p.east { p.x } else { grid::TURN - 1 - p.x }
}

// The digits of the polar cell k. It stays a number, as the table has it: document 01 names these cells by two digits, 4 · the first + the second.
fn digits_of(k: u32) -> Digits
    ensures { result ≡ polar_digits k }
{
    Digits {
        columns: 4,
        column: k / 4,
        row: k % 4,
    }
}

// 30', the height of the polar cells: N000 and S000 are two degrees high and have four rows.
fn high() -> u32
    ensures { result ≡ polar_height }
{
    2 * grid::DEGREE / grid::split_of(0).inward / grid::split_of(1).inward
}

// 120°, the width of the disc's cells but the cap: three about it.
fn third() -> u32
    ensures { result ≡ TURN / second.ring }
{
    grid::TURN / grid::split_of(1).ring
}

// Where a belt cell with a west edge begins, outward from the prime meridian.
fn corner_of(west: u32) -> u32
    requires { west + SIXTH ≤ TURN }
    ensures { result ≡ (belt_box west 0).x }
{
    if west < grid::HALF {
        west
    } else {
        grid::TURN - west - grid::SIXTH
    }
}

// The step from N000 or S000 to the belt cell k. The cell and the place stay two parameters, and `Lies k p` a clause: a struct of both would be built
// for one call each time, and taken apart again in it.
fn to_belt(k: u32, p: Place) -> Step
    requires { (4 ≤ k) × Lies k p }
    ensures { Begun p result }
{
    let c = grid::polar_cell(k as usize);
    Step {
        rest: Spot::Cell {
            x: (p.x - corner_of(c.west)) / (grid::SIXTH / high()),
            y: p.y - c.low,
        },
        digits: digits_of(k),
    }
}

// To the belt cell k of the outer row, or to the one between it and the pole.
fn to_column(k: u32, p: Place) -> Step
    requires { LiesInColumn k p }
    ensures { Begun p result }
{
    if p.y < grid::polar_cell(6).low {
        to_belt(k, p)
    } else {
        to_belt(k + 2, p)
    }
}

// To the belt cell that has the place, outward from the prime meridian: 10, 11 and 20 east, 30, 31 and 21 west, and those poleward of them.
fn in_belt(p: Place) -> Step
    requires { Polar p × (p.y < DISC) }
    ensures { Begun p result }
{
    if p.east {
        if p.x < grid::polar_cell(5).west {
            return to_column(4, p);
        }
        if p.x < grid::polar_cell(8).west {
            return to_column(5, p);
        }
        return to_column(8, p);
    }
    if p.x < grid::TURN - grid::polar_cell(12).west {
        return to_column(12, p);
    }
    if p.x < grid::TURN - grid::polar_cell(13).west {
        return to_column(13, p);
    }
    to_column(9, p)
}

// To the disc cell k, no cap.
fn to_disc(k: u32, p: Place) -> Step
    requires { (0 < k) × (k < 4) × Lies k p }
    ensures { Begun p result }
{
    let c = grid::polar_cell(k as usize);
    let h = high();
    Step {
        rest: Spot::Cell {
            x: (eastward_of(p) - c.west) / (third() / h),
            y: c.low + h - 1 - p.y,
        },
        digits: digits_of(k),
    }
}

// To the cap.
fn to_cap(p: Place) -> Step
    requires { Lies 0 p }
    ensures { Begun p result }
{
    Step {
        rest: Spot::Cap {
            eastward: eastward_of(p),
            from_pole: grid::QUARTER - 1 - p.y,
        },
        digits: digits_of(0),
    }
}

// To the disc cell that has the place, the cap or another.
fn in_disc(p: Place) -> Step
    requires { Polar p × (DISC ≤ p.y) }
    ensures { Begun p result }
{
    if grid::polar_cell(0).low <= p.y {
        return to_cap(p);
    }
    let e = eastward_of(p);
    if e < grid::polar_cell(2).west {
        return to_disc(1, p);
    }
    if e < grid::polar_cell(3).west {
        return to_disc(2, p);
    }
    to_disc(3, p)
}

// The second level: the polar cell. `Polar p` is one word in three clauses; a type for it would be built once, here, and named at each read of p.
fn begin(p: Place) -> Step
    requires { Polar p }
    ensures { Begun p result }
{
    if p.y < grid::DISC {
        in_belt(p)
    } else {
        in_disc(p)
    }
}

// The code of a level for a polar place, from the line's beginning on, each character at its place; the other bytes stay.
pub fn put<const SPACED: bool>(level: u32, p: Place, line: &mut [u8])
    requires { PolarWritable SPACED level p line.old }
    ensures { line.new ≡ spread (stands_at SPACED) 0 (code_of level (square_of p)) line.old }
{
    put_first::<SPACED>(p.north, line);
    let mut step = begin(p);
    grid::put_level::<SPACED>(level, 1, step.digits, line);
    for k in 2..10 {
        step = step.rest.divide(grid::split_of(k as usize));
        grid::put_level::<SPACED>(level, k, step.digits, line);
    }
}
