// The writer of plane codes of ordinary positions, those whose latitude index is below 88° (document 01, "Ten levels away from the poles").
// Levels are written one after the other, each over its line of the one table, and no character is written twice. Each step takes the place of its
// characters from `grid`: in a plane code, or in a space code where `SPACED` is true.
#![tactic(auto)]

ghost use Rattle.std.specs.Prelude.{◌≡◌, ◌+◌, ◌≤◌, ◌<◌, length};
ghost use Rattle.grid.specs.Units.{HALF, POLAR, unit};
ghost use Rattle.grid.specs.inner.Roads.{square_of};
ghost use Rattle.grid.specs.inner.Standing.{zone_place, stands_at, spread};
ghost use Rattle.grid.specs.Plane.{zone, code_of};
ghost use Rattle.ordinary_write.specs.inner.Writing.{OrdinaryWritable, ordinary_digits, OrdinaryDivides};

use grid::{Digits, Place, Split};

// The zone: columns count outward from the prime meridian, 31 and up east, 30 and down west.
fn zone(p: Place) -> u32
    requires { p.x < HALF }
    ensures { result ≡ zone (unit p.east p.x) }
{
    let s = grid::split_of(0);
    if p.east {
        31 + p.x / s.width
    } else {
        30 - p.x / s.width
    }
}

// Level 1: N or S, the zone as two decimal digits, the row letter.
fn put_first<const SPACED: bool>(p: Place, line: &mut [u8])
    requires { (p.x < HALF) × (p.y < POLAR) × (zone_place SPACED + 3 ≤ length line.old) }
    ensures { line.new ≡ spread (stands_at SPACED) 0 (code_of 1 (square_of p)) line.old }
{
    let s = grid::split_of(0);
    let z = zone(p);
    let at = grid::zone_place(SPACED);
    line[0] = grid::hemisphere(p.north);
    line[at] = b'0' + (z / 10) as u8;
    line[at + 1] = b'0' + (z % 10) as u8;
    line[at + 2] = b'A' + (p.y / s.height) as u8;
}

// What the level of a split adds: the column and the row of a place in its cell of the level before.
fn digits(s: Split, p: Place) -> Digits
    requires { OrdinaryDivides s }
    ensures { result ≡ ordinary_digits s p.x p.y }
{
    Digits {
        columns: s.columns,
        column: p.x / s.width % s.columns,
        row: p.y / s.height % s.rows,
    }
}

// The code of a level, from the line's beginning on, each character at its place; the other bytes stay.
pub fn put<const SPACED: bool>(level: u32, p: Place, line: &mut [u8])
    requires { OrdinaryWritable SPACED level p line.old }
    ensures { line.new ≡ spread (stands_at SPACED) 0 (code_of level (square_of p)) line.old }
{
    put_first::<SPACED>(p, line);
    for k in 1..10 {
        let d = digits(grid::split_of(k as usize), p);
        grid::put_level::<SPACED>(level, k, d, line);
    }
}
