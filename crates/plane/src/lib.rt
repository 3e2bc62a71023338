// Plane codes of levels 1 to 10 (document 01): from position to code, and from code to cell.
// The ordinary cells and the polar ones go their own roads below this crate; here the refusals are decided and the line is lent on.
#![tactic(auto)]

ghost use Rattle.std.specs.Prelude.{◌≡◌, ◌+◌, ◌^◌, ◌<◌, ◌≤◌, true, false, length, ◌==◌};
ghost use Rattle.grid.specs.Ends.{unit_in};
ghost use Rattle.grid.specs.Splits.{first};
ghost use Rattle.grid.specs.Answers.{answer_of};
ghost use Rattle.grid.specs.Laying.{laid};
ghost use Rattle.grid.specs.Plane.{code_of, cell_of, globe_child};
ghost use Rattle.grid.specs.inner.Roads.{square_of};
ghost use Rattle.grid.specs.inner.Standing.{zone_place, plane_in, stands_at, spread};
ghost use Rattle.plane.specs.Text.{level_in, square_in, plane_text};
ghost use Rattle.plane.specs.inner.Asking.{standing_answer, position_asked, place_at, PlaneWritable};
ghost use Rattle.plane.specs.inner.Lengths.{level_of, SpaceCode};
ghost use Rattle.plane.specs.inner.Start.{first_digits, first_read, Ranged, north_or_south, lettered_read, zoned_read};

use grid::{Cell, Place, Reason, Refusal};
pub use grid::{length_of, outward, upper};

// The place n holds the level of the codes that are n bytes long, 0 where there is none. A match on the length costs a read 13 instructions.
const LEVELS: [u8; 21] = [
    0, 0, 0, 0, 1, 0, 2, 3, 0, 4, 0, 5, 6, 0, 7, 0, 8, 0, 9, 0, 10,
];

// The level of the codes of a length, if there is one.
pub fn level_of(n: usize) -> Option<u32>
    ensures { result ≡ level_of n }
{
    if n < 21 {
        let level = LEVELS[n];
        if level != 0 {
            return Some(level as u32);
        }
    }
    None
}

// What the first four characters lead to: a sheet by zone and row, or N000 or S000. A bad one's place stands beside it, in a Result.
#[derive(Clone, Copy)]
enum First {
    Sheet { north: bool, zone: u32, row: u32 },
    Pole { north: bool },
}

// The row letter of a zone.
fn lettered(north: bool, z: u32, d: u32) -> Result<First, usize>
    requires { (1 ≤ z) × (z ≤ first.columns) }
    ensures { (first_read result ≡ lettered_read north z d) × Ranged result }
{
    let rows = grid::split_of(0).rows;
    if d < 10 {
        return Err(3);
    }
    if rows <= d - 10 {
        return Err(3);
    }
    Ok(First::Sheet {
        north,
        zone: z,
        row: d - 10,
    })
}

// The zone and what follows it, after N or S.
fn zoned(north: bool, b: u32, c: u32, d: u32) -> Result<First, usize>
    ensures { (first_read result ≡ zoned_read north b c d) × Ranged result }
{
    let zones = grid::split_of(0).columns;
    if zones / 10 < b {
        return Err(1);
    }
    if 9 < c {
        return Err(2);
    }
    let z = 10 * b + c;
    if zones < z {
        return Err(2);
    }
    if 0 < z {
        return lettered(north, z, d);
    }
    if d == 0 {
        Ok(First::Pole { north })
    } else {
        Err(3)
    }
}

// 0 for N and for S alone. One number, not two tests: which of them a code begins with cannot be foretold, and a branch on it costs as much
// as reading the level.
fn stray(a: u8) -> u32
    ensures { (result == 0) ≡ north_or_south a }
{
    let from_n = std::num::wrapping_sub_u8(a, b'N') as u32;
    let from_s = std::num::wrapping_sub_u8(a, b'S') as u32;
    from_n * from_s
}

// The first four characters of a plane code, or those of a space code that are its plane code's.
fn begin(spaced: bool, code: &[u8]) -> Result<First, usize>
    requires { zone_place spaced + 3 ≤ length code.now }
    ensures { (first_read result ≡ globe_child (first_digits spaced code.now)) × Ranged result }
{
    let at = grid::zone_place(spaced);
    let a = code[0];
    let b = grid::digit_below(10, code[at]);
    let c = grid::digit_below(10, code[at + 1]);
    let d = grid::digit_below(32, code[at + 2]);
    if stray(a) != 0 {
        return Err(0);
    }
    zoned(a == b'N', b, c, d)
}

// The level, or 1 where it is outside 1 to 10.
pub fn ask_level(level: i64) -> Result<u32, Refusal>
    ensures { answer_of result ≡ level_in level }
{
    if level < 1 {
        return Err(Reason::Level.refuse());
    }
    if 10 < level {
        return Err(Reason::Level.refuse());
    }
    Ok(level as u32)
}

// The unit that a number stands for in the range that ends half units either way from 0, if it lies in it: the upper end for the last unit from 0 on
// where `up` is true, else for the last below 0; every other number for itself.
fn stands_for(u: i64, half: u32, up: bool) -> Option<i64>
    requires { (0 < half) × (half < 2 ^ 31) }
    ensures { (r : Refusal) → standing_answer r result ≡ unit_in r half up u }
{
    if outward(u) < half as u64 {
        return Some(u);
    }
    if u == half as i64 {
        return Some(grid::number_on(up, half - 1) as i64);
    }
    None
}

// The place of a position, or 2 and 3 in that order, about the position of the call that the ordinal says.
pub fn ask_position(ordinal: u32, longitude: i64, latitude: i64) -> Result<Place, Refusal>
    ensures { position_asked result ≡ square_in ordinal longitude latitude }
{
    let Some(u) = stands_for(longitude, grid::HALF, false) else {
        return Err(grid::about(ordinal, Reason::Longitude.refuse()));
    };
    let Some(v) = stands_for(latitude, grid::QUARTER, true) else {
        return Err(grid::about(ordinal, Reason::Latitude.refuse()));
    };
    Ok(Place {
        east: upper(u),
        north: upper(v),
        x: outward(u) as u32,
        y: outward(v) as u32,
    })
}

// Writes the code of a level for a place from the line's first byte on, each character at its place in a plane code, or in a space code where
// `SPACED` is true; the other bytes stay. The place is handed over by its parts, which travel in registers: as a `Place` it goes through memory, a
// plane write takes 264 instructions for 254, and a short read 440 bytes of stack for 424. In this order line and y stay in a caller's registers.
pub fn put<const SPACED: bool>(level: u32, east: bool, north: bool, x: u32, line: &mut [u8], y: u32)
    requires { PlaneWritable SPACED level (place_at east north x y) line.old }
    ensures { line.new ≡ spread (stands_at SPACED) 0 (code_of level (square_of (place_at east north x y))) line.old }
{
    let p = Place { east, north, x, y };
    if y < grid::POLAR {
        ordinary_write::put::<SPACED>(level, p, line);
    } else {
        polar_write::put::<SPACED>(level, p, line);
    }
}

// The plane code of a position, written into the line from `at` on. Refusals 1, 2, 3 and 5, in that order; a refusal changes no byte.
pub fn write(
    level: i64,
    longitude: i64,
    latitude: i64,
    line: &mut [u8],
    at: usize,
) -> Result<usize, Refusal>
    ensures { (answer_of result, line.new) ≡ laid (plane_text level longitude latitude) line.old at }
{
    let level = ask_level(level)?;
    let p = ask_position(1, longitude, latitude)?;
    let n = length_of(level);
    if grid::room_from(line.len(), at) < n {
        return Err(Reason::Room.refuse());
    }
    put::<false>(level, p.east, p.north, p.x, &mut line[at..], p.y);
    Ok(n)
}

// The cell of a plane code. Refusals, in order: 6, 7 or 20 with the place of the first bad character.
pub fn read(code: &[u8]) -> Result<Cell, Refusal>
    ensures { answer_of result ≡ cell_of code.now }
{
    let Some(level) = level_of(code.len()) else {
        return Err(Reason::Length.refuse());
    };
    match begin(false, code) {
        Ok(first) => match first {
            First::Sheet { north, zone, row } => ordinary_read::rest::<false>(
                level, north, zone, row, code,
            ),
            First::Pole { north } => polar_read::rest::<false>(level, north, code),
        },
        Err(place) => Err(grid::wrong_in(false, code, place)),
    }
}

// The cell of the plane characters of a space code of a level, read where they stand; or 7 or 20, with the place of the first bad one among them.
pub fn read_in_space(level: u32, code: &[u8]) -> Result<Cell, Refusal>
    requires { SpaceCode level (length code.now) }
    ensures { answer_of result ≡ cell_of (plane_in true level code.now) }
{
    match begin(true, code) {
        Ok(first) => match first {
            First::Sheet { north, zone, row } => ordinary_read::rest::<true>(
                level, north, zone, row, code,
            ),
            First::Pole { north } => polar_read::rest::<true>(level, north, code),
        },
        Err(place) => Err(grid::wrong_in(true, code, place)),
    }
}
