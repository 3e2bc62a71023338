// How far two longitudes or latitudes are apart, round a full turn. Cells and records hold them as i32.
#![tactic(auto)]

ghost use Rattle.std.specs.Prelude.{◌≡◌, ◌<◌};
ghost use Rattle.grid.specs.Units.{TURN, index};
ghost use Rattle.grid.specs.Cells.{around};
ghost use Rattle.distances.specs.Distances.{between};

use grid::TURN;

// The last remainder by a full turn.
pub const LAST: u32 = TURN - 1;

// The outward index of a longitude or latitude.
pub fn outward(z: i32) -> u32
    ensures { result ≡ index z }
{
    grid::outward(z.into()) as u32
}

// Its remainder by a full turn.
pub fn remainder(z: i32) -> u32
    ensures { result ≡ around z }
{
    i64::from(z).rem_euclid(i64::from(TURN)) as u32
}

// The units from one number to another, eastward or northward.
pub fn apart(a: i32, b: i32) -> u32
    ensures { (result ≡ between a b) × (result < TURN) }
{
    let x = remainder(a);
    let y = remainder(b);
    if x <= y { y - x } else { y + (TURN - x) }
}
