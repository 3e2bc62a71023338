// Arc-second readings (document 01, "Arc-seconds"): two f64 readings as whole units, and a plane cell's box in arc-seconds.
// Reading works the floor out from the bits; the box rounds nothing, since a unit count divided by 2048 is exact.
#![tactic(auto)]

ghost use Rattle.std.specs.Prelude.{◌≡◌, not, ℕ, ◌-◌, ◌/◌, ◌^◌, ◌<◌, T};
ghost use Rattle.std.specs.Float.Ieee.{is_nan};
ghost use Rattle.grid.specs.Answers.{answer_of};
ghost use Rattle.grid.specs.Plane.{cell_of};
ghost use Rattle.arcseconds.specs.Readings.{reading_of, units_of};
ghost use Rattle.arcseconds.specs.Boxes.{BoxOf, BoxSays};
ghost use Rattle.arcseconds.specs.inner.Axis.{reading_answer, indexed_of, SecondsFrom};

use grid::{Cell, Reason, Refusal};

// A position in whole units.
#[derive(Clone, Copy)]
pub struct Units {
    pub longitude: i32,
    pub latitude: i32,
}

// d / 2 ^ (1064 - exponent): the units of a reading with the digits d and that exponent's field.
fn shifted(d: u64, exponent: u64) -> u64
    requires { (d < 2 ^ 53) × (exponent < 1043) }
    ensures { result ≡ d / 2 ^ (1064 - exponent) }
{
    if exponent < 1001 {
        return 0;
    }
    d >> (1064 - exponent)
}

// The greatest whole units not above a reading that is a number, if their outward index is below half.
// Below 0 the index comes from the digits less one, so that a reading of whole units keeps them.
fn axis(x: f64, half: u64) -> Option<i32>
    requires { T (not (is_nan x)) × (0 < half) × (half < 2 ^ 31) }
    ensures { (n : ℕ) → reading_answer n result ≡ indexed_of n half x }
{
    let bits = x.to_bits();
    let size = bits % 0x8000_0000_0000_0000;
    if size == 0 {
        return Some(0);
    }
    let exponent = size / 0x10_0000_0000_0000;
    if exponent >= 1043 {
        return None;
    }
    let below = bits / 0x8000_0000_0000_0000;
    let digits = bits % 0x10_0000_0000_0000 + (0x10_0000_0000_0000 - below);
    let outward = shifted(digits, exponent);
    if outward >= half {
        return None;
    }
    if below == 0 {
        return Some(outward as i32);
    }
    Some(-1 - (outward as i32))
}

// One reading that is a number, in the range that ends half units either way from 0, both ends in it. `axis` leaves out the upper end; it is looked at
// on the way out, where it costs the others nothing. A reading above it lies outside, also where its whole units are half.
fn in_range(x: f64, half: u32) -> Option<i32>
    requires { T (not (is_nan x)) × (0 < half) × (half < 2 ^ 31) }
    ensures { (n : ℕ) → reading_answer n result ≡ reading_of n half x }
{
    match axis(x, half as u64) {
        None if x == seconds(half) => Some(half as i32),
        whole => whole,
    }
}

// The whole units of a longitude and a latitude in arc-seconds. Refusals: 11, 2, 3.
pub fn read(longitude: f64, latitude: f64) -> Result<Units, Refusal>
    ensures { answer_of result ≡ units_of longitude latitude }
{
    if longitude.is_nan() || latitude.is_nan() {
        return Err(Reason::NotANumber.refuse());
    }
    let u = in_range(longitude, grid::HALF).ok_or(Reason::Longitude.refuse())?;
    let v = in_range(latitude, grid::QUARTER).ok_or(Reason::Latitude.refuse())?;
    Ok(Units {
        longitude: u,
        latitude: v,
    })
}

// A box in arc-seconds.
#[derive(Clone, Copy)]
pub struct ArcBox {
    pub west: f64,
    pub south: f64,
    pub width: f64,
    pub height: f64,
}

// A corner's unit number, a width, a height or the upper end of a range in arc-seconds.
fn seconds<N: Into<f64>>(u: N) -> f64
    ensures { SecondsFrom (N.converts u) result }
{
    u.into() / 2048.0
}

// A plane cell's box in arc-seconds. Nothing is rounded.
pub fn box_of(c: Cell) -> ArcBox
    ensures { BoxOf c result }
{
    ArcBox {
        west: seconds(c.west),
        south: seconds(c.south),
        width: seconds(c.width),
        height: seconds(c.height),
    }
}

// The box of a plane code in arc-seconds. Refusals, in order: 6, 7 or 20.
pub fn plane_box(code: &[u8]) -> Result<ArcBox, Refusal>
    ensures { BoxSays (cell_of code.now) result }
{
    let c = plane::read(code)?;
    Ok(box_of(c))
}
