// A reservation of the book, and when two of them conflict (document 02, Wish 3): tests on plain values, right for every number that a record can hold.
#![tactic(auto)]

ghost use Rattle.std.specs.Prelude.{◌≡◌, pos, ◌+ℤ◌};
ghost use Rattle.reservations.specs.Meeting.{arcs_meet, squares_meet, conflict_test};
ghost use Rattle.reservations.specs.inner.Spans.{spans_meet};

use grid::{Cell, SpaceCell, TURN};
use std::ops::Range;

// One reservation: a live mark (0 is not live, any other number is), the flight, the space cell, and the minutes from start to end, the end not included.
// In memory it is eleven 32-bit numbers: live, flight, level, west, south, width, height, floor, thickness, start, end.
// C lends it so, and the live mark is a number there, and no bool.
#[repr(C)]
#[derive(Clone, Copy)]
pub struct Reservation {
    pub live: u32,
    pub flight: u32,
    pub space: SpaceCell,
    pub start: u32,
    pub end: u32,
}

// Two ranges of whole numbers have one in common.
fn meet(a: Range<i64>, b: Range<i64>) -> bool
    ensures { result ≡ spans_meet a.start a.end b.start b.end }
{
    a.start.max(b.start) < a.end.min(b.end)
}

// The n whole numbers from f on. No sum wraps: i64.
fn run(f: i32, n: u32) -> Range<i64>
    ensures { (result.start ≡ f) × (result.end ≡ f +ℤ pos n) }
{
    let start = f as i64;
    start..start + n as i64
}

// The n longitudes from v on and the m from w on have one in common.
// They go round the turn, so they are no ranges; the one caller takes them from cells.
#[tactic(auto, using(crate::proofs::Spans::computed), unfolding(crate::specs::Meeting::arcs_meet))]
fn arcs_meet(v: i32, n: u32, w: i32, m: u32) -> bool
    ensures { result ≡ arcs_meet v n w m }
{
    // one distance: the way back is the rest of the turn
    let east = distances::apart(v, w);
    0 < m && (east < n || 0 < n && TURN - east < m)
}

// The two cells share a unit square.
#[tactic(auto, using(crate::proofs::Spans::computed), unfolding(crate::specs::Meeting::squares_meet))]
fn squares_meet(c: Cell, d: Cell) -> bool
    ensures { result ≡ squares_meet c d }
{
    meet(run(c.south, c.height), run(d.south, d.height))
        && arcs_meet(c.west, c.width, d.west, d.width)
}

impl Reservation {
    // The minutes of a record.
    fn minutes(self) -> Range<i64>
        ensures { (result.start ≡ pos self.start) × (result.end ≡ pos self.end) }
    {
        self.start as i64..self.end as i64
    }

    // The layers of a record.
    fn layers(self) -> Range<i64>
        ensures { (result.start ≡ self.space.floor) × (result.end ≡ self.space.floor +ℤ pos self.space.thickness) }
    {
        run(self.space.floor, self.space.thickness)
    }

    // The two records share a minute, a unit square and a layer.
    #[tactic(auto, using(crate::proofs::Spans::computed), unfolding(crate::specs::Meeting::layers_meet, crate::specs::Meeting::conflict_test))]
    pub fn conflicts(self, other: Reservation) -> bool
        ensures { result ≡ conflict_test self other }
    {
        meet(self.minutes(), other.minutes())
            && squares_meet(self.space.cell, other.space.cell)
            && meet(self.layers(), other.layers())
    }
}
