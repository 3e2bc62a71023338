// One-step reference codes (document 01, "Reference codes"): a plane code, a hyphen, M cells east and N cells north.
// The writer finds M and N between two cells, the reader moves a cell by them; both count round a full turn, east and north alike.
#![tactic(auto)]

mod offset;

ghost use Rattle.std.specs.Prelude.{◌≡◌, true, ◌+◌, ◌%◌, ◌≤◌, ◌<◌, length};
ghost use Rattle.std.proofs.lemmas.List.Edits.{sets};
ghost use Rattle.grid.specs.Units.{TURN, HALF, QUARTER, index};
ghost use Rattle.grid.specs.inner.Roads.{square_of};
ghost use Rattle.grid.specs.Answers.{accepted, answer_of};
ghost use Rattle.grid.specs.Laying.{laid};
ghost use Rattle.grid.specs.Plane.{longitude_at, code_of, cell_of};
ghost use Rattle.reference.specs.Offsets.{offset_digit, moved_to, span_in, span_of};
ghost use Rattle.reference.specs.Text.{fit, reference_code, reference_text, target_square, target_of, offset_in, target_text};
ghost use Rattle.reference.specs.inner.Parts.{offset_answer, text_of, target_from, Known, Steps};

use distances::LAST;
use grid::{Cell, HALF, POLAR, Place, Reason, Refusal, TURN};
pub use offset::Offset;

// ---- bases and targets

// A base or a target: level 5 or finer, and ordinary.
fn fits(c: Cell) -> bool
    ensures { result ≡ fit c }
{
    5 <= c.level && distances::outward(c.south) < POLAR
}

// ---- M and N

// So many units as cells onward, or else as cells back.
fn cells(size: u32, d: u32) -> u32
    requires { (0 < size) × (d < TURN) }
    ensures { result ≡ span_in size d }
{
    let k = d / size;
    if k < 8 {
        return k;
    }
    9 + (TURN - d) / size
}

// The digit that leads from one number to another.
fn span(size: u32, a: i32, b: i32) -> u32
    requires { 0 < size }
    ensures { result ≡ span_of size a b }
{
    cells(size, distances::apart(a, b))
}

// What leads from the base's code to the target's: refusals 6, 7 or 20 of the base; 6, 7 or 20 of the target, with ordinal 2; 8, 9, 10; else M and N.
// The target is read first, and its refusal is looked at second: so less is kept while the codes are read.
fn offset_to(base: &[u8], target: &[u8]) -> Result<Offset, Refusal>
    ensures { text_of result (λ o. reference_code base.now o.m o.n) ≡ reference_text base.now target.now }
{
    let t = plane::read(target);
    let b = plane::read(base)?;
    let t = t.map_err(|r| grid::about(2, r))?;
    if !(fits(b) && fits(t)) {
        return Err(Reason::ReferenceCell.refuse());
    }
    if b.level != t.level {
        return Err(Reason::LevelsDiffer.refuse());
    }
    let m = span(b.width, b.west, t.west);
    let n = span(b.height, b.south, t.south);
    if 16 < m || 16 < n {
        return Err(Reason::Offset.refuse());
    }
    Ok(Offset { m, n })
}

// ---- the cell that M and N lead to

// An offset's character: 0 to 7, or A to G.
fn is_offset(v: u32) -> bool
    ensures { result ≡ offset_digit v }
{
    matches!(v, 0..=7 | 10..=16)
}

// d units on from a, round a turn.
fn on(a: u32, d: u32) -> u32
    requires { (a < TURN) × (d < TURN) }
    ensures { (result ≡ (a + d) % TURN) × (result < TURN) }
{
    let left = TURN - a;
    if d < left { a + d } else { d - left }
}

// A number moved by an offset's digit, as its remainder by a turn.
fn moved_to(size: u32, digit: u32, z: i32) -> u32
    requires { (0 < size) × (size ≤ 8192) × (offset_digit digit ≡ true) }
    ensures { (result ≡ moved_to size digit z) × (result < TURN) }
{
    let a = distances::remainder(z);
    if digit < 8 {
        return on(a, digit * size);
    }
    on(a, TURN - (digit - 9) * size)
}

// The outward index of the number with a remainder.
fn index_at(e: u32) -> u32
    requires { e < TURN }
    ensures { result ≡ index (longitude_at e) }
{
    e.min(LAST - e)
}

// The place of two remainders.
fn placed(e: u32, n: u32) -> Place
    requires { (e < TURN) × (n < TURN) }
    ensures { square_of result ≡ record { longitude = longitude_at e; latitude = longitude_at n } }
{
    Place {
        east: e < HALF,
        north: n < HALF,
        x: index_at(e),
        y: index_at(n),
    }
}

// The place of the target's corner.
fn landed(b: Cell, o: Offset) -> Place
    requires { Steps b }
    ensures { square_of result ≡ target_square b o.m o.n }
{
    placed(
        moved_to(b.width, o.m, b.west),
        moved_to(b.height, o.n, b.south),
    )
}

// Where a reference code leads: the target's level and the place of its corner.
#[derive(Clone, Copy)]
struct Target {
    level: u32,
    place: Place,
    ghost on_the_globe: { (1 ≤ level) × (level ≤ 10) × (place.x < HALF) × (place.y < QUARTER) },
}

// The target that an offset leads to from the cell of a code, or refusal 8 or 12.
fn target_of(b: Cell, o: Offset) -> Result<Target, Refusal>
    requires { Known b }
    ensures { text_of result (λ t. code_of t.level (square_of t.place)) ≡ target_of (record { from = b; m = o.m; n = o.n }) }
{
    if !fits(b) {
        return Err(Reason::ReferenceCell.refuse());
    }
    let place = landed(b, o);
    if POLAR <= place.y {
        return Err(Reason::PolarTarget.refuse());
    }
    Ok(Target {
        level: b.level,
        place: place,
    })
}

// The target's plane code, laid into the line from `at` on: refusal 5, else the number of bytes.
fn lay_target(t: Target, line: &mut [u8], at: usize) -> Result<usize, Refusal>
    ensures { (answer_of result, line.new) ≡ laid (accepted (code_of t.level (square_of t.place))) line.old at }
{
    let p = t.place;
    let n = plane::length_of(t.level);
    if grid::room_from(line.len(), at) < n {
        return Err(Reason::Room.refuse());
    }
    plane::put::<false>(t.level, p.east, p.north, p.x, &mut line[at..], p.y);
    Ok(n)
}

// The hyphen at place k, M and N: refusal 7 or 20, else the two digits. They are read by themselves: a base is not needed for it.
pub fn offset_in(k: usize, h: u8, m: u8, n: u8) -> Result<Offset, Refusal>
    requires { k < 18446744073709551613 }
    ensures { offset_answer result ≡ offset_in k h m n }
{
    let u = grid::digit(m);
    let v = grid::digit(n);
    if h != b'-' {
        return Err(grid::wrong_character(k, h));
    }
    if !is_offset(u) {
        return Err(grid::wrong_character(k + 1, m));
    }
    if !is_offset(v) {
        return Err(grid::wrong_character(k + 2, n));
    }
    Ok(Offset { m: u, n: v })
}

// ---- the line

// The reference code, from the line's first byte on.
fn put(base: &[u8], o: Offset, line: &mut [u8])
    requires { length base.now + 3 ≤ length line.old }
    ensures { line.new ≡ sets line.old 0 (reference_code base.now o.m o.n) }
{
    let k = base.len();
    // By a loop: `copy_from_slice` is a call here, and takes more of the stack (3,672 bytes in place of 240).
    for i in 0..k {
        line[i] = base[i];
    }
    line[k] = b'-';
    line[k + 1] = grid::character(o.m);
    line[k + 2] = grid::character(o.n);
}

// The reference code laid into the line from `at` on: refusal 5, else the number of bytes.
fn lay(base: &[u8], o: Offset, line: &mut [u8], at: usize) -> Result<usize, Refusal>
    ensures { (answer_of result, line.new) ≡ laid (accepted (reference_code base.now o.m o.n)) line.old at }
{
    let n = base.len() + 3;
    if grid::room_from(line.len(), at) < n {
        return Err(Reason::Room.refuse());
    }
    put(base, o, &mut line[at..]);
    Ok(n)
}

// ---- the calls

// The reference code that leads from the base's plane code to the target's, written into the line from `at` on.
// Refusals, in this order: 6, 7 or 20 of the base; 6, 7 or 20 of the target, with ordinal 2; 8, 9, 10, 5. A refusal changes no byte.
pub fn write(base: &[u8], target: &[u8], line: &mut [u8], at: usize) -> Result<usize, Refusal>
    ensures { (answer_of result, line.new) ≡ laid (reference_text base.now target.now) line.old at }
{
    let o = offset_to(base, target)?;
    lay(base, o, line, at)
}

// The plane code that a reference code leads to, written into the line from `at` on.
// Refusals, in this order: 6, 7 or 20, 8, 12, 5. A refusal changes no byte.
pub fn read(code: &[u8], line: &mut [u8], at: usize) -> Result<usize, Refusal>
    ensures { (answer_of result, line.new) ≡ laid (target_text code.now) line.old at }
{
    let k = code.len().checked_sub(3).ok_or(Reason::Length.refuse())?;
    let b = plane::read(&code[..k])?;
    let o = offset_in(k, code[k], code[k + 1], code[k + 2])?;
    lay_target(target_of(b, o)?, line, at)
}

// For short codes, which have no base of their own: the plane code that an offset leads to from a base's plane code, written into the line from `at` on.
// Refusals, in this order: 6, 7 or 20 of the base, 8, 12, 5. A refusal changes no byte.
pub fn read_by(base: &[u8], o: Offset, line: &mut [u8], at: usize) -> Result<usize, Refusal>
    ensures { (answer_of result, line.new) ≡ laid (target_from (cell_of base.now) o.m o.n) line.old at }
{
    let b = plane::read(base)?;
    lay_target(target_of(b, o)?, line, at)
}
