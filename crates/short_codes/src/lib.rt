// Short codes (document 02, Wish 6; source 000, clause 8): a place name, a hyphen, M and N, read with a place book.
#![tactic(auto)]

ghost use Rattle.std.specs.Prelude.{◌≡◌};
ghost use Rattle.grid.specs.Answers.{answer_of};
ghost use Rattle.grid.specs.Laying.{laid};
ghost use Rattle.grid.specs.Plane.{cell_of};
ghost use Rattle.reference.specs.inner.Parts.{offset_answer, target_from};
ghost use Rattle.short_codes.specs.Text.{name_in, offset_of, code_at, short_text};
ghost use Rattle.short_codes.specs.inner.Parts.{SpotInside};

use grid::{Reason, Refusal};
use places::{NotFound, Spot};
use reference::Offset;

// A short code's place name: all but its last three bytes.
fn name_in<'a>(code: &'a [u8]) -> &'a [u8]
    ensures { result.now ≡ name_in code.now }
{
    let end = code.len().saturating_sub(3);
    &code[..end]
}

// Refusals 6, 7 or 20 of a short code, else its M and N.
fn offset_of(code: &[u8]) -> Result<Offset, Refusal>
    ensures { offset_answer result ≡ offset_of code.now }
{
    let n = code.len();
    if n < 4 {
        return Err(Reason::Length.refuse());
    }
    let k = n - 3;
    reference::offset_in(k, code[k], code[k + 1], code[k + 2])
}

// What M and N lead to from the code of the entry at a spot.
fn read_at(o: Offset, places: &[u8], s: Spot, line: &mut [u8], at: usize) -> Result<usize, Refusal>
    requires { SpotInside places.now s }
    ensures { (answer_of result, line.new) ≡ laid (target_from (cell_of (code_at places.now s)) o.m o.n) line.old at }
{
    let from = s.start + s.name;
    let end = from + s.code;
    reference::read_by(&places[from..end], o, line, at)
}

// The plane code that a short code leads to, written into the line from `at` on.
// Refusals, in this order: 21, 6, 7 or 20, 22, 8, 12, 5. A refusal changes no byte.
pub fn read(code: &[u8], places: &[u8], line: &mut [u8], at: usize) -> Result<usize, Refusal>
    ensures { (answer_of result, line.new) ≡ laid (short_text code.now places.now) line.old at }
{
    match places::find(name_in(code), places) {
        Ok(s) => match offset_of(code) {
            Ok(o) => read_at(o, places, s, line, at),
            Err(r) => Err(r),
        },
        Err(NotFound::BadlyFormed) => Err(Reason::BadlyFormed.refuse()),
        Err(NotFound::NotInBook) => match offset_of(code) {
            Ok(_) => Err(Reason::NotInBook.refuse()),
            Err(r) => Err(r),
        },
    }
}
