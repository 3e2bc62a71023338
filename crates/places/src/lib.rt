// The place book (document 02, Wish 6): place names with their plane codes, in bytes that the caller lends.
// Each call goes through the whole book once: it checks every entry, and on the way looks for the name that is asked for.
#![tactic(auto)]

ghost use Rattle.std.specs.Prelude.{◌≡◌, true, false, ◌+◌, ◌≤◌, length, MatchOption};
ghost use Rattle.std.specs.Ordering.{ordering_index};
ghost use Rattle.grid.specs.Plane.{cell_of};
ghost use Rattle.places.specs.Book.{order, unhyphened, is_accepted};
ghost use Rattle.places.specs.Reading.{fair, sized};
ghost use Rattle.places.specs.Finding.{place_refusal, place_found, found_in, part_in};
ghost use Rattle.places.specs.inner.Walk.{four_at, AlikeTo, Alike, Contents, Fits, note, settled, looked_in};

use grid::{Reason, Refusal};
use std::cmp::Ordering;

// Where an entry stands in the book: its name from `start` on, and its code straight behind it.
#[derive(Clone, Copy, Debug, PartialEq, Eq)]
pub struct Spot {
    pub start: usize,
    pub name: usize,
    pub code: usize,
}

// Why a name leads to no entry: 21, the book is badly formed, or 22, no entry has the name.
#[derive(Clone, Copy, Debug, PartialEq, Eq)]
pub enum NotFound {
    BadlyFormed,
    NotInBook,
}

impl From<NotFound> for Refusal {
    ghost from_gives = { λ why r. r ≡ place_refusal why };

    fn from(why: NotFound) -> Refusal {
        match why {
            NotFound::BadlyFormed => Reason::BadlyFormed.refuse(),
            NotFound::NotInBook => Reason::NotInBook.refuse(),
        }
    }
}

// The first entry that is not below the asked name: whether it has that name, and its lengths.
#[derive(Clone, Copy)]
struct Met {
    same: bool,
    name: usize,
    code: usize,
}

// What the walk keeps of an asked name: how many names are below it, where the next body begins, and the first entry that is not below.
#[derive(Clone, Copy)]
struct Seen {
    below: usize,
    start: usize,
    met: Option<Met>,
}

// ---- one entry

// The number of four bytes at i, the highest first.
fn four(a: &[u8], i: usize) -> u32
    requires { i + 4 ≤ length a.now }
    ensures { result ≡ four_at a.now i }
{
    u32::from_be_bytes([a[i], a[i + 1], a[i + 2], a[i + 3]])
}

// How far two names begin alike, by fours.
// The index is counted by hand: by `as_chunks`, `zip` and `take_while`, or by `step_by`, `find` takes 312 bytes of stack for 296.
fn alike(a: &[u8], b: &[u8]) -> usize
    ensures { Alike a.now b.now result }
{
    let n = a.len().min(b.len());
    let mut i = 0;
    while i + 3 < n {
        if four(a, i) != four(b, i) {
            return i;
        }
        i += 4;
    }
    i
}

// Dictionary order as bytes, of names that begin alike up to d.
fn order_after(d: usize, a: &[u8], b: &[u8]) -> Ordering
    requires { AlikeTo a.now b.now d }
    ensures { ordering_index result ≡ order a.now b.now }
{
    a[d..].iter().cmp(b[d..].iter())
}

// The same where they have no four bytes more alike: where both have four, these decide.
// Without these two lines `find` takes a tenth more instructions.
fn order_from(d: usize, a: &[u8], b: &[u8]) -> Ordering
    requires { Alike a.now b.now d }
    ensures { ordering_index result ≡ order a.now b.now }
{
    if d + 3 < a.len().min(b.len()) {
        return four(a, d).cmp(&four(b, d));
    }
    order_after(d, a, b)
}

// The same of any two names.
fn order(a: &[u8], b: &[u8]) -> Ordering
    ensures { ordering_index result ≡ order a.now b.now }
{
    order_from(alike(a, b), a, b)
}

// Whether no byte is a hyphen.
fn unhyphened(name: &[u8]) -> bool
    ensures { result ≡ unhyphened name.now }
{
    !name.contains(&b'-')
}

// Whether the plane reader accepts a code.
fn is_accepted(code: &[u8]) -> bool
    ensures { result ≡ is_accepted (cell_of code.now) }
{
    plane::read(code).is_ok()
}

// Whether an entry may stand after the name `last`, which has no hyphen: so the name can have one only behind what both begin with.
fn fair(last: &[u8], name: &[u8], code: &[u8]) -> bool
    requires { unhyphened last.now ≡ true }
    ensures { result ≡ fair last.now name.now code.now }
{
    let d = alike(last, name);
    if order_from(d, last, name).is_ge() || 64 < name.len() {
        return false;
    }
    unhyphened(&name[d..]) && is_accepted(code)
}

// ---- the walk

impl Seen {
    // What one more entry makes of what was seen before it.
    fn note(self, asked: &[u8], name: &[u8], code: usize) -> Seen
        requires { Fits self (length name.now) code }
        ensures { result ≡ note asked.now self name.now code }
    {
        if self.met.is_some() {
            return self;
        }
        let order = order(name, asked);
        if order.is_lt() {
            return Seen {
                below: self.below + 1,
                start: self.start + name.len() + code,
                met: None,
            };
        }
        Seen {
            met: Some(Met {
                same: order.is_eq(),
                name: name.len(),
                code,
            }),
            ..self
        }
    }

    // What was seen, as an answer.
    fn settled(self) -> Result<Spot, NotFound>
        ensures { place_found result ≡ settled self }
    {
        match self.met {
            Some(e) if e.same => Ok(Spot {
                start: self.start,
                name: e.name,
                code: e.code,
            }),
            _ => Err(NotFound::NotInBook),
        }
    }
}

// The contents of a book, four bytes an entry, where its lengths are such that they can be read.
fn contents(places: &[u8]) -> Option<&[[u8; 4]]>
    ensures { MatchOption result (sized places.now ≡ false) (λ e. (sized places.now ≡ true) × Contents places.now e.now) }
{
    let (count, rest) = places.split_first_chunk::<2>()?;
    let k = usize::from(u16::from_be_bytes(*count));
    if 65535 < places.len() || 1000 < k || rest.len() < 4 * k {
        return None;
    }
    let (entries, _) = rest[..4 * k].as_chunks::<4>();
    Some(entries)
}

// The walk over the entries with these contents: each is checked, and the asked name is sought.
fn walk(asked: &[u8], book: &[u8], entries: &[[u8; 4]]) -> Result<Seen, NotFound>
    requires { Contents book.now entries.now }
    ensures { result ≡ looked_in asked.now book.now (length entries.now) }
{
    let mut last = &book[..0];
    let mut at = 2 + 4 * entries.len();
    let mut seen = Seen {
        below: 0,
        start: at,
        met: None,
    };
    for entry in entries {
        let [high, low, n, m] = *entry;
        let mid = at + usize::from(n);
        let code = usize::from(m);
        let end = mid + code;
        if usize::from(u16::from_be_bytes([high, low])) != at || book.len() < end {
            return Err(NotFound::BadlyFormed);
        }
        let name = &book[at..mid];
        if !fair(last, name, &book[mid..end]) {
            return Err(NotFound::BadlyFormed);
        }
        seen = seen.note(asked, name, code);
        last = name;
        at = end;
    }
    if at == book.len() {
        Ok(seen)
    } else {
        Err(NotFound::BadlyFormed)
    }
}

// ---- the two calls

// Where the entry of a name stands in the book. Refusals, in this order: 21, 22.
pub fn find(name: &[u8], places: &[u8]) -> Result<Spot, NotFound>
    ensures { place_found result ≡ found_in name.now places.now }
{
    match contents(places) {
        Some(entries) => walk(name, places, entries)?.settled(),
        None => Err(NotFound::BadlyFormed),
    }
}

// Name and code of the entry of a name, as the part of the lent book that they occupy; empty where it is refused, 21 or 22.
pub fn part<'a>(name: &[u8], places: &'a [u8]) -> &'a [u8]
    ensures { result.now ≡ part_in name.now places.now }
{
    match find(name, places) {
        Ok(s) => {
            let end = s.start + s.name + s.code;
            &places[s.start..end]
        }
        Err(_) => &places[..0],
    }
}
