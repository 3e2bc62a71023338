// The reservation book (document 02, Wishes 3 and 7): a slice of records that the scheduler lends, to add to and to release from.
// `run` is the one function that writes in the book; what it writes is decided by the functions before it, which only read.
#![tactic(auto)]

ghost use Rattle.std.specs.Prelude.{◌≡◌, position, IfOk};
ghost use Rattle.grid.specs.Answers.{answer_of, and_then};
ghost use Rattle.grid.specs.Plane.{cell_of};
ghost use Rattle.book.specs.declared.Task.TheVariants.{Add};
ghost use Rattle.book.specs.Asking.{over, reserved, plane_record, ground_record, space_record, to_add, to_release};
ghost use Rattle.book.specs.Book.{live, flies, off, record_at, asked, becomes_by, carried, used_in, booked, used_by};

use grid::{Reason, Refusal, SpaceCell};
use reservations::Reservation;

// The most records that a book has.
const MOST: usize = 256;

// The lowest layer of edition 1, how many layers it has, and how many of them from the ground up.
const LOWEST: i32 = -1887436800;

const ALL_LAYERS: u32 = 3774873600;

const GROUND_UP: u32 = 1887436800;

// A flight, and the minutes that it asks for, from start to end, the end not included.
#[derive(Clone, Copy)]
pub struct Slot {
    pub flight: u32,
    pub start: u32,
    pub end: u32,
}

// What is to be done: add a record, or release a flight.
#[derive(Clone, Copy)]
pub enum Task {
    Add(Reservation),
    Release(u32),
}

// What a call asks of the book: the task, or the refusal that it has already.
pub type Ask = Result<Task, Refusal>;

// What was done: the place of the record that was added or released, and that record as it is now.
#[derive(Clone, Copy)]
pub struct Done {
    pub at: usize,
    pub used: Reservation,
}

// ---- what a call asks

// 14, else a record to add: of the slot and a space cell.
fn reserve(slot: Slot, space: SpaceCell) -> Ask
    ensures { result ≡ to_add (reserved slot.flight slot.start slot.end space) }
{
    if slot.start < slot.end {
        Ok(Task::Add(Reservation {
            live: 1,
            flight: slot.flight,
            space,
            start: slot.start,
            end: slot.end,
        }))
    } else {
        Err(Reason::Minutes.refuse())
    }
}

// By plane code, over so many layers from a floor on: 6, 7 or 20, 14, else a record to add.
fn ask_over(floor: i32, thickness: u32, code: &[u8], slot: Slot) -> Ask
    ensures { result ≡ to_add (and_then (cell_of code.now) (λ c. reserved slot.flight slot.start slot.end (over floor thickness c))) }
{
    let cell = plane::read(code)?;
    reserve(
        slot,
        SpaceCell {
            cell,
            floor,
            thickness,
        },
    )
}

// Adding by plane code, over all layers: 6, 7 or 20, 14, else a record to add.
#[tactic(auto, unfolding(crate::specs::Asking::plane_record))]
pub fn ask_plane(code: &[u8], slot: Slot) -> Ask
    ensures { result ≡ to_add (plane_record code.now slot.flight slot.start slot.end) }
{
    ask_over(LOWEST, ALL_LAYERS, code, slot)
}

// Adding by plane code, over the layers from the ground up: the same. C has a call for each of the two.
#[tactic(auto, unfolding(crate::specs::Asking::ground_record))]
pub fn ask_ground(code: &[u8], slot: Slot) -> Ask
    ensures { result ≡ to_add (ground_record code.now slot.flight slot.start slot.end) }
{
    ask_over(0, GROUND_UP, code, slot)
}

// Adding by space code of edition 1: 6, 7 or 20, 14, else a record to add.
#[tactic(auto, unfolding(crate::specs::Asking::space_record, grid::specs::Layers::edition_in))]
pub fn ask_space(code: &[u8], slot: Slot) -> Ask
    ensures { result ≡ to_add (space_record code.now slot.flight slot.start slot.end) }
{
    let space = space::read(1, code)?;
    reserve(slot, space)
}

// Releasing a flight.
pub fn ask_release(flight: u32) -> Ask
    ensures { result ≡ to_release flight }
{
    Ok(Task::Release(flight))
}

// ---- what is decided

// The live mark.
fn is_live(r: &Reservation) -> bool
    ensures { result ≡ live r.now }
{
    r.live != 0
}

// The record is live and has the flight number.
fn flies(flight: u32, r: &Reservation) -> bool
    ensures { result ≡ flies flight r.now }
{
    is_live(r) && flight == r.flight
}

// The first place of a live record with the flight number.
fn place_of(flight: u32, book: &[Reservation]) -> Option<usize>
    ensures { result ≡ position (flies flight) book.now }
{
    book.iter().position(|r| flies(flight, r))
}

// Where a record is added: 15, 16 with the place of the first record in conflict, 17, else the first place of a record not live.
// 15 goes before 16, so once a conflict is found the rest is looked through for the flight number.
// One walk, for speed: a `position` for each of the three is plainer, and takes up to 30 hundredths more instructions.
// The free place is a number, the count of records for none: an Option takes up to 72 hundredths more where few records are live.
fn place_for(sought: Reservation, book: &[Reservation]) -> Result<usize, Refusal>
    ensures { answer_of result ≡ asked (Add sought) book.now }
{
    let mut free = book.len();
    for (i, r) in book.iter().enumerate() {
        if !is_live(r) {
            free = free.min(i);
        } else if sought.flight == r.flight {
            return Err(Reason::AlreadyLive.refuse());
        } else if sought.conflicts(*r) {
            return match place_of(sought.flight, &book[i..]) {
                Some(_) => Err(Reason::AlreadyLive.refuse()),
                None => Err(grid::at_place(i, Reason::Conflict.refuse())),
            };
        }
    }
    if free < book.len() {
        Ok(free)
    } else {
        Err(Reason::AllLive.refuse())
    }
}

// The record with its live mark off.
fn off(r: Reservation) -> Reservation
    ensures { result ≡ off r }
{
    Reservation { live: 0, ..r }
}

// What is to be written, and where: the refusals of `place_for`, or 18.
fn decide(task: Task, book: &[Reservation]) -> Result<Done, Refusal>
    ensures answered { booked result ≡ asked task book.now }
    ensures used { IfOk result (λ d. d.used ≡ becomes_by task (record_at book.now d.at)) }
{
    match task {
        Task::Add(sought) => {
            let at = place_for(sought, book)?;
            Ok(Done { at, used: sought })
        }
        Task::Release(flight) => {
            let at = place_of(flight, book).ok_or(Reason::NotLive.refuse())?;
            Ok(Done {
                at,
                used: off(book[at]),
            })
        }
    }
}

// ---- the book

// Does what is asked: decides, and stores where a record is used. Refusals: 19, then those of what is asked.
pub fn run(book: &mut [Reservation], q: Ask) -> Result<Done, Refusal>
    ensures { (booked result ≡ (carried q book.old).0) × (used_by result ≡ used_in (carried q book.old)) × (book.new ≡ (carried q book.old).1) }
{
    if MOST < book.len() {
        return Err(Reason::BookTooLong.refuse());
    }
    let done = decide(q?, book)?;
    book[done.at] = done.used;
    Ok(done)
}
