// Plane codes a line each, and the program's answers to them (document 01, "Positions to check"): all of the program but its reading and writing.
// Bytes come in any pieces. The line so far is kept in a buffer, and the answers are laid into another as long as there is room.
#![tactic(auto)]

ghost use Rattle.std.specs.Prelude.{◌≡◌, ◌+◌, ◌^◌, ◌≤◌, ◌<◌, [], ◌∷◌, length, take};
ghost use Rattle.grid.specs.Answers.{answer_of};
ghost use Rattle.lines.specs.Text.{decimal_of, number_text, signed_text, cell_text, refusal_text, answer_text};
ghost use Rattle.lines.specs.Lines.{line_text, last_line, lines_text};
ghost use Rattle.lines.specs.Filling.{ROOM, work, start, on_byte, fill};
ghost use Rattle.lines.specs.inner.Buffers.{Laid, LongerBy, MarksWithin, Lent};

use grid::{Cell, Refusal};

// How far the work has come: the next byte of the input, how many bytes of the line are held, and where the next answer goes.
#[derive(Clone, Copy)]
pub struct Marks {
    pub next: usize,
    pub held: usize,
    pub at: usize,
}

// The text of an answer as it is laid into a lent output: where its next byte goes.
#[derive(Drop)]
struct Text<'a> {
    out: &'a mut [u8],
    at: usize,
}

// A number in decimal: the digits of its tenth, and then its last. Numbers are put down digit by digit: `write!` says which bytes it wrote only where
// it returns Ok, and nothing says when it does, while `fill` and `finish` promise every byte of every answer. (The kit's `itoa` would serve, and be one
// more crate to stand on.) The place travels in a register: as a method of `Text` this leaves it in memory at each digit, and an empty line
// takes 1.6 times as long.
fn put_decimal(n: u64, out: &mut [u8], at: usize) -> usize
    requires { at + 20 ≤ length out.old }
    ensures { Laid out.old at (decimal_of n) result out.new }
{
    if n < 10 {
        out[at] = b'0' + n as u8;
        return at + 1;
    }
    let end = put_decimal(n / 10, out, at);
    out[end] = b'0' + (n % 10) as u8;
    end + 1
}

impl Text<'_> {
    // A byte.
    fn put(&mut self, byte: u8)
        requires { self.old.at + 1 ≤ length self.old.out.now }
        ensures { LongerBy (byte ∷ []) self.old self.new }
    {
        self.out[self.at] = byte;
        self.at += 1;
    }

    // A word.
    fn put_all(&mut self, word: &[u8])
        requires { self.old.at + length word.now ≤ length self.old.out.now }
        ensures { LongerBy word.now self.old self.new }
    {
        let end = self.at + word.len();
        self.out[self.at..end].copy_from_slice(word);
        self.at = end;
    }

    // A number and the byte after it.
    fn put_number(&mut self, n: u64, end: u8)
        requires { self.old.at + 21 ≤ length self.old.out.now }
        ensures { LongerBy (number_text n end) self.old self.new }
    {
        self.at = put_decimal(n, self.out, self.at);
        self.put(end);
    }

    // A signed number and the byte after it.
    fn put_signed(&mut self, z: i32, end: u8)
        requires { self.old.at + 22 ≤ length self.old.out.now }
        ensures { LongerBy (signed_text z end) self.old self.new }
    {
        if z < 0 {
            self.put(b'-');
        }
        self.put_number(u64::from(z.unsigned_abs()), end);
    }

    // refused number place
    fn put_refusal(&mut self, refusal: Refusal)
        requires { self.old.at + ROOM ≤ length self.old.out.now }
        ensures { LongerBy (refusal_text refusal) self.old self.new }
    {
        self.put_all(b"refused ");
        self.put_number(u64::from(refusal.number), b' ');
        self.put_number(refusal.place as u64, b'\n');
    }

    // level west south width height
    fn put_cell(&mut self, cell: Cell)
        requires { self.old.at + ROOM ≤ length self.old.out.now }
        ensures { LongerBy (cell_text cell) self.old self.new }
    {
        self.put_number(u64::from(cell.level), b' ');
        self.put_signed(cell.west, b' ');
        self.put_signed(cell.south, b' ');
        self.put_number(u64::from(cell.width), b' ');
        self.put_number(u64::from(cell.height), b'\n');
    }

    // One answer with its line feed.
    fn put_answer(&mut self, r: Result<Cell, Refusal>)
        requires { self.old.at + ROOM ≤ length self.old.out.now }
        ensures { LongerBy (answer_text (answer_of r)) self.old self.new }
    {
        match r {
            Ok(cell) => self.put_cell(cell),
            Err(refusal) => self.put_refusal(refusal),
        }
    }
}

// The answer to one line.
fn answer(line: &[u8], out: &mut [u8], at: usize) -> usize
    requires { at + ROOM ≤ length out.old }
    ensures { Laid out.old at (line_text line.now) result out.new }
{
    let mut text = Text { out, at };
    text.put_answer(plane::read(line));
    text.at
}

// One byte more of the input.
fn take_byte(b: u8, m: Marks, line: &mut [u8], out: &mut [u8]) -> Marks
    requires marks_within { MarksWithin m line.old out.old }
    requires next_bound { (m.next < 2 ^ 63) × (m.at + ROOM ≤ length out.old) }
    ensures { work result line.new out.new ≡ on_byte b (work m line.old out.old) }
{
    let next = m.next + 1;
    if b == b'\n' {
        let at = answer(&line[..m.held], out, m.at);
        return Marks { next, held: 0, at };
    }
    if m.held < 21 {
        line[m.held] = b;
        return Marks {
            next,
            held: m.held + 1,
            ..m
        };
    }
    Marks { next, ..m }
}

// The bytes of a block, until it is used up or there may be no room for an answer: how many were used, how many bytes of the line are then
// held, and how many were written. `fill` and `finish` take a line and an output of any length from 21 and 128 bytes on, and how much of the line is
// held beside it: a struct that owns both would ask more of callers.
pub fn fill(block: &[u8], held: usize, line: &mut [u8], out: &mut [u8]) -> Marks
    requires { Lent held line.old out.old }
    ensures { work result line.new out.new ≡ fill (start held line.old out.old) block.now }
{
    let mut here = Marks {
        next: 0,
        held,
        at: 0,
    };
    for &b in block {
        if out.len() - here.at < 128 {
            return here;
        }
        here = take_byte(b, here, line, out);
    }
    here
}

// The answer to the last line, where the input ended without a line feed: the number of bytes written.
pub fn finish(line: &[u8], held: usize, out: &mut [u8]) -> usize
    requires { Lent held line.now out.old }
    ensures { Laid out.old 0 (lines_text (last_line (take held line.now))) result out.new }
{
    if held == 0 {
        return 0;
    }
    answer(&line[..held], out, 0)
}
