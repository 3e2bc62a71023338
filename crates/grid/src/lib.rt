// The rules of the BeiDou grid (document 01): units, the two tables, characters and digits, and what a reader hands back.
// What the rules mean stands in specs/, and the theorems over them in proofs/Theorems.antt.
#![tactic(auto)]

ghost use Rattle.std.specs.Prelude.{◌≡◌, ◌+◌, ◌-◌, ◌<◌, ◌≤◌, length, slice_index};
ghost use Rattle.std.proofs.lemmas.List.Edits.{sets};
ghost use Rattle.grid.specs.Units.{side, index, unit};
ghost use Rattle.grid.specs.Plane.{letter, least};
ghost use Rattle.grid.specs.Splits.{split_at, polar_cell_at};
ghost use Rattle.grid.specs.Characters.{char_of, digit_of};
ghost use Rattle.grid.specs.Answers.{number_of, refusal, wrong_character, about};
ghost use Rattle.grid.specs.inner.Roads.{DigitBelow, at_place, single_of, level_chars, LevelFits};
ghost use Rattle.grid.specs.inner.Standing.{zone_place, level_place, plane_place, stands_at, height_place};

// One minute and one degree, in units of 1/2048 arc-second.
pub const MINUTE: u32 = 60 * 2048;

pub const DEGREE: u32 = 60 * MINUTE;

// 360°, 180° and 90°.
pub const TURN: u32 = 360 * DEGREE;

pub const HALF: u32 = 180 * DEGREE;

pub const QUARTER: u32 = 90 * DEGREE;

// 60°, the width of a belt cell.
pub const SIXTH: u32 = 60 * DEGREE;

// 88°, where the ordinary cells end, and 89°, where the belt ends and the disc begins.
pub const POLAR: u32 = 88 * DEGREE;

pub const DISC: u32 = 89 * DEGREE;

// One level of the grid: a line of document 01's table, and what a polar cell and a cap divide into.
#[derive(Clone, Copy)]
pub struct Split {
    pub columns: u32,
    pub rows: u32,
    pub width: u32,
    pub height: u32,
    pub characters: usize,
    pub length: usize,
    pub inward: u32,
    pub ring: u32,
}

// Where a polar cell of level 2 begins: its west edge in eastward units, and the latitude index of its edge farther from the pole.
#[derive(Clone, Copy)]
pub struct PolarCell {
    pub west: u32,
    pub low: u32,
}

// A plane cell, as a reader hands it back. In C it has this layout, so that a record can hold one.
#[repr(C)]
#[derive(Clone, Copy)]
pub struct Cell {
    pub level: u32,
    pub west: i32,
    pub south: i32,
    pub width: u32,
    pub height: u32,
}

// A space cell adds layer floor and thickness.
#[repr(C)]
#[derive(Clone, Copy)]
pub struct SpaceCell {
    pub cell: Cell,
    pub floor: i32,
    pub thickness: u32,
}

// Why a call is refused: the documents' table, in the order of its numbers, from 1.
#[derive(Clone, Copy, Debug, PartialEq, Eq)]
pub enum Reason {
    Level = 1,
    Longitude = 2,
    Latitude = 3,
    Layer = 4,
    Room = 5,
    Length = 6,
    Garbled = 7,
    ReferenceCell = 8,
    LevelsDiffer = 9,
    Offset = 10,
    NotANumber = 11,
    PolarTarget = 12,
    Edition = 13,
    Minutes = 14,
    AlreadyLive = 15,
    Conflict = 16,
    AllLive = 17,
    NotLive = 18,
    BookTooLong = 19,
    Misplaced = 20,
    BadlyFormed = 21,
    NotInBook = 22,
}

// A refusal: its number in the documents, the place that it speaks of (a bad character's, or a record's), and which code it is about.
// By its number, as `refusal` and every theorem of a refusal speak of it, and as C gets it; code that refuses names a `Reason`.
#[derive(Clone, Copy)]
pub struct Refusal {
    pub number: u32,
    pub place: usize,
    pub ordinal: u32,
}

// ---- refusals: all of them are made here, and readers and writers pass them on

// A refusal by its number: of the only or the first code or position, and with no place.
pub fn refuse(number: u32) -> Refusal
    ensures { result ≡ refusal number 0 }
{
    Refusal {
        number,
        place: 0,
        ordinal: 1,
    }
}

impl Reason {
    // The refusal for a reason, by its number in the documents' table.
    pub fn refuse(self) -> Refusal
        ensures { result ≡ refusal (number_of self) 0 }
    {
        refuse(self as u32)
    }
}

// The character b is not allowed at a place: 20 where it is a code character, and only misplaced there; 7 where it is none, and garbled.
pub fn wrong_character(place: usize, b: u8) -> Refusal
    ensures { result ≡ wrong_character place b }
{
    if digit(b) < 32 {
        at_place(place, Reason::Misplaced.refuse())
    } else {
        at_place(place, Reason::Garbled.refuse())
    }
}

// The same of the plane character p of a plane code, or of a space code: at its place among the plane characters.
pub fn wrong_in(spaced: bool, code: &[u8], p: usize) -> Refusal
    requires { stands_at spaced p < length code.now }
    ensures { result ≡ wrong_character p (slice_index code.now (stands_at spaced p)) }
{
    wrong_character(p, code[stands_at(spaced, p)])
}

// The same refusal, about the code or position k of the call.
pub fn about(k: u32, r: Refusal) -> Refusal
    ensures { result ≡ about k r }
{
    Refusal { ordinal: k, ..r }
}

// The same refusal, at the place that its character has in a longer code.
pub fn at_place(place: usize, r: Refusal) -> Refusal
    ensures { result ≡ at_place place r }
{
    Refusal { place, ..r }
}

// How many bytes a line of a length has from a place on: none where the place is past the end.
pub fn room_from(length: usize, at: usize) -> usize
    ensures { result ≡ length - at }
{
    length.saturating_sub(at)
}

// A position on the globe, by the side and the outward index of its longitude and of its latitude.
#[derive(Clone, Copy)]
pub struct Place {
    pub east: bool,
    pub north: bool,
    pub x: u32,
    pub y: u32,
}

static SPLITS: [Split; 10] = [
    Split {
        columns: 60,
        rows: 22,
        width: 44236800,
        height: 29491200,
        characters: 4,
        length: 4,
        inward: 1,
        ring: 1,
    },
    Split {
        columns: 12,
        rows: 8,
        width: 3686400,
        height: 3686400,
        characters: 2,
        length: 6,
        inward: 4,
        ring: 3,
    },
    Split {
        columns: 2,
        rows: 3,
        width: 1843200,
        height: 1228800,
        characters: 1,
        length: 7,
        inward: 2,
        ring: 3,
    },
    Split {
        columns: 15,
        rows: 10,
        width: 122880,
        height: 122880,
        characters: 2,
        length: 9,
        inward: 15,
        ring: 15,
    },
    Split {
        columns: 15,
        rows: 15,
        width: 8192,
        height: 8192,
        characters: 2,
        length: 11,
        inward: 15,
        ring: 15,
    },
    Split {
        columns: 2,
        rows: 2,
        width: 4096,
        height: 4096,
        characters: 1,
        length: 12,
        inward: 2,
        ring: 2,
    },
    Split {
        columns: 8,
        rows: 8,
        width: 512,
        height: 512,
        characters: 2,
        length: 14,
        inward: 8,
        ring: 8,
    },
    Split {
        columns: 8,
        rows: 8,
        width: 64,
        height: 64,
        characters: 2,
        length: 16,
        inward: 8,
        ring: 8,
    },
    Split {
        columns: 8,
        rows: 8,
        width: 8,
        height: 8,
        characters: 2,
        length: 18,
        inward: 8,
        ring: 8,
    },
    Split {
        columns: 8,
        rows: 8,
        width: 1,
        height: 1,
        characters: 2,
        length: 20,
        inward: 8,
        ring: 8,
    },
];

const POLAR_CELLS: [PolarCell; 16] = [
    PolarCell {
        west: 0 * DEGREE,
        low: 89 * DEGREE + 30 * MINUTE,
    },
    PolarCell {
        west: 0 * DEGREE,
        low: 89 * DEGREE,
    },
    PolarCell {
        west: 120 * DEGREE,
        low: 89 * DEGREE,
    },
    PolarCell {
        west: 240 * DEGREE,
        low: 89 * DEGREE,
    },
    PolarCell {
        west: 0 * DEGREE,
        low: 88 * DEGREE,
    },
    PolarCell {
        west: 60 * DEGREE,
        low: 88 * DEGREE,
    },
    PolarCell {
        west: 0 * DEGREE,
        low: 88 * DEGREE + 30 * MINUTE,
    },
    PolarCell {
        west: 60 * DEGREE,
        low: 88 * DEGREE + 30 * MINUTE,
    },
    PolarCell {
        west: 120 * DEGREE,
        low: 88 * DEGREE,
    },
    PolarCell {
        west: 180 * DEGREE,
        low: 88 * DEGREE,
    },
    PolarCell {
        west: 120 * DEGREE,
        low: 88 * DEGREE + 30 * MINUTE,
    },
    PolarCell {
        west: 180 * DEGREE,
        low: 88 * DEGREE + 30 * MINUTE,
    },
    PolarCell {
        west: 300 * DEGREE,
        low: 88 * DEGREE,
    },
    PolarCell {
        west: 240 * DEGREE,
        low: 88 * DEGREE,
    },
    PolarCell {
        west: 300 * DEGREE,
        low: 88 * DEGREE + 30 * MINUTE,
    },
    PolarCell {
        west: 240 * DEGREE,
        low: 88 * DEGREE + 30 * MINUTE,
    },
];

// Level k + 1 of the table. Called with a literal it folds away.
pub fn split_of(k: usize) -> Split
    requires { k < 10 }
    ensures { result ≡ split_at k }
{
    SPLITS[k]
}

// The length of the codes of a level. By a match: as one line of the table it costs a plane write 6 instructions and 8 bytes of stack.
// A level goes as a number through the code, as through every definition; its bounds stand once in each record of specs/ that asks for them.
pub fn length_of(level: u32) -> usize
    requires { (1 ≤ level) × (level ≤ 10) }
    ensures { result ≡ (split_at (level - 1)).length }
{
    match level {
        1 => split_of(0).length,
        2 => split_of(1).length,
        3 => split_of(2).length,
        4 => split_of(3).length,
        5 => split_of(4).length,
        6 => split_of(5).length,
        7 => split_of(6).length,
        8 => split_of(7).length,
        9 => split_of(8).length,
        _ => split_of(9).length,
    }
}

// Line k of the table of polar cells. Called with a literal it folds away.
fn polar_line(k: usize) -> PolarCell
    requires { k < 16 }
    ensures { result ≡ polar_cell_at k }
{
    POLAR_CELLS[k]
}

// The polar cell with the digits a and b, k being 4a + b. By a match: as one line of the table it costs a polar plane write 41 instructions
// and 88 bytes of stack.
pub fn polar_cell(k: usize) -> PolarCell
    requires { k < 16 }
    ensures { result ≡ polar_cell_at k }
{
    match k {
        0 => polar_line(0),
        1 => polar_line(1),
        2 => polar_line(2),
        3 => polar_line(3),
        4 => polar_line(4),
        5 => polar_line(5),
        6 => polar_line(6),
        7 => polar_line(7),
        8 => polar_line(8),
        9 => polar_line(9),
        10 => polar_line(10),
        11 => polar_line(11),
        12 => polar_line(12),
        13 => polar_line(13),
        14 => polar_line(14),
        _ => polar_line(15),
    }
}

// A digit's character.
pub fn character(v: u32) -> u8
    requires { v < 32 }
    ensures { result ≡ char_of v }
{
    if v < 10 {
        (48 + v) as u8
    } else {
        (55 + v) as u8
    }
}

// A character's digit, 32 where it is no code character: a number, as `digit_of` has it, since readers test it against a bound.
// The two tests compile to conditional moves: which of them a character passes cannot be foretold.
pub fn digit(b: u8) -> u32
    ensures { result ≡ digit_of b }
{
    let decimal = std::num::wrapping_sub_u32(b as u32, 48);
    if decimal < 10 {
        return decimal;
    }
    let letter = std::num::wrapping_sub_u32(b as u32, 65);
    if letter < 22 { letter + 10 } else { 32 }
}

// A character's digit, as far as a test against a bound of at most the limit can tell: no code character gives less than 32. With no conditional move for
// digits alone, and one less than `digit` for letters: 65 is taken off modulo 256, so that what stands before A comes out above V. Where the limit is known
// when the caller is compiled, its test is gone.
pub fn digit_below(limit: u32, b: u8) -> u32
    requires { limit ≤ 32 }
    ensures { DigitBelow limit b result }
{
    let decimal = std::num::wrapping_sub_u32(b as u32, 48);
    if limit <= 10 {
        return decimal;
    }
    if decimal < 10 {
        return decimal;
    }
    std::num::wrapping_sub_u8(b, 65) as u32 + 10
}

// N or S, a code's first character.
pub fn hemisphere(north: bool) -> u8
    ensures { result ≡ char_of (letter north) }
{
    if north { b'N' } else { b'S' }
}

// ---- a level's characters

// What a level adds to a code: how many columns the cell of the level before divides into, and the column and the row.
#[derive(Clone, Copy)]
pub struct Digits {
    pub columns: u32,
    pub column: u32,
    pub row: u32,
}

// The one digit of a column and a row: 2·row + column, or row + column in a cap of three columns.
fn single(d: Digits) -> u32
    requires { (d.column < 32) × (d.row < 32) }
    ensures { result ≡ single_of d }
{
    if d.columns == 2 {
        2 * d.row + d.column
    } else {
        d.row + d.column
    }
}

// The characters of level k + 1, whose split is s, from a place of the line on: none where a code of the level ends before them.
pub fn put_digits(level: u32, k: u32, s: Split, d: Digits, line: &mut [u8], at: usize)
    requires { LevelFits level k s d line.old at }
    ensures { line.new ≡ sets line.old at (level_chars level k s d) }
{
    if level <= k {
        return;
    }
    if s.characters == 2 {
        line[at] = character(d.column);
        line[at + 1] = character(d.row);
    } else {
        line[at] = character(single(d));
    }
}

// ---- where characters stand

// Where the characters after N or S begin: in a space code behind the sign.
pub fn zone_place(spaced: bool) -> usize
    ensures { result ≡ zone_place spaced }
{
    if spaced { 2 } else { 1 }
}

// Where the characters of level k + 1, a later one whose split is s, begin: in a plane code behind those of the levels before it; in a space code the
// height characters of those levels stand between, two more than there are levels.
pub fn level_place(spaced: bool, k: u32, s: Split) -> usize
    requires { (k < 10) × (s.characters ≤ s.length) × (s.length ≤ 20) }
    ensures { result ≡ level_place spaced k s }
{
    let place = s.length - s.characters;
    if spaced {
        place + 2 + k as usize
    } else {
        place
    }
}

// Where the height character p stands in a space code: the sign second, every other one behind the plane characters of its level.
pub fn height_place(p: usize) -> usize
    requires { p < 12 }
    ensures { result ≡ height_place p }
{
    if p == 0 {
        return 1;
    }
    if p == 1 {
        return length_of(1) + 1;
    }
    length_of(p as u32 - 1) + p
}

// Where the plane character p stands in a space code: behind the sign, and behind the height characters of the levels before its own; 0 for one that
// there is not.
pub fn plane_place(p: usize) -> usize
    ensures { result ≡ plane_place p }
{
    if p < length_of(1) {
        return if p == 0 { 0 } else { p + 1 };
    }
    for k in 1..10 {
        if p < length_of(k + 1) {
            return p + 2 + k as usize;
        }
    }
    0
}

// Where the plane character p stands, in a plane code or in a space code.
pub fn stands_at(spaced: bool, p: usize) -> usize
    ensures { result ≡ stands_at spaced p }
{
    if spaced { plane_place(p) } else { p }
}

// The digits of level k + 1, a later one, each at its place in a plane code, or in a space code where `SPACED` is true: nothing where a code of the
// level ends before them.
pub fn put_level<const SPACED: bool>(level: u32, k: u32, d: Digits, line: &mut [u8])
    requires { (k < 10) × LevelFits level k (split_at k) d line.old (level_place SPACED k (split_at k)) }
    ensures { line.new ≡ sets line.old (level_place SPACED k (split_at k)) (level_chars level k (split_at k) d) }
{
    let s = split_of(k as usize);
    put_digits(level, k, s, d, line, level_place(SPACED, k, s));
}

// ---- signed numbers, by their side of 0 and their outward index

// The outward index of a number: itself where it is 0 or more, -1 less it below.
pub fn outward(u: i64) -> u64
    ensures { result ≡ index u }
{
    if u < 0 { (-1 - u) as u64 } else { u as u64 }
}

// Which side of 0 it lies on.
pub fn upper(u: i64) -> bool
    ensures { result ≡ side u }
{
    0 <= u
}

// The number on a side of 0 with an outward index.
pub fn number_on(up: bool, n: u32) -> i32
    requires { n < 2147483648 }
    ensures { result ≡ unit up n }
{
    if up { n as i32 } else { -1 - n as i32 }
}

// The least of the n numbers on a side of 0 whose outward indices are from u on.
pub fn least_on(up: bool, u: u32, n: u32) -> i32
    requires { (0 < n) × (u + n ≤ 2147483648) }
    ensures { result ≡ least up u n }
{
    if up {
        u as i32
    } else {
        -1 - (u + n - 1) as i32
    }
}
