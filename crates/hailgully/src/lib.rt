// The C interface (include/hailgully.h): every public call of the library, exported under its C name.
// Each contract is an equation with the definitions of the call below it.
#![tactic(auto)]

ghost use Rattle.std.specs.Prelude.{◌≡◌};
ghost use Rattle.grid.specs.Answers.{answer_of};
ghost use Rattle.grid.specs.Laying.{laid};
ghost use Rattle.grid.specs.Plane.{cell_of};
ghost use Rattle.grid.specs.Space.{space_cell_in};
ghost use Rattle.plane.specs.Text.{plane_text};
ghost use Rattle.space.specs.Space.{space_text};
ghost use Rattle.reference.specs.Text.{reference_text, target_text};
ghost use Rattle.arcseconds.specs.Readings.{units_of};
ghost use Rattle.arcseconds.specs.Boxes.{BoxOf};
ghost use Rattle.book.specs.Asking.{plane_record, ground_record, space_record, to_add, to_release};
ghost use Rattle.book.specs.Book.{carried, booked};
ghost use Rattle.places.specs.Finding.{place_found, found_in};
ghost use Rattle.short_codes.specs.Text.{short_text};
ghost use Rattle.hailgully.specs.Results.{refusal_of, written_of, plane_cell_of, space_cell_for, units_for, booked_for, part_for, box_with, zero_cell, BoxIs, BoxFor};

use arcseconds::{ArcBox, Units};
use book::{Done, Slot};
use grid::{Cell, Refusal, SpaceCell};
use places::{NotFound, Spot};
use reservations::Reservation;

#[repr(C)]
#[derive(Clone, Copy, Default)]
pub struct HgRefusal {
    pub number: u32,
    pub ordinal: u32,
    pub place: u64,
}

#[repr(C)]
#[derive(Clone, Copy, Default)]
pub struct HgWritten {
    pub refusal: HgRefusal,
    pub length: u64,
}

#[repr(C)]
#[derive(Clone, Copy, Default)]
pub struct HgPlaneCell {
    pub refusal: HgRefusal,
    pub level: u32,
    pub west: i32,
    pub south: i32,
    pub width: u32,
    pub height: u32,
}

#[repr(C)]
#[derive(Clone, Copy, Default)]
pub struct HgSpaceCell {
    pub refusal: HgRefusal,
    pub level: u32,
    pub west: i32,
    pub south: i32,
    pub width: u32,
    pub height: u32,
    pub floor: i32,
    pub thickness: u32,
}

#[repr(C)]
#[derive(Clone, Copy, Default)]
pub struct HgUnits {
    pub refusal: HgRefusal,
    pub longitude: i32,
    pub latitude: i32,
}

#[repr(C)]
#[derive(Clone, Copy, Default)]
pub struct HgBox {
    pub refusal: HgRefusal,
    pub west: f64,
    pub south: f64,
    pub width: f64,
    pub height: f64,
}

#[repr(C)]
#[derive(Clone, Copy, Default)]
pub struct HgBooked {
    pub refusal: HgRefusal,
    pub at: u64,
}

#[repr(C)]
#[derive(Clone, Copy, Default)]
pub struct HgPart {
    pub refusal: HgRefusal,
    pub start: u64,
    pub name: u64,
    pub code: u64,
}

// ---- how each answer of the library fills its C struct: on success the refusal is all zeros, on a refusal everything else is

// A refusal's three numbers.
impl From<Refusal> for HgRefusal {
    ghost use Rattle.std.specs.Prelude.{◌≡◌};
    ghost use Rattle.hailgully.specs.Results.{refusal_of};

    ghost from_gives = { λ a c. c ≡ refusal_of a };

    fn from(r: Refusal) -> HgRefusal {
        HgRefusal {
            number: r.number,
            ordinal: r.ordinal,
            place: r.place as u64,
        }
    }
}

// The number of bytes that a writer wrote.
impl From<Result<usize, Refusal>> for HgWritten {
    ghost use Rattle.std.specs.Prelude.{◌≡◌};
    ghost use Rattle.grid.specs.Answers.{answer_of};
    ghost use Rattle.hailgully.specs.Results.{written_of};

    ghost from_gives = { λ a c. c ≡ written_of (answer_of a) };

    fn from(written: Result<usize, Refusal>) -> HgWritten {
        match written {
            Ok(n) => HgWritten {
                refusal: HgRefusal::default(),
                length: n as u64,
            },
            Err(r) => HgWritten {
                refusal: HgRefusal::from(r),
                length: 0,
            },
        }
    }
}

// A plane cell.
impl From<Result<Cell, Refusal>> for HgPlaneCell {
    ghost use Rattle.std.specs.Prelude.{◌≡◌};
    ghost use Rattle.grid.specs.Answers.{answer_of};
    ghost use Rattle.hailgully.specs.Results.{plane_cell_of};

    ghost from_gives = { λ a c. c ≡ plane_cell_of (answer_of a) };

    fn from(read: Result<Cell, Refusal>) -> HgPlaneCell {
        match read {
            Ok(c) => HgPlaneCell {
                refusal: HgRefusal::default(),
                level: c.level,
                west: c.west,
                south: c.south,
                width: c.width,
                height: c.height,
            },
            Err(r) => HgPlaneCell {
                refusal: HgRefusal::from(r),
                ..Default::default()
            },
        }
    }
}

// A space cell.
impl From<Result<SpaceCell, Refusal>> for HgSpaceCell {
    ghost use Rattle.std.specs.Prelude.{◌≡◌};
    ghost use Rattle.grid.specs.Answers.{answer_of};
    ghost use Rattle.hailgully.specs.Results.{space_cell_for};

    ghost from_gives = { λ a c. c ≡ space_cell_for (answer_of a) };

    fn from(read: Result<SpaceCell, Refusal>) -> HgSpaceCell {
        match read {
            Ok(s) => HgSpaceCell {
                refusal: HgRefusal::default(),
                level: s.cell.level,
                west: s.cell.west,
                south: s.cell.south,
                width: s.cell.width,
                height: s.cell.height,
                floor: s.floor,
                thickness: s.thickness,
            },
            Err(r) => HgSpaceCell {
                refusal: HgRefusal::from(r),
                ..Default::default()
            },
        }
    }
}

// A position in whole units.
impl From<Result<Units, Refusal>> for HgUnits {
    ghost use Rattle.std.specs.Prelude.{◌≡◌};
    ghost use Rattle.grid.specs.Answers.{answer_of};
    ghost use Rattle.hailgully.specs.Results.{units_for};

    ghost from_gives = { λ a c. c ≡ units_for (answer_of a) };

    fn from(read: Result<Units, Refusal>) -> HgUnits {
        match read {
            Ok(u) => HgUnits {
                refusal: HgRefusal::default(),
                longitude: u.longitude,
                latitude: u.latitude,
            },
            Err(r) => HgUnits {
                refusal: HgRefusal::from(r),
                ..Default::default()
            },
        }
    }
}

// The place of the record that was used or released.
impl From<Result<Done, Refusal>> for HgBooked {
    ghost use Rattle.std.specs.Prelude.{◌≡◌};
    ghost use Rattle.book.specs.Book.{booked};
    ghost use Rattle.hailgully.specs.Results.{booked_for};

    ghost from_gives = { λ a c. c ≡ booked_for (booked a) };

    fn from(booked: Result<Done, Refusal>) -> HgBooked {
        match booked {
            Ok(d) => HgBooked {
                refusal: HgRefusal::default(),
                at: d.at as u64,
            },
            Err(r) => HgBooked {
                refusal: HgRefusal::from(r),
                at: 0,
            },
        }
    }
}

// Where an entry of a place book stands.
impl From<Result<Spot, NotFound>> for HgPart {
    ghost use Rattle.std.specs.Prelude.{◌≡◌};
    ghost use Rattle.places.specs.Finding.{place_found};
    ghost use Rattle.hailgully.specs.Results.{part_for};

    ghost from_gives = { λ a c. c ≡ part_for (place_found a) };

    fn from(found: Result<Spot, NotFound>) -> HgPart {
        match found {
            Ok(s) => HgPart {
                refusal: HgRefusal::default(),
                start: s.start as u64,
                name: s.name as u64,
                code: s.code as u64,
            },
            Err(why) => HgPart {
                refusal: HgRefusal::from(Refusal::from(why)),
                ..Default::default()
            },
        }
    }
}

// A refusal and a box side by side.
fn boxed(q: HgRefusal, b: ArcBox) -> HgBox
    ensures { result ≡ box_with q b }
{
    HgBox {
        refusal: q,
        west: b.west,
        south: b.south,
        width: b.width,
        height: b.height,
    }
}

// Four times +0.0.
fn zeros() -> ArcBox
    ensures { BoxOf zero_cell result }
{
    arcseconds::box_of(Cell {
        level: 0,
        west: 0,
        south: 0,
        width: 0,
        height: 0,
    })
}

// A refusal, and four times +0.0.
fn box_refused(r: Refusal) -> HgBox
    ensures { BoxIs (refusal_of r) zero_cell result }
{
    boxed(HgRefusal::from(r), zeros())
}

// Writes the plane code of a level for a position. Refusals, in order: 1, 2, 3, 5.
#[unsafe(no_mangle)]
pub extern "C" fn hg_plane_write(
    level: i64,
    longitude: i64,
    latitude: i64,
    line: &mut [u8],
    at: usize,
) -> HgWritten
    ensures { (result ≡ written_of (laid (plane_text level longitude latitude) line.old at).0) × (line.new ≡ (laid (plane_text level longitude latitude) line.old at).1) }
{
    HgWritten::from(plane::write(level, longitude, latitude, line, at))
}

// Reads a plane code. Refusals, in order: 6, 7 or 20.
#[unsafe(no_mangle)]
pub extern "C" fn hg_plane_read(code: &[u8]) -> HgPlaneCell
    ensures { result ≡ plane_cell_of (cell_of code.now) }
{
    HgPlaneCell::from(plane::read(code))
}

// Writes the space code of an edition, 1 or 2, and a level for a position and a layer. Refusals, in order: 1, 13, 2, 3, 4, 5.
#[unsafe(no_mangle)]
pub extern "C" fn hg_space_write(
    edition: i64,
    level: i64,
    longitude: i64,
    latitude: i64,
    layer: i64,
    line: &mut [u8],
    at: usize,
) -> HgWritten
    ensures { (result ≡ written_of (laid (space_text edition level longitude latitude layer) line.old at).0) × (line.new ≡ (laid (space_text edition level longitude latitude layer) line.old at).1) }
{
    HgWritten::from(space::write(edition, level, longitude, latitude, layer, line, at))
}

// Reads a space code of an edition, 1 or 2. Refusals, in order: 13, 6, 7 or 20.
#[unsafe(no_mangle)]
pub extern "C" fn hg_space_read(edition: i64, code: &[u8]) -> HgSpaceCell
    ensures { result ≡ space_cell_for (space_cell_in edition code.now) }
{
    HgSpaceCell::from(space::read(edition, code))
}

// Writes the reference code from a base code to a target code. Refusals, in order: 6, 7 or 20 of the base; 6, 7 or 20 of the target; 8, 9, 10, 5.
#[unsafe(no_mangle)]
pub extern "C" fn hg_reference_write(
    base: &[u8],
    target: &[u8],
    line: &mut [u8],
    at: usize,
) -> HgWritten
    ensures { (result ≡ written_of (laid (reference_text base.now target.now) line.old at).0) × (line.new ≡ (laid (reference_text base.now target.now) line.old at).1) }
{
    HgWritten::from(reference::write(base, target, line, at))
}

// Reads a reference code and writes the plane code of its target. Refusals, in order: 6, 7 or 20, 8, 12, 5.
#[unsafe(no_mangle)]
pub extern "C" fn hg_reference_read(code: &[u8], line: &mut [u8], at: usize) -> HgWritten
    ensures { (result ≡ written_of (laid (target_text code.now) line.old at).0) × (line.new ≡ (laid (target_text code.now) line.old at).1) }
{
    HgWritten::from(reference::read(code, line, at))
}

// Arc-seconds to whole units. Refusals, in order: 11, 2, 3.
#[unsafe(no_mangle)]
pub extern "C" fn hg_arcseconds(longitude: f64, latitude: f64) -> HgUnits
    ensures { result ≡ units_for (units_of longitude latitude) }
{
    HgUnits::from(arcseconds::read(longitude, latitude))
}

// The box of a plane code in arc-seconds. Refusals, in order: 6, 7 or 20.
#[unsafe(no_mangle)]
pub extern "C" fn hg_plane_box(code: &[u8]) -> HgBox
    ensures { BoxFor (cell_of code.now) result }
{
    match arcseconds::plane_box(code) {
        Ok(b) => boxed(HgRefusal::default(), b),
        Err(r) => box_refused(r),
    }
}

// Adds a reservation of a plane code's cell, over all layers of edition 1, to a book: for a flight, and the minutes from start to end, the end not
// included. Refusals, in order: 19, 6, 7 or 20, 14, 15, 16 with the place of the first record in conflict, 17.
#[unsafe(no_mangle)]
pub extern "C" fn hg_book_add_plane(
    code: &[u8],
    flight: u32,
    start: u32,
    end: u32,
    book: &mut [Reservation],
) -> HgBooked
    ensures { (result ≡ booked_for (carried (to_add (plane_record code.now flight start end)) book.old).0) × (book.new ≡ (carried (to_add (plane_record code.now flight start end)) book.old).1) }
{
    let slot = Slot { flight, start, end };
    HgBooked::from(book::run(book, book::ask_plane(code, slot)))
}

// The same for a ground vehicle, over the layers from the ground up alone. Refusals, in order: 19, 6, 7 or 20, 14, 15, 16 with the place, 17.
#[unsafe(no_mangle)]
pub extern "C" fn hg_book_add_ground(
    code: &[u8],
    flight: u32,
    start: u32,
    end: u32,
    book: &mut [Reservation],
) -> HgBooked
    ensures { (result ≡ booked_for (carried (to_add (ground_record code.now flight start end)) book.old).0) × (book.new ≡ (carried (to_add (ground_record code.now flight start end)) book.old).1) }
{
    let slot = Slot { flight, start, end };
    HgBooked::from(book::run(book, book::ask_ground(code, slot)))
}

// The same of a space code of edition 1 and its space cell. Refusals, in order: 19, 6, 7 or 20, 14, 15, 16 with the place, 17.
#[unsafe(no_mangle)]
pub extern "C" fn hg_book_add_space(
    code: &[u8],
    flight: u32,
    start: u32,
    end: u32,
    book: &mut [Reservation],
) -> HgBooked
    ensures { (result ≡ booked_for (carried (to_add (space_record code.now flight start end)) book.old).0) × (book.new ≡ (carried (to_add (space_record code.now flight start end)) book.old).1) }
{
    let slot = Slot { flight, start, end };
    HgBooked::from(book::run(book, book::ask_space(code, slot)))
}

// Turns off the live mark of the first live record with the flight number. Refusals, in order: 19, 18.
#[unsafe(no_mangle)]
pub extern "C" fn hg_book_release(flight: u32, book: &mut [Reservation]) -> HgBooked
    ensures { (result ≡ booked_for (carried (to_release flight) book.old).0) × (book.new ≡ (carried (to_release flight) book.old).1) }
{
    HgBooked::from(book::run(book, book::ask_release(flight)))
}

// Looks a name up in a place book. Refusals, in order: 21, 22.
#[unsafe(no_mangle)]
pub extern "C" fn hg_place_find(name: &[u8], places: &[u8]) -> HgRefusal
    ensures { result ≡ (part_for (found_in name.now places.now)).refusal }
{
    HgPart::from(places::find(name, places)).refusal
}

// Where the entry of a name stands in a place book: its name and its code, side by side. Refusals, in order: 21, 22.
#[unsafe(no_mangle)]
pub extern "C" fn hg_place_part(name: &[u8], places: &[u8]) -> HgPart
    ensures { result ≡ part_for (found_in name.now places.now) }
{
    HgPart::from(places::find(name, places))
}

// Reads a short code with a place book and writes the plane code of its target. Refusals, in order: 21, 6, 7 or 20, 22, 8, 12, 5.
#[unsafe(no_mangle)]
pub extern "C" fn hg_short_read(code: &[u8], places: &[u8], line: &mut [u8], at: usize) -> HgWritten
    ensures { (result ≡ written_of (laid (short_text code.now places.now) line.old at).0) × (line.new ≡ (laid (short_text code.now places.now) line.old at).1) }
{
    HgWritten::from(short_codes::read(code, places, line, at))
}
