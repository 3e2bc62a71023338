// Space codes of levels 1 to 10 (document 01), in two editions (document 02, Wish 1): from position and layer to code, and from code to space cell.
// A space code is woven of its plane code and its height characters: each character goes straight to its place in the line, and is read there. All
// places come from `grid`.
#![tactic(auto)]

ghost use Rattle.std.specs.Prelude.{◌≡◌, map, ◌-◌, ◌≤◌, ◌<◌, length, get_or};
ghost use Rattle.std.proofs.lemmas.List.Edits.{sets};
ghost use Rattle.grid.specs.Answers.{answer_of, wrong_at};
ghost use Rattle.grid.specs.Laying.{laid};
ghost use Rattle.grid.specs.Space.{space_code_of, space_cell_in, space_lengths};
ghost use Rattle.grid.specs.inner.Roads.{square_of};
ghost use Rattle.grid.specs.inner.Standing.{height_place};
ghost use Rattle.grid.specs.Characters.{digit_of};
ghost use Rattle.grid.specs.Layers.{product};
ghost use Rattle.layers.specs.Heights.{height_read};
ghost use Rattle.layers.specs.inner.Editions.{radices_of};
ghost use Rattle.layers.specs.inner.Steps.{layer_of, standing};
ghost use Rattle.plane.specs.inner.Lengths.{SpaceCode};
ghost use Rattle.space.specs.Space.{space_text};
ghost use Rattle.space.specs.inner.Asking.{SpaceFits};
ghost use Rattle.space.specs.inner.Parts.{space_level_of, earlier, of_plane, heights_in, heights_read, BadWithin, joined_answer};

use grid::{Cell, Place, Reason, Refusal, SpaceCell};
use layers::{Edition, Layer};

// The place n holds the level of the space codes that are n bytes long, 0 where there is none.
static LEVELS: [u8; 33] = [
    0, 0, 0, 0, 0, 0, 0, 1, 0, 0, 2, 0, 3, 0, 0, 4, 0, 0, 5, 0, 6, 0, 0, 7, 0, 0, 8, 0, 0, 9, 0, 0,
    10,
];

// The level of the space codes of a length, if it has any.
fn level_of(n: usize) -> Option<u32>
    ensures { result ≡ space_level_of n }
{
    match LEVELS.get(n) {
        Some(level) if 0 < *level => Some(*level as u32),
        _ => None,
    }
}

// The length of the space codes of a level: its plane characters and two more height characters than levels.
fn length_of(level: u32) -> usize
    requires { (1 ≤ level) × (level ≤ 10) }
    ensures { result ≡ get_or space_lengths (level - 1) 0 }
{
    plane::length_of(level) + 2 + level as usize
}

// ---- writing

// Writes the space code from the line's first byte on: the plane characters, then the height characters, each at its place and once.
fn put(edition: Edition, level: u32, p: Place, layer: Layer, line: &mut [u8])
    requires { SpaceFits edition level p layer.rise × (get_or space_lengths (level - 1) 0 ≤ length line.old) }
    ensures { line.new ≡ sets line.old 0 (space_code_of (radices_of edition) level (square_of p, layer_of (product (radices_of edition)) layer.above layer.rise)) }
{
    plane::put::<true>(level, p.east, p.north, p.x, line, p.y);
    layers::put(edition, level, layer, line);
}

// The space code of a position and a layer in an edition, written into the line from `at` on. Refusals 1, 13, 2, 3, 4 and 5, in that order; a refusal
// changes no byte.
pub fn write(
    edition: i64,
    level: i64,
    longitude: i64,
    latitude: i64,
    layer: i64,
    line: &mut [u8],
    at: usize,
) -> Result<usize, Refusal>
    ensures { (answer_of result, line.new) ≡ laid (space_text edition level longitude latitude layer) line.old at }
{
    let level = plane::ask_level(level)?;
    let edition = Edition::try_from(edition)?;
    let place = plane::ask_position(1, longitude, latitude)?;
    let layer = layers::ask_layer(edition, layer)?;
    if grid::room_from(line.len(), at) < length_of(level) {
        return Err(Reason::Room.refuse());
    }
    put(edition, level, place, layer, &mut line[at..]);
    Ok(length_of(level))
}

// ---- reading

// Of two bad characters, the one that stands first. `cmp::min_by_key` would take a closure, and the two in the other order.
fn earlier(r: Refusal, q: Refusal) -> Refusal
    ensures { result ≡ earlier r q }
{
    if r.place < q.place { r } else { q }
}

// A refusal of the plane characters, at its place in the space code.
fn of_plane(r: Refusal) -> Refusal
    ensures { result ≡ of_plane r }
{
    grid::at_place(grid::plane_place(r.place), r)
}

// The height character p is not allowed: 7 or 20, at its place in the space code.
fn of_height(p: u32, code: &[u8]) -> Refusal
    requires { (p < 12) × (height_place p < length code.now) }
    ensures { result ≡ wrong_at code.now (height_place p) }
{
    let place = grid::height_place(p as usize);
    grid::wrong_character(place, code[place])
}

// The height characters of a space code of a level, read where they stand: the floor and the thickness of their layers, or the place of the first
// that is not allowed, among them.
fn height_of(edition: Edition, level: u32, code: &[u8]) -> Result<(i32, u32), u32>
    requires { SpaceCode level (length code.now) }
    ensures reads { heights_read result ≡ heights_in (product (radices_of edition)) (height_read (radices_of edition) level (map digit_of (standing level code.now))) }
    ensures within { BadWithin (length code.now) result }
{
    let layers = layers::read(edition, level, code)?;
    Ok((layers::floor(edition, layers.lowest), layers.thickness))
}

// What the plane characters and the height characters of a space code lead to, together: the cell with its layers, or the first bad character of
// either.
fn joined(
    cell: Result<Cell, Refusal>,
    height: Result<(i32, u32), u32>,
    code: &[u8],
) -> Result<SpaceCell, Refusal>
    requires { BadWithin (length code.now) height }
    ensures { answer_of result ≡ joined_answer code.now (answer_of cell) (heights_read height) }
{
    match (cell, height) {
        (Ok(cell), Ok((floor, thickness))) => Ok(SpaceCell {
            cell,
            floor,
            thickness,
        }),
        (Ok(_), Err(p)) => Err(of_height(p, code)),
        (Err(r), Ok(_)) => Err(of_plane(r)),
        (Err(r), Err(p)) => Err(earlier(of_plane(r), of_height(p, code))),
    }
}

// The space cell of a space code of an edition by its number. Refusals, in order: 13, 6, 7 or 20 with the place of the first bad character in the
// whole space code.
pub fn read(edition: i64, code: &[u8]) -> Result<SpaceCell, Refusal>
    ensures { answer_of result ≡ space_cell_in edition code.now }
{
    let edition = Edition::try_from(edition)?;
    let Some(level) = level_of(code.len()) else {
        return Err(Reason::Length.refuse());
    };
    // The height first: its answer stays in registers while the plane code is read.
    let height = height_of(edition, level, code);
    let cell = plane::read_in_space(level, code);
    joined(cell, height, code)
}
