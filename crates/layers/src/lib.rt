// The height characters of space codes, both ways (document 01, "Layers and the space code").
// All is written over an edition's list of radices. Only the two lists tell the editions apart.
// The lists are statics: a constant that is indexed by a variable is built on the stack.
#![tactic(auto)]

ghost use Rattle.std.specs.Prelude.{◌≡◌, true, map, ℕ, ◌+◌, ◌≤◌, ◌<◌, negsuc, length, get_or, [], ◌∷◌, IfOk};
ghost use Rattle.grid.specs.Characters.{char_of, digit_of};
ghost use Rattle.grid.specs.inner.Standing.{length_in, height_place, spread_back};
ghost use Rattle.grid.specs.Layers.{edition_in, product, rise, sign, part, floor_of, all_child};
ghost use Rattle.layers.specs.Heights.{asked_of, layer_asked, height_read, layers_read};
ghost use Rattle.layers.specs.inner.Editions.{radices_of, edition_asked};
ghost use Rattle.layers.specs.inner.Steps.{thickness_at, layer_of, height_digits, first_height, HeightWritable, standing, Readable, KnownLayers, child_at};

use grid::{Reason, Refusal};

// The radices of edition 1, document 01's, and of edition 2, cut by bits (document 02, Wish 1); from the coarsest.
static OURS: [u32; 10] = [64, 8, 2, 15, 15, 2, 8, 8, 8, 8];

static THEIRS: [u32; 10] = [64, 8, 2, 16, 16, 2, 8, 8, 8, 8];

// An edition of the space code: document 01's, or the second (document 02, Wish 1).
#[derive(Clone, Copy, Debug, PartialEq, Eq)]
pub enum Edition {
    First,
    Second,
}

// A layer: its rise, and whether it lies above ground. The number stands first: with the flag first a space read took 492 instructions, not 446.
#[derive(Clone, Copy, Debug, PartialEq, Eq)]
pub struct Layer {
    pub rise: u32,
    pub above: bool,
}

// Layers on one side of the ground, by the lowest of them and how many they are. To the reader, those that the characters read so far lead to.
#[derive(Clone, Copy, Debug, PartialEq, Eq)]
pub struct Layers {
    pub thickness: u32,
    pub lowest: Layer,
}

// An edition by its number, or 13 where it is neither 1 nor 2.
impl TryFrom<i64> for Edition {
    type Error = Refusal;

    ghost try_from_gives = { λ edition r. edition_asked r ≡ edition_in edition };

    fn try_from(edition: i64) -> Result<Edition, Refusal> {
        match edition {
            1 => Ok(Edition::First),
            2 => Ok(Edition::Second),
            _ => Err(Reason::Edition.refuse()),
        }
    }
}

impl Edition {
    // Its radices, from the coarsest level's. Always compiled into the callers, as the next two and `Layers::next`: only so are loops unrolled.
    fn radices(self) -> &'static [u32; 10]
        ensures { result.now ≡ radices_of self }
    {
        match self {
            Edition::First => &OURS,
            Edition::Second => &THEIRS,
        }
    }

    // How many cells of level k + 1 stand in one of level k.
    fn radix(self, k: usize) -> u32
        requires { k < 10 }
        ensures { result ≡ get_or (radices_of self) k 0 }
    {
        match self {
            Edition::First => OURS[k],
            Edition::Second => THEIRS[k],
        }
    }

    // How many layers a cell of level k has: the product of the radices after it.
    fn thickness(self, k: usize) -> u32
        requires { k ≤ 10 }
        ensures { result ≡ thickness_at (radices_of self) k }
    {
        self.radices()[k..].iter().product()
    }
}

// ---- a layer's side and rise

// Below ground, the rise of the layer with an outward index: up from the lowest layer, where the index goes down from the ground. The index of a rise
// likewise.
fn below_ground(top: u32, n: u32) -> u32
    requires { n < top }
    ensures { result ≡ rise top (negsuc n) }
{
    top - (n + 1)
}

// A layer's rise and side, or refusal 4: as many layers lie above ground as the radices number, and as many below.
pub fn ask_layer(edition: Edition, layer: i64) -> Result<Layer, Refusal>
    ensures { layer_asked result ≡ asked_of (radices_of edition) layer }
{
    let top = edition.thickness(0);
    let n = grid::outward(layer);
    if top as u64 <= n {
        return Err(Reason::Layer.refuse());
    }
    if layer < 0 {
        Ok(Layer {
            rise: below_ground(top, n as u32),
            above: false,
        })
    } else {
        Ok(Layer {
            rise: n as u32,
            above: true,
        })
    }
}

// ---- writing

// 0 for layer 0 and up, 1 below.
fn sign_of(above: bool) -> u8
    ensures { result ≡ char_of (sign above) }
{
    if above { b'0' } else { b'1' }
}

// Level 1, n of whose cells lie below the layer: the sign, then two decimal digits.
fn put_first(above: bool, n: u32, line: &mut [u8])
    requires { (n < 100) × (length_in true 1 ≤ length line.old) }
    ensures { line.new ≡ spread_back height_place 0 (first_height above n) line.old }
{
    line[grid::height_place(0)] = sign_of(above);
    line[grid::height_place(1)] = (48 + n / 10) as u8;
    line[grid::height_place(2)] = (48 + n % 10) as u8;
}

// The height characters of a code of a level, each at its place in the space code; the bytes between them stay. The finest level comes first: how many
// cells of each level lie below the rise on its side of the ground comes from those of the next, and nothing else is kept.
pub fn put(edition: Edition, level: u32, layer: Layer, line: &mut [u8])
    requires { HeightWritable (radices_of edition) level layer.rise line.old }
    ensures { line.new ≡ spread_back height_place 0 (map char_of (height_digits (radices_of edition) level (layer_of (product (radices_of edition)) layer.above layer.rise))) line.old }
{
    let mut n = layer.rise;
    // Over all the levels, with a test: so the compiler unrolls the loop. Over the code's own alone a space write took 532 instructions, not 328.
    for k in (1..10).rev() {
        let r = edition.radix(k);
        if k < level as usize {
            line[grid::height_place(k + 2)] = grid::character(n % r);
        }
        n /= r;
    }
    put_first(layer.above, n, line);
}

// ---- reading

impl Layers {
    // After the sign and the two decimal digits of level 1; or the place of the first that is not allowed. The place is a u32, as the layers' numbers
    // are: as a usize it lay across two of them, and a space read took 510 instructions in place of 446.
    fn first(edition: Edition, s: u32, a: u32, b: u32) -> Result<Layers, u32>
        ensures read { layers_read result ≡ all_child (product (radices_of edition)) (get_or (radices_of edition) 0 0) (s ∷ a ∷ b ∷ []) }
        ensures known { IfOk result (KnownLayers (radices_of edition) 1) }
    {
        let r = edition.radix(0);
        if 2 <= s {
            return Err(0);
        }
        if 9 < a || r <= 10 * a {
            return Err(1);
        }
        if 9 < b || r <= 10 * a + b {
            return Err(2);
        }
        let t = edition.thickness(1);
        Ok(Layers {
            lowest: Layer {
                rise: (10 * a + b) * t,
                above: s == 0,
            },
            thickness: t,
        })
    }

    // After level 1 of the height characters of a space code.
    fn start(edition: Edition, code: &[u8]) -> Result<Layers, u32>
        requires { length_in true 1 ≤ length code.now }
        ensures read { layers_read result ≡ all_child (product (radices_of edition)) (get_or (radices_of edition) 0 0) (map digit_of (standing 1 code.now)) }
        ensures known { IfOk result (KnownLayers (radices_of edition) 1) }
    {
        let s = grid::digit_below(10, code[grid::height_place(0)]);
        let a = grid::digit_below(10, code[grid::height_place(1)]);
        let b = grid::digit_below(10, code[grid::height_place(2)]);
        Layers::first(edition, s, a, b)
    }

    // After the digit of level k + 1, from those that it divides; or its place, where it is not allowed.
    fn next(self, edition: Edition, k: usize, code: &[u8]) -> Result<Layers, u32>
        requires { (1 ≤ k) × (k < 10) × (height_place (k + 2) < length code.now) × KnownLayers (radices_of edition) k self }
        ensures read { layers_read result ≡ child_at (radices_of edition) k (get_or code.now (height_place (k + 2)) 0) self }
        ensures known { IfOk result (KnownLayers (radices_of edition) (k + 1)) }
    {
        let r = edition.radix(k);
        let v = grid::digit_below(r, code[grid::height_place(k + 2)]);
        if r <= v {
            return Err(k as u32 + 2);
        }
        let t = self.thickness / r;
        Ok(Layers {
            lowest: Layer {
                rise: self.lowest.rise + v * t,
                above: self.lowest.above,
            },
            thickness: t,
        })
    }
}

// The layers that the height characters of a space code of a level lead to; or the place of the first that is not allowed, among these alone.
pub fn read(edition: Edition, level: u32, code: &[u8]) -> Result<Layers, u32>
    requires { Readable level code.now }
    ensures { layers_read result ≡ height_read (radices_of edition) level (map digit_of (standing level code.now)) }
{
    let mut layers = Layers::start(edition, code)?;
    // Over all the levels, with a test, as in `put`: over the code's own alone a space read took 639 instructions in place of 440.
    for k in 1..10 {
        if k < level as usize {
            layers = layers.next(edition, k, code)?;
        }
    }
    Ok(layers)
}

// ---- the lower face

// The layer with that rise on its side: of layers that were read, the lowest.
pub fn floor(edition: Edition, layer: Layer) -> i32
    requires { layer.rise < product (radices_of edition) }
    ensures { (n : ℕ) → result ≡ floor_of (product (radices_of edition)) (part layer.above layer.rise n) }
{
    if layer.above {
        layer.rise as i32
    } else {
        -1 - below_ground(edition.thickness(0), layer.rise) as i32
    }
}
