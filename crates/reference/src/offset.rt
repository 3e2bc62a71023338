// The two digits of a reference code.
ghost use Rattle.std.specs.Prelude.{◌≡◌, true};
ghost use Rattle.reference.specs.Offsets.{offset_digit};

// M cells east and N cells north, each as a digit: 0 to 7 stand for themselves, A to G (10 to 16) for 1 to 7 back.
#[derive(Clone, Copy)]
pub struct Offset {
    pub m: u32,
    pub n: u32,
    pub ghost digits: { (offset_digit m ≡ true) × (offset_digit n ≡ true) },
}
