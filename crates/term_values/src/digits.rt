//! The sign and the digits of a number, borrowed from its text.
ghost use Rattle.std.specs.Prelude.{◌≡◌, ◌++◌, true};
ghost use Rattle.std.specs.Char.{is_ascii_digit};
ghost use Rattle.std.specs.List.{list_all};

/// The sign of a number, and its digits before and after the decimal point.
#[derive(Clone, Copy)]
pub struct Digits<'a> {
    pub negative: bool,
    pub whole: &'a [u8],
    pub fraction: &'a [u8],
    pub ghost digits: { list_all is_ascii_digit (whole.now ++ fraction.now) ≡ true },
}
