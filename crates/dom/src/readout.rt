// The temperature readout, in tenths of a degree.
ghost use Rattle.std.specs.Prelude.{◌≡◌};
ghost use Rattle.dom.specs.Readout.{tenths_of};

// A temperature code in tenths of a degree: code x 10 / 256 to the nearest tenth, a half to the even one.
pub fn tenths(code: i16) -> i16
    ensures { result ≡ tenths_of code }
{
    let product = code as i32 * 10;
    let quotient = product / 256;
    // Rest and quotient % 2 have the code's sign, and reach 129 where the rest is over a half, or is a half and the
    // quotient odd: then it is one more, away from zero.
    (quotient + (product % 256 + quotient % 2) / 129) as i16
}
