// The readout on a sheet: counts over every temperature code.
use dom::readout::tenths;

// How far a code's readout is from code x 10 / 256, in 1/256 of a tenth.
fn distance(code: i16) -> u32 {
    (i32::from(code) * 10).abs_diff(i32::from(tenths(code)) * 256)
}

// One more where it is so. Counts have 32 bits, as what is compared has: with `count`, in 64, the compiled loop takes one code at a
// time.
fn one_more(n: u32, so: bool) -> u32 {
    n.wrapping_add(u32::from(so))
}

// How many of the 65,536 codes read out less than half a tenth away.
pub fn near() -> u32 {
    (i16::MIN..=i16::MAX).fold(0, |n, code| one_more(n, distance(code) < 128))
}

// How many of them just half a tenth away, to an even number of tenths.
pub fn halves() -> u32 {
    (i16::MIN..=i16::MAX).fold(0, |n, code| {
        one_more(n, (distance(code) == 128) & (tenths(code) % 2 == 0))
    })
}
