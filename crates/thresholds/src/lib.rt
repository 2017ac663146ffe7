// The 40 threshold bytes as codes, and their order.
#![tactic(auto)]

ghost use Rattle.std.specs.Prelude.{◌≡◌, ◌+◌, ◌≤◌, [], ◌∷◌};
ghost use Rattle.thresholds.specs.Thresholds.{code_at, thresholds_of, row_ordered, ordered};

use dom::signed_code;

// The code at an offset, high byte first.
fn code_at(bytes: &[u8; 40], at: usize) -> u16
    requires { at ≤ 38 }
    ensures { result ≡ code_at bytes.now at }
{
    u16::from_be_bytes([bytes[at], bytes[at + 1]])
}

// The four codes from an offset on.
fn codes_at(bytes: &[u8; 40], at: usize) -> [u16; 4]
    requires { at ≤ 32 }
    ensures { result ≡ code_at bytes.now at ∷ code_at bytes.now (at + 2) ∷ code_at bytes.now (at + 4) ∷ code_at bytes.now (at + 6) ∷ [] }
{
    [
        code_at(bytes, at),
        code_at(bytes, at + 2),
        code_at(bytes, at + 4),
        code_at(bytes, at + 6),
    ]
}

// The four thresholds of each quantity, high and low alarm, high and low warning; bytes 8 to 15 are no quantity's.
pub fn thresholds_of(bytes: &[u8; 40]) -> [[i32; 4]; 4]
    ensures { result ≡ thresholds_of bytes.now }
{
    [
        codes_at(bytes, 0).map(|code| i32::from(signed_code(code))),
        codes_at(bytes, 16).map(i32::from),
        codes_at(bytes, 24).map(i32::from),
        codes_at(bytes, 32).map(i32::from),
    ]
}

// Low alarm ≤ low warning ≤ high warning ≤ high alarm.
fn row_ordered(row: [i32; 4]) -> bool
    ensures { result ≡ row_ordered row }
{
    let [high_alarm, low_alarm, high_warning, low_warning] = row;
    (low_alarm <= low_warning) & (low_warning <= high_warning) & (high_warning <= high_alarm)
}

// Every quantity's thresholds are in order. Any others are refused with 5.
pub fn ordered(t: [[i32; 4]; 4]) -> bool
    ensures { result ≡ ordered t }
{
    row_ordered(t[0]) & row_ordered(t[1]) & row_ordered(t[2]) & row_ordered(t[3])
}
