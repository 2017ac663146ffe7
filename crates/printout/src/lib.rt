// A line of a play, as text: index, kind, refusal and alarm line.
#![tactic(auto)]

ghost use Rattle.std.specs.Prelude.{◌≡◌, [], ◌∷◌, ◌++◌, ◌≤◌, ◌<◌, length};
ghost use Rattle.io.specs.Digits.{hex_digit_ascii};
ghost use Rattle.printout.specs.Line.{space, decimal, kind_text, refusal_text, alarm_digit, line_text, Put, Written};

#[derive(Clone, Copy)]
pub struct Line {
    // How many records were before it.
    pub index: u64,
    // As it was read, known or not.
    pub kind: u8,
    // The refusal's number, 0 where there is none.
    pub refusal: u8,
    // The alarm line, LASI, after the record.
    pub alarm: bool,
}

// No line is longer: 20 digits of the index, 2 of the kind, 3 of the refusal, 1 of the alarm line, spaces, newline.
pub const LONGEST: usize = 30;

// Each `put` writes characters at the front, and gives how many they are.
fn put(characters: &[u8], out: &mut [u8]) -> usize
    requires { length characters.now ≤ length out.old }
    ensures { Put characters.now out.old 0 out.new result }
{
    out[..characters.len()].copy_from_slice(characters);
    characters.len()
}

// A number in decimal.
fn put_decimal(n: u64, out: &mut [u8]) -> usize
    requires { length (decimal n) ≤ length out.old }
    ensures { Put (decimal n) out.old 0 out.new result }
{
    let mut digits = [0; 20];
    let count = io::decimal(n, &mut digits);
    put(&digits[..count], out)
}

// A hexadecimal digit.
fn glyph(d: u8) -> u8
    requires { d < 16 }
    ensures { result ≡ hex_digit_ascii d }
{
    if d < 10 { b'0' + d } else { b'a' - 10 + d }
}

// A kind in two hexadecimal digits, between spaces.
fn put_kind(kind: u8, out: &mut [u8]) -> usize
    requires { 4 ≤ length out.old }
    ensures { Put (space ∷ kind_text kind ++ space ∷ []) out.old 0 out.new result }
{
    put(&[b' ', glyph(kind / 16), glyph(kind % 16), b' '], out)
}

// A refusal's number, or a dash where there is none.
fn put_refusal(number: u8, out: &mut [u8]) -> usize
    requires { length (refusal_text number) ≤ length out.old }
    ensures { Put (refusal_text number) out.old 0 out.new result }
{
    if number == 0 {
        put(b"-", out)
    } else {
        put_decimal(u64::from(number), out)
    }
}

fn alarm_digit(alarm: bool) -> u8
    ensures { result ≡ alarm_digit alarm }
{
    b'0' + u8::from(alarm)
}

impl Line {
    // Puts the line.
    #[tactic(auto, using(crate::proofs::Text::line_length))]
    fn put(self, out: &mut [u8]) -> usize
        requires { length (line_text self) ≤ length out.old }
        ensures { Put (line_text self) out.old 0 out.new result }
    {
        let mut end = put_decimal(self.index, out);
        end += put_kind(self.kind, &mut out[end..]);
        end += put_refusal(self.refusal, &mut out[end..]);
        end + put(&[b' ', alarm_digit(self.alarm), b'\n'], &mut out[end..])
    }

    // Writes the line from a position on, and gives the position after it. Where there is no room for the longest line nothing
    // is written, and the position is the same.
    #[tactic(auto, using(crate::proofs::Text::at_most))]
    pub fn write(self, out: &mut [u8], at: usize) -> usize
        ensures { Written (line_text self) out.old at out.new result }
    {
        if out.len() < LONGEST {
            return at;
        }
        if out.len() - LONGEST < at {
            return at;
        }
        at + self.put(&mut out[at..])
    }
}
