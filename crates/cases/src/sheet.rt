// A bench sheet's bytes, taken one at a time into steps: a word, and the numbers after it.
ghost use Rattle.std.specs.Prelude.{◌≤◌};

// The words of a sheet, whose head says what they do; and one word for all others.
#[derive(Clone, Copy, PartialEq, Eq)]
pub enum Word {
    On,
    Cut,
    // Document 01: struck.
    Torn,
    Pin,
    Frame,
    Tick,
    Lines,
    Temp,
    Bias,
    Transmit,
    Receive,
    Write,
    Read,
    Walk,
    Again,
    Image,
    Codes,
    Make,
    Fresh,
    Loaded,
    Mark,
    Back,
    Settle,
    Line,
    Count,
    Counted,
    Stored,
    Unsaved,
    Changed,
    Tenths,
    Near,
    Halves,
    Unknown,
}

impl Word {
    // How many numbers a word takes.
    fn numbers(self) -> u8 {
        match self {
            Word::Torn
            | Word::Frame
            | Word::Tick
            | Word::Temp
            | Word::Bias
            | Word::Transmit
            | Word::Receive
            | Word::Read
            | Word::Again
            | Word::Settle
            | Word::Counted
            | Word::Stored
            | Word::Tenths
            | Word::Make => 1,
            Word::Write | Word::Walk | Word::Image => 2,
            Word::Lines | Word::Codes => 3,
            _ => 0,
        }
    }
}

// The last eight letters of a word, the latest last; in front of fewer stand zeros.
#[derive(Clone, Copy)]
struct Letters {
    last: [u8; 8],
}

impl Letters {
    const NONE: Letters = Letters { last: [0; 8] };

    // These and one more.
    fn with(self, letter: u8) -> Letters {
        let [_, a, b, c, d, e, f, g] = self.last;
        Letters {
            last: [a, b, c, d, e, f, g, letter],
        }
    }
}

impl From<Letters> for Word {
    // The word that the letters spell: in a longer one only the last eight letters count.
    fn from(letters: Letters) -> Word {
        let start = letters
            .last
            .iter()
            .position(|letter| *letter != 0)
            .unwrap_or(8);
        match &letters.last[start..] {
            b"on" => Word::On,
            b"cut" => Word::Cut,
            b"torn" => Word::Torn,
            b"pin" => Word::Pin,
            b"frame" => Word::Frame,
            b"tick" => Word::Tick,
            b"lines" => Word::Lines,
            b"temp" => Word::Temp,
            b"bias" => Word::Bias,
            b"transmit" => Word::Transmit,
            b"receive" => Word::Receive,
            b"write" => Word::Write,
            b"read" => Word::Read,
            b"walk" => Word::Walk,
            b"again" => Word::Again,
            b"image" => Word::Image,
            b"codes" => Word::Codes,
            b"make" => Word::Make,
            b"fresh" => Word::Fresh,
            b"loaded" => Word::Loaded,
            b"mark" => Word::Mark,
            b"back" => Word::Back,
            b"settle" => Word::Settle,
            b"line" => Word::Line,
            b"count" => Word::Count,
            b"counted" => Word::Counted,
            b"stored" => Word::Stored,
            b"unsaved" => Word::Unsaved,
            b"changed" => Word::Changed,
            b"tenths" => Word::Tenths,
            b"near" => Word::Near,
            b"halves" => Word::Halves,
            _ => Word::Unknown,
        }
    }
}

// What the latest byte is part of.
#[derive(Clone, Copy, PartialEq, Eq)]
enum Part {
    Gap,
    Word,
    Number,
    Comment,
}

// A step as far as it has been read.
#[derive(Clone, Copy)]
pub struct Step {
    letters: Letters,
    pub word: Word,
    // A '?' follows the word: the answer is shown.
    pub asks: bool,
    // Its numbers, hexadecimal, and how many have ended.
    pub numbers: [u32; 3],
    ended: u8,
    part: Part,
    // The last number of the step has just ended.
    pub ready: bool,
}

// The number whose last two decimal digits these are.
fn two_digits(digits: u32) -> u32
    ensures { result ≤ 165 }
{
    digits / 16 % 16 * 10 + digits % 16
}

// The number whose last six decimal digits these are.
pub fn decimal(digits: u32) -> u32 {
    two_digits(digits / 0x1_0000) * 10_000 + two_digits(digits / 0x100) * 100 + two_digits(digits)
}

// A number and one more digit.
fn extended(number: u32, digit: u8) -> u32 {
    number % 0x1000_0000 * 16 + u32::from(digit % 16)
}

impl Step {
    pub const NONE: Step = Step {
        letters: Letters::NONE,
        word: Word::Unknown,
        asks: false,
        numbers: [0; 3],
        ended: 0,
        part: Part::Gap,
        ready: false,
    };

    // The same word once more, its numbers still to come.
    pub fn done(self) -> Step {
        Step {
            numbers: [0; 3],
            ended: 0,
            ready: false,
            ..self
        }
    }

    // A letter: the first of a word begins a step.
    fn letter(mut self, byte: u8) -> Step {
        if self.part != Part::Word {
            self = Step::NONE;
            self.part = Part::Word;
        }
        self.letters = self.letters.with(byte);
        self.word = Word::from(self.letters);
        self
    }

    // A digit of the number that has not ended, or of the third.
    fn digit(mut self, digit: u8) -> Step {
        let at = usize::from(self.ended.min(2));
        self.numbers[at] = extended(self.numbers[at], digit);
        self.part = Part::Number;
        self
    }

    // A word or a number ends.
    fn gap(mut self) -> Step {
        if self.part == Part::Number {
            self.ended = self.ended % 3 + 1;
        }
        self.ready = self.part != Part::Gap && self.ended == self.word.numbers();
        self.part = Part::Gap;
        self
    }

    // The step after a byte of the sheet: words are lower case, numbers upper case; '#' starts a comment.
    pub fn fed(mut self, byte: u8) -> Step {
        if self.part == Part::Comment {
            return if byte == b'\n' { Step::NONE } else { self };
        }
        match byte {
            b'a'..=b'z' => self.letter(byte),
            b'0'..=b'9' => self.digit(byte - b'0'),
            b'A'..=b'F' => self.digit(byte - b'A' + 10),
            b'?' => {
                self.asks = true;
                self
            }
            b'#' => {
                self.part = Part::Comment;
                self
            }
            _ => self.gap(),
        }
    }
}
