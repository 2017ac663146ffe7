// A latch: what six alarm registers are made of.
#![tactic(auto)]

ghost use Rattle.std.specs.Prelude.{◌≡◌};
ghost use Rattle.latch.specs.Latch.{fed, cleared, latched};

// The latest word, and every bit that a word had since the latch was last cleared.
#[repr(C)]
#[derive(Clone, Copy)]
pub struct Latch {
    pub live: u16,
    pub since: u16,
}

impl Latch {
    pub const NONE: Latch = Latch { live: 0, since: 0 };

    // A word comes in.
    pub fn fed(self, word: u16) -> Latch
        ensures { result ≡ fed word self }
    {
        Latch {
            live: word,
            since: self.since | word,
        }
    }

    // A read clears what was seen, and keeps the latest word.
    pub fn cleared(self) -> Latch
        ensures { result ≡ cleared self }
    {
        Latch {
            live: self.live,
            since: 0,
        }
    }

    pub fn value(self) -> u16
        ensures { result ≡ latched self }
    {
        self.live | self.since
    }
}
