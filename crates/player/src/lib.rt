// Plays a bench recording on a module: one record at a time, or a block of them with their lines as text.
#![tactic(auto)]

ghost use Rattle.std.specs.Prelude.{◌≡◌, ◌/◌, length};
ghost use Rattle.creation.specs.Creation.{blank};
ghost use Rattle.printout.specs.Line.{longest};
ghost use Rattle.recording.specs.Recording.{flaw_number};
ghost use Rattle.player.specs.Player.{started, shows, played, ended, still, step_at, playing, Plays, Kept};

use calls::Call;
use creation::make;
use printout::{LONGEST, Line};
use reads::alarm_line;
use recording::{Flaw, item_at};
use refusal::refusal_of;
use xenpak::Module;

mod refusal;

#[derive(Clone, Copy)]
pub struct Player {
    // The module that is played on.
    pub unit: Module,
    // The next record's index.
    pub index: u64,
    // A record was refused with 9 or 10, and was the last.
    pub over: bool,
}

// A record's line, and the position after the record.
#[derive(Clone, Copy)]
pub struct Shown {
    pub line: Line,
    pub next: usize,
}

// What playing a record leaves; nothing is shown where no record is played.
#[derive(Clone, Copy)]
pub struct Step {
    pub player: Player,
    pub shown: Option<Shown>,
}

// A block played: how many of its bytes are used, and how many characters of lines are written.
#[derive(Clone, Copy)]
pub struct Played {
    pub player: Player,
    pub used: usize,
    pub written: usize,
}

impl Player {
    // A player of this module, before the first record.
    pub fn of(unit: Module) -> Player
        ensures { result ≡ started unit }
    {
        Player {
            unit,
            index: 0,
            over: false,
        }
    }

    // A player of the blank module: port 0, all bytes zero, off.
    #[tactic(auto, unfolding(creation::specs::Creation::make, store::specs::Bytes::zeros))]
    pub fn blank() -> Player
        ensures { result ≡ started blank }
    {
        let image = [0; 256];
        let thresholds = [0; 40];
        let outcome = make(0, &image, &thresholds);
        let unit = outcome.next;
        Player::of(unit)
    }

    // A record's line shows the module after it; the index counts on.
    fn shows(mut self, unit: Module, kind: u8, refusal: u8, next: usize) -> Step
        ensures { result ≡ shows self unit kind refusal next }
    {
        let line = Line {
            index: self.index,
            kind,
            refusal,
            alarm: alarm_line(unit),
        };
        self.unit = unit;
        self.index = self.index.wrapping_add(1);
        Step {
            player: self,
            shown: Some(Shown { line, next }),
        }
    }

    // A call is made, refused or not.
    fn played(self, kind: u8, call: Call, next: usize) -> Step
        ensures { result ≡ played self kind call next }
    {
        let outcome = call.on(self.unit);
        let unit = outcome.next;
        let answer = outcome.answer;
        self.shows(unit, kind, refusal_of(answer), next)
    }

    // A record that the recording refuses: the module stays, and nothing is played after it, so all bytes are used.
    fn ended(mut self, kind: u8, flaw: Flaw, size: usize) -> Step
        ensures { result ≡ ended self kind (flaw_number flaw) size }
    {
        self.over = true;
        self.shows(self.unit, kind, u8::from(flaw), size)
    }

    fn still(self) -> Step
        ensures { result ≡ still self }
    {
        Step {
            player: self,
            shown: None,
        }
    }

    // Plays the record at a position. `last` says that no bytes follow these: then a body cut short is refused.
    #[tactic(auto, unfolding(crate::specs::Player::step_at))]
    pub fn step(self, bytes: &[u8], at: usize, last: bool) -> Step
        ensures { result ≡ step_at last self bytes.now at }
    {
        if self.over {
            return self.still();
        }
        let Some(item) = item_at(bytes, at) else {
            return self.still();
        };
        match item.body {
            Ok(body) => self.played(item.kind, body.call, body.next),
            Err(Flaw::CutShort) if !last => self.still(),
            Err(flaw) => self.ended(item.kind, flaw, bytes.len()),
        }
    }

    // Plays whole records of a block, as many as there is surely room for, and writes their lines.
    pub fn play(mut self, block: &[u8], last: bool, out: &mut [u8]) -> Played
        ensures { Plays (playing (length out.old / longest) last self block.now 0) out.old out.new result }
    {
        let mut at = 0;
        let mut written = 0;
        for _ in 0..out.len() / LONGEST {
            let step = self.step(block, at, last);
            self = step.player;
            let Some(shown) = step.shown else {
                break;
            };
            written = shown.line.write(out, written);
            at = shown.next;
        }
        Played {
            player: self,
            used: at,
            written,
        }
    }
}

// Moves what is left of a block, from a position to the block's end, to the front of its buffer; how many bytes that is.
pub fn keep(buffer: &mut [u8], from: usize, end: usize) -> usize
    ensures { Kept from end buffer.old buffer.new result }
{
    let to = end.min(buffer.len());
    let from = from.min(to);
    buffer.copy_within(from..to, 0);
    to - from
}
