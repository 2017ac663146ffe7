// How many customer bytes of the store differ from the copy, and from zero, kept when a byte of store or copy changes.
#![tactic(auto)]

ghost use Rattle.std.specs.Prelude.{◌≡◌, ◌≤◌, count_by, length};
ghost use Rattle.store.specs.Bytes.{zeros};
ghost use Rattle.differing.specs.Differing.{differ, counts_of, recount, copied, stored, loaded, differing_started, differing_ticked, differing_cut, differing_after};

use action::Action;
use nvr::image::Region;
use store::{Cut, byte_at};
use work::Work;

// The first customer byte, and how many there are.
const CUSTOMER: usize = 119;

const BYTES: usize = 48;

#[repr(C)]
#[derive(Clone, Copy)]
pub struct Differing {
    // From the copy: these are unsaved.
    pub copy: u8,
    // From zero: these are unsaved once a start has zeroed the copy.
    pub zero: u8,
}

// How many bytes are not zero.
fn not_zero(bytes: &[u8]) -> usize
    ensures { (result ≡ count_by (λ b. differ b 0) bytes.now) × (result ≤ length bytes.now) }
{
    bytes.iter().filter(|byte| **byte != 0).count()
}

// A count when one customer byte changes: one less if it differed, one more if it differs now.
fn recount(n: u8, was: bool, is: bool) -> u8
    ensures { result ≡ recount n was is }
{
    n.wrapping_add(u8::from(is)).wrapping_sub(u8::from(was))
}

impl Differing {
    // Counted in a store, beside a copy of zeros.
    #[tactic(auto, using(crate::proofs::Counting::from_zero))]
    pub fn of(store: &[u8; 256]) -> Differing
        ensures { result ≡ counts_of store.now (zeros 256) }
    {
        let n = not_zero(&store[CUSTOMER..CUSTOMER + BYTES]) as u8;
        Differing { copy: n, zero: n }
    }

    // After a start, which zeroes the copy.
    pub fn started(self) -> Differing
        ensures { result ≡ differing_started self }
    {
        Differing {
            copy: self.zero,
            zero: self.zero,
        }
    }

    // When the copy gets a byte at an offset.
    fn copied(self, store: &[u8; 256], copy: &[u8; 256], offset: u8, byte: u8) -> Differing
        ensures { result ≡ copied self store.now copy.now offset byte }
    {
        let s = byte_at(store, offset);
        let c = byte_at(copy, offset);
        Differing {
            copy: recount(self.copy, s != c, s != byte),
            zero: self.zero,
        }
    }

    // When the store gets it.
    fn stored(self, store: &[u8; 256], copy: &[u8; 256], offset: u8, byte: u8) -> Differing
        ensures { result ≡ stored self store.now copy.now offset byte }
    {
        let s = byte_at(store, offset);
        let c = byte_at(copy, offset);
        Differing {
            copy: recount(self.copy, s != c, byte != c),
            zero: recount(self.zero, s != 0, byte != 0),
        }
    }

    // When a load puts store into copy: it goes through all offsets, and only a customer byte counts.
    fn loaded(self, store: &[u8; 256], copy: &[u8; 256], due: u8) -> Differing
        ensures { result ≡ loaded self store.now copy.now due }
    {
        if Region::from(due).is_customer() {
            self.copied(store, copy, due, byte_at(store, due))
        } else {
            self
        }
    }

    // After a tick, by what it is to do and the bytes before it.
    pub fn after_tick(self, store: &[u8; 256], copy: &[u8; 256], work: Work) -> Differing
        ensures { result ≡ differing_ticked self store.now copy.now work }
    {
        match work {
            Work::Refused => self,
            Work::Nothing => self,
            Work::Load(due) => self.loaded(store, copy, due),
            Work::Burn(due) => self.stored(store, copy, due, byte_at(copy, due)),
        }
    }

    // After a cut, by what a tick would have done and the bytes before it.
    pub fn after_cut(self, store: &[u8; 256], copy: &[u8; 256], work: Work, cut: Cut) -> Differing
        ensures { result ≡ differing_cut self store.now copy.now work cut }
    {
        match work {
            Work::Refused => self,
            Work::Nothing => self,
            Work::Load(_) => self,
            Work::Burn(due) => match cut {
                Cut::Clean => self,
                Cut::Torn(byte) => self.stored(store, copy, due, byte),
            },
        }
    }

    // After a frame, by the bytes before it.
    pub fn after(self, store: &[u8; 256], copy: &[u8; 256], action: Action) -> Differing
        ensures { result ≡ differing_after self store.now copy.now action }
    {
        match action {
            Action::Reset => self.started(),
            Action::Customer(offset, byte) => self.copied(store, copy, offset, byte),
            _ => self,
        }
    }
}
