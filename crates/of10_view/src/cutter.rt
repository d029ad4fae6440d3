//! Messages out of a stream that comes in pieces.

ghost use Rattle.std.specs.Prelude.{◌≡◌, ◌≤◌, ◌+◌, ◌*◌, ◌++◌, [], drop, length, take, OnErr, OnOk};
ghost use Rattle.std.specs.Borrow.{sem};
ghost use Rattle.of10_view.specs.Stream.{left_of, next_of};

use crate::view::View;
use of10_messages::{BadMessage, OFP_VERSION, refusal};
use std::alloc::{AllocError, Global};
use wire_bytes::{front_of, rest_at, u16_at};

/// What a cutter has next.
#[derive(Debug, Drop)]
pub enum Next<'a> {
    /// A message, which is taken out.
    Whole(View<'a>),
    /// So many bytes are held, and so many are needed: 8 until there is a header, then the length that it says.
    NotYet { need: u64, have: u64 },
    /// What is held begins with no message, whatever is fed: its header has another version than 1 (`Version`) or a
    /// length below its own 8 bytes (`Length`, with 8 for the bytes given), or it is a whole message that
    /// [`View::of`] refuses, for that reason. What is held stays.
    Broken(BadMessage),
}

/// What comes next of some bytes, a whole message by its length.
#[derive(Debug, Drop)]
enum Step {
    Whole(usize),
    NotYet { need: u64, have: u64 },
    Broken(BadMessage),
}

impl Step {
    ghost use Rattle.of10_view.specs.Seen.{IsStep, Stands, decided};
    ghost use Rattle.of10_view.specs.Stream.{whole_or_broken};

    /// What comes next of the bytes held.
    #[tactic(auto, unfolding(crate::specs::Stream::next_of))]
    fn of(bytes: &[u8]) -> Step
        ensures { IsStep bytes.now result }
    {
        let have = bytes.len() as u64;
        if have < 8 {
            return Step::NotYet { need: 8, have };
        }
        let version = bytes[0];
        if version != OFP_VERSION {
            return Step::Broken(BadMessage::Version(version));
        }
        let said = u16_at(bytes, 2);
        if said < 8 {
            return Step::Broken(BadMessage::Length { said, given: 8 });
        }
        if have < u64::from(said) {
            return Step::NotYet {
                need: u64::from(said),
                have,
            };
        }
        Step::whole_or_broken(bytes, usize::from(said))
    }

    /// The message that is the first bytes, so many of them.
    fn whole_or_broken(bytes: &[u8], len: usize) -> Step
        requires { len ≤ length bytes.now }
        ensures next { decided bytes.now result ≡ whole_or_broken (take len bytes.now) }
        ensures stands { Stands bytes.now result }
    {
        match refusal(front_of(bytes, len)) {
            Some(bad) => Step::Broken(bad),
            None => Step::Whole(len),
        }
    }
}

/// The bytes of a stream of messages that were fed and not yet taken out.
#[derive(Debug, Drop)]
pub struct Cutter {
    /// What was fed, from some place on.
    bytes: Vec<u8>,
    /// How many of these were taken out already.
    taken: usize,
    ghost inside: { taken ≤ length bytes.items },
}

impl Cutter {
    ghost use Rattle.of10_view.specs.Lending.{EndsAs};
    ghost use Rattle.of10_view.specs.Seen.{IsStep, held, kept, seen};

    /// A cutter that holds nothing.
    pub fn new(alloc: Global) -> Cutter
        ensures { held result ≡ [] }
    {
        Cutter {
            bytes: Vec::new(alloc),
            taken: 0,
        }
    }

    /// Adds the next piece of the stream. What was taken out is let go once it is more than what is held.
    pub fn feed(&mut self, piece: &[u8]) -> Result<(), AllocError>
        ensures ok { OnOk result (held self.new ≡ held self.old ++ piece.now) }
        ensures err { OnErr result (held self.new ≡ held self.old) }
        ensures kept { kept self.new ≤ 2 * length (held self.old) + length piece.now }
    {
        // The work is in proportion to what was taken out, so on the whole to what was fed.
        if self.taken > self.bytes.len() - self.taken {
            self.bytes.drain(..self.taken);
            self.taken = 0;
        }
        self.bytes.extend_from_slice(piece)
    }

    /// The next message of the stream. Nothing is copied.
    pub fn next_message(&mut self) -> Next<'_>
        ensures* left { sem 𝓛 (EndsAs self.entry (left_of (held self.old))) }
        ensures next { seen result ≡ next_of (held self.old) }
    {
        let from = self.taken;
        let step = self.advance();
        self.lend(from, step)
    }

    fn step(&self) -> Step
        ensures { IsStep (held self.now) result }
    {
        Step::of(rest_at(self.bytes.as_slice(), self.taken))
    }

    /// Decides what comes next, and takes out a whole message.
    fn advance(&mut self) -> Step
        ensures step { IsStep (held self.old) result }
        ensures bytes { self.new.bytes ≡ self.old.bytes }
        ensures held { held self.new ≡ left_of (held self.old) }
    {
        let step = self.step();
        if let Step::Whole(len) = &step {
            self.taken += *len;
        }
        step
    }

    /// What was decided of the bytes from a place on.
    fn lend(&self, from: usize, step: Step) -> Next<'_>
        requires place { from ≤ length self.now.bytes.items }
        requires step { IsStep (drop from self.now.bytes.items) step }
        ensures { seen result ≡ next_of (drop from self.now.bytes.items) }
    {
        match step {
            Step::Whole(len) => {
                let rest = rest_at(self.bytes.as_slice(), from);
                Next::Whole(View::known(front_of(rest, len)))
            }
            Step::NotYet { need, have } => Next::NotYet { need, have },
            Step::Broken(bad) => Next::Broken(bad),
        }
    }
}
