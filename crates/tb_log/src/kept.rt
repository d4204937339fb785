//! The entries that a log stores: small entries in one list. Their terms, inputs and outputs are in separate lists.
ghost use Rattle.std.specs.Prelude.{◌≡◌, ◌+◌, ◌≤◌, length};
ghost use Rattle.tb_log.specs.Seens.{entry_seen, label_seen, terms_seen};
ghost use Rattle.tb_log.specs.Helpers.KeptLogs.{label_kept, other_entry};

use crate::entry::{Input, Label, LabelKind, Out, Place, Reply};
use crate::seen::{Seen, SeenLabel, SeenTerms};

/// A step. Its terms are in a list that it shares with other steps.
#[derive(Clone, Copy)]
pub struct KeptStep {
    /// The kind of step.
    pub kind: LabelKind,
    /// The atom of the step. In a message, it is the sender.
    pub from: Place,
    /// The receiver of a message.
    pub to: Place,
    /// The index of the first term of the step in the shared list.
    pub first: u32,
    /// The number of terms of the step.
    pub count: u32,
}

impl KeptStep {
    /// Lends the step, with its terms taken from the shared list `terms`.
    pub fn lend<'a>(&self, terms: SeenTerms<'a>) -> SeenLabel<'a>
        requires { self.now.first + self.now.count ≤ length (terms_seen terms) }
        ensures { label_seen result ≡ label_kept (terms_seen terms.entry) self.now }
    {
        SeenLabel {
            kind: self.kind,
            from: self.from,
            to: self.to,
            terms: terms.share(self.first as usize, self.count as usize),
        }
    }
}

/// An entry.
#[derive(Clone, Copy)]
pub enum Kept {
    /// A step whose terms are in the list of terms.
    Did(KeptStep),
    /// A step whose terms are all numbers. They are in the list of numbers.
    Numbers(KeptStep),
    /// No step was possible.
    Quiet,
    /// An input, an output, or a whole step, at this index in the list of others.
    Other(u32),
}

/// An entry that keeps its own content: an input, an output, or a step with its own list of terms.
#[derive(Drop)]
pub enum Other {
    /// A step with its own list of terms.
    Did(Label),
    /// An input and its reply.
    Fed(Input, Reply),
    /// An output on a lane.
    Gave(u8, Out),
}

impl Other {
    /// Lends the entry.
    pub fn lend(&self) -> Seen<'_>
        ensures { entry_seen result ≡ other_entry self.now }
    {
        match self {
            Other::Did(label) => Seen::Did(SeenLabel {
                kind: label.kind,
                from: label.from,
                to: label.to,
                terms: SeenTerms::Terms(label.terms.as_slice()),
            }),
            Other::Fed(input, reply) => Seen::Fed(input, *reply),
            Other::Gave(lane, out) => Seen::Gave(*lane, out),
        }
    }
}
