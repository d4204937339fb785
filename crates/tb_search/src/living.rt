//! A process that is alive, and its offers that are ready for an action.
use tb_bus::Action;
use tb_index::Marks;
use tb_notes::Inbox;

/// An offer of a process that is ready for an action: its index among the offers, and its atom.
#[derive(Drop)]
pub struct Ready {
    /// The index of the offer among all offers of the process.
    pub offer: usize,
    /// The number of the atom of the offer.
    pub atom: u32,
    /// The action that the process is ready for.
    pub action: Action,
}

/// A process that is alive.
#[derive(Drop)]
pub struct Living<W> {
    /// The number of the process: from 1, in the order of the roots, and then of creation.
    pub number: u32,
    /// The index of its body among the bodies of the program.
    pub body: u32,
    /// The walker: where the process is in its body.
    pub walker: W,
    /// The subscriptions of the process, and its queue of notes.
    pub inbox: Inbox,
    /// The actions that the process is ready for, in source order.
    pub ready: Vec<Ready>,
    /// Whether `ready` is up to date.
    pub fresh: bool,
    /// The marks that an index has of the process: those of its sends and of its receives.
    pub marks: Marks,
    /// Whether an atom with times may be next. Then a tick may change the actions that the process is ready for.
    pub timed: bool,
}
