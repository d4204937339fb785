//! The moves that a search finds.
use tb_bus::Exchange;
use tb_match::Binds;
use tb_notes::Found;
use tb_terms::Items;

/// A receive of terms: the index of the action among those of its process, and the binds.
#[derive(Drop)]
pub struct Received {
    /// The index of the action in `Living::ready`.
    pub action: usize,
    /// The binds of the terms in the patterns of the action.
    pub binds: Binds,
}

/// The process that receives the terms of a handshake.
#[derive(Drop)]
pub struct Partner {
    /// The index of the process among those that are alive.
    pub living: usize,
    /// The action that receives, and its binds.
    pub received: Received,
}

/// The further findings of a search about an action that a process does by itself and that may happen.
#[derive(Drop)]
pub enum Finding {
    /// Nothing further.
    Plain,
    /// The processes that want the note, by their indices among those that are alive. Each of their queues has capacity.
    Notify(Items<usize>),
    /// The note that is taken.
    TakeNote(Found),
    /// How the process speaks with a tool.
    Speak(Exchange),
}

/// A move that a search found, by indices of processes that are alive and of their actions.
#[derive(Drop)]
pub enum Candidate {
    /// The process that does something by itself, its action, and the finding.
    Own(usize, usize, Finding),
    /// The sender, its action, and the receiver.
    Handshake(usize, usize, Partner),
    /// The end of the bus: no process is left.
    Finish,
    /// The end of the bus: the processes can do nothing, and no more ticks come.
    Halt,
}
