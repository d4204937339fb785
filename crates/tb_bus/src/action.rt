//! The actions of offered atoms, and the actions in which a process speaks with a tool.
use tb_match::Binds;
use tb_terms::{Patterns, Term, Terms};

/// The behavior of an offered atom whose times hold. For a given atom, it depends only on the offer's store.
#[derive(Drop)]
pub enum Action {
    /// An action that the process takes by itself.
    Own(OwnAction),
    /// The terms that the process sends if another process receives them in the same step.
    Send(Terms),
    /// The patterns of the terms that the process receives if another process sends them in the same step.
    Receive(Patterns),
}

/// An action in which a process speaks with a tool. A kind of tool is given by its index among the definitions, from 0, and a slot by its
/// index, from 0. If an action has terms, the first is the tool's own term.
#[derive(Drop)]
pub enum ToolAction {
    /// The start of a tool of this kind. The slot takes the tool's term.
    Execute(u32, u32),
    /// The connection of a waiting tool of this kind, which becomes live. The slot takes the tool's term.
    Connect(u32, u32),
    /// The release of a leaving tool of this kind from its lane. The slot takes the tool's term.
    DisconnectAny(u32, u32),
    /// The release of this tool, which is leaving, from its lane.
    Disconnect(Terms),
    /// A request that the tool evaluate the second term.
    Eval(Terms),
    /// The receipt of the tool's answer, if the answer matches the patterns.
    TakeValue(Terms, Patterns),
    /// A request that the tool carry out the second term.
    Do(Terms),
    /// The receipt of the tool's oldest waiting event that matches the patterns.
    TakeEvent(Terms, Patterns),
    /// The acknowledgement of a received event of the tool. The event has exactly the terms after the first.
    Acknowledge(Terms),
    /// A request that the tool end, with the second term as the reason.
    Terminate(Terms),
}

/// An action that a process takes by itself: one variant for each such atom, and one variant for all atoms that speak with a tool.
#[derive(Drop)]
pub enum OwnAction {
    /// A step without another effect.
    Tau,
    /// An assignment: the values that its label shows, and the binds that it sets.
    Set(Terms, Binds),
    /// The text to print.
    Print(Term),
    /// The terms of a note for each process that has a matching subscription.
    Notify(Terms),
    /// The patterns of the note to take: the oldest note in the process's own queue that matches.
    TakeNote(Patterns),
    /// The patterns of absent notes. The action is possible only if no note in the process's own queue matches.
    NoNote(Patterns),
    /// The patterns of a subscription that the process adds.
    Subscribe(Patterns),
    /// The patterns of the subscription that the process removes: the one with exactly these patterns.
    Unsubscribe(Patterns),
    /// The creation of a process of this body with these arguments. The slot takes the number of the new process.
    Create(u32, Terms, u32),
    /// An action that speaks with a tool.
    Speak(ToolAction),
    /// The reason for which the bus shuts down.
    Shutdown(Term),
}
