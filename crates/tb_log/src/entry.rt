//! The entries of a log, and copies of entries.
ghost use Rattle.std.specs.Prelude.{◌≡◌, IfOk};

use std::alloc::Global;
use tb_terms::{Items, Name, NoMemory, Term, Terms, Text, copy_terms};

/// A line that a tool sent.
#[derive(Drop)]
pub enum ToolLine {
    /// A value: the result of an evaluation.
    Value(Term),
    /// An event, with its terms.
    Event(Terms),
    /// A connect request: the tool gives its name.
    Connect(Name),
    /// A disconnect request.
    Disconnect,
    /// Any other line.
    Bad,
}

impl ToolLine {
    /// Copies the line into new memory.
    pub fn copy(&self, alloc: Global) -> Result<ToolLine, NoMemory>
        ensures { IfOk result (λ copy. copy ≡ self.now) }
    {
        match self {
            ToolLine::Value(term) => Ok(ToolLine::Value(term.copy(alloc)?)),
            ToolLine::Event(terms) => Ok(ToolLine::Event(copy_terms(alloc, terms)?)),
            ToolLine::Connect(name) => Ok(ToolLine::Connect(name.share()?)),
            ToolLine::Disconnect => Ok(ToolLine::Disconnect),
            ToolLine::Bad => Ok(ToolLine::Bad),
        }
    }
}

/// An input from the environment. Lanes have the numbers from 1 to 16.
#[derive(Drop)]
pub enum Input {
    /// One unit of time has passed.
    Tick,
    /// No more ticks come.
    NoTicks,
    /// The program on this lane sent a line.
    Line(u8, ToolLine),
    /// The program on this lane has ended.
    Gone(u8),
    /// An output on this lane couldn't be written.
    Cut(u8),
}

impl Input {
    /// Copies the input into new memory.
    pub fn copy(&self, alloc: Global) -> Result<Input, NoMemory>
        ensures { IfOk result (λ copy. copy ≡ self.now) }
    {
        match self {
            Input::Tick => Ok(Input::Tick),
            Input::NoTicks => Ok(Input::NoTicks),
            Input::Line(lane, line) => Ok(Input::Line(*lane, line.copy(alloc)?)),
            Input::Gone(lane) => Ok(Input::Gone(*lane)),
            Input::Cut(lane) => Ok(Input::Cut(*lane)),
        }
    }
}

/// The reason why an input changed nothing.
#[derive(Clone, Copy, Debug, PartialEq, Eq)]
pub enum Why {
    /// The tool sent a value that no process had requested, or a second value.
    Unasked,
    /// The lane wasn't up or had ended, or it had no tool that could send such a line.
    NotLive,
    /// A connect request came on a lane that already has a tool.
    Named,
    /// A connect request came with a name that isn't declared.
    Stranger,
    /// The line isn't one that a tool may send.
    Bad,
    /// The bus had shut down.
    Down,
}

/// The reply to an input.
#[derive(Clone, Copy, Debug, PartialEq, Eq)]
pub enum Reply {
    /// The bus took the input.
    Took,
    /// The bus dropped the input, for this reason.
    Dropped(Why),
}

/// An output on a lane.
#[derive(Drop)]
pub enum Out {
    /// The command that starts the tool.
    Start(Text),
    /// A line for the tool.
    Line(Term),
    /// The end: the tool receives no more lines.
    End,
}

impl Out {
    /// Copies the output into new memory.
    pub fn copy(&self, alloc: Global) -> Result<Out, NoMemory>
        ensures { IfOk result (λ copy. copy ≡ self.now) }
    {
        match self {
            Out::Start(command) => Ok(Out::Start(command.copy(alloc)?)),
            Out::Line(term) => Ok(Out::Line(term.copy(alloc)?)),
            Out::End => Ok(Out::End),
        }
    }
}

/// An atom of a process. Both numbers count from 1. If there is no atom, both are 0.
#[derive(Clone, Copy, Debug, PartialEq, Eq)]
pub struct Place {
    /// The number of the process.
    pub proc: u32,
    /// The number of the atom in its process.
    pub atom: u32,
}

/// The kind of a step. Most kinds have the name of the atom that takes the step.
#[derive(Clone, Copy, Debug, PartialEq, Eq)]
pub enum LabelKind {
    /// A message: one process sent terms to another process.
    Msg,
    /// An assignment: a variable took a value.
    Set,
    /// A step of an atom `tau`.
    Tau,
    /// A step of an atom `printf`.
    Printf,
    /// A step of an atom `snd-note`.
    SndNote,
    /// A step of an atom `rec-note`.
    RecNote,
    /// A step of an atom `no-note`.
    NoNote,
    /// A step of an atom `subscribe`.
    Subscribe,
    /// A step of an atom `unsubscribe`.
    Unsubscribe,
    /// A step of an atom `create`.
    Create,
    /// A step of an atom `execute`.
    Execute,
    /// A step of an atom `rec-connect`.
    RecConnect,
    /// A step of an atom `rec-disconnect`.
    RecDisconnect,
    /// A step of an atom `snd-eval`.
    SndEval,
    /// A step of an atom `rec-value`.
    RecValue,
    /// A step of an atom `snd-do`.
    SndDo,
    /// A step of an atom `rec-event`.
    RecEvent,
    /// A step of an atom `snd-ack-event`.
    SndAckEvent,
    /// A step of an atom `snd-terminate`.
    SndTerminate,
    /// A step of an atom `shutdown`.
    Shutdown,
    /// The end of the bus: no process was left.
    Finish,
    /// The end of the bus: no process could take a step, and no more ticks come.
    Halt,
}

/// The label of a step: its atoms, with the sender of a message first, and its terms.
#[derive(Drop)]
pub struct Label {
    /// The kind of step.
    pub kind: LabelKind,
    /// The atom of the step. In a message, it is the sender.
    pub from: Place,
    /// The receiver of a message.
    pub to: Place,
    /// The terms of the step.
    pub terms: Terms,
}

impl Label {
    /// Copies the label into new memory.
    pub fn copy(&self, alloc: Global) -> Result<Label, NoMemory>
        ensures { IfOk result (λ copy. copy ≡ self.now) }
    {
        let terms = copy_terms(alloc, &self.terms)?;
        Ok(Label {
            kind: self.kind,
            from: self.from,
            to: self.to,
            terms,
        })
    }
}

/// One event of the bus.
#[derive(Drop)]
pub enum Entry {
    /// A step of the bus.
    Did(Label),
    /// No step was possible, and the bus hadn't shut down.
    Quiet,
    /// An input, and whether the bus took it or dropped it.
    Fed(Input, Reply),
    /// An output on a lane. Lanes have the numbers from 1 to 16.
    Gave(u8, Out),
}

/// A sequence of entries, in the order of a log.
pub type Entries = Items<Entry>;

impl Entry {
    /// Copies the entry into new memory.
    pub fn copy(&self, alloc: Global) -> Result<Entry, NoMemory>
        ensures { IfOk result (λ copy. copy ≡ self.now) }
    {
        match self {
            Entry::Did(label) => Ok(Entry::Did(label.copy(alloc)?)),
            Entry::Quiet => Ok(Entry::Quiet),
            Entry::Fed(input, reply) => Ok(Entry::Fed(input.copy(alloc)?, *reply)),
            Entry::Gave(lane, out) => Ok(Entry::Gave(*lane, out.copy(alloc)?)),
        }
    }
}
