//! The reasons why an offered atom can't happen.

use tb_tools::Stage;

/// The reason why `printf` has no text. Arguments count from 1, without the format.
#[derive(Clone, Copy)]
pub enum FormatFault {
    /// The first value, the format, is no string.
    NoFormat,
    /// This letter after a `%` is none of `%`, `d`, `s`, and `t`.
    NoDirective(u8),
    /// No argument is left for this letter after a `%`.
    TooFew(u8),
    /// This letter after a `%` doesn't print the argument with this number: `d` needs an integer, and `s` a string.
    Differs(u8, usize),
    /// The format ends with a `%`.
    Ends,
    /// The format has no `%` for the argument with this number.
    TooMany(usize),
    /// Each place of the format has a text, but the whole text is too long.
    TooLong,
}

/// An offer of another process.
#[derive(Clone, Copy)]
pub struct Partner {
    /// The number of the process.
    pub process: u32,
    /// The index of the process's body, from 0.
    pub body: u32,
    /// The number of the atom in the body, from 1.
    pub atom: u32,
}

/// The condition of an offered atom that fails. Variants without an atom in their text are for several atoms.
#[derive(Clone, Copy)]
pub enum Reason {
    /// The bus has shut down.
    Down,
    /// The times of the atom don't all hold.
    Times,
    /// `delta` never happens.
    Never,
    /// An expression of the atom has no value, or all values together are too large.
    NoValue,
    /// A pattern of the atom doesn't exist: a part of it has no value.
    NoPattern,
    /// `:=`: the value doesn't have the type of the variable.
    WrongSort,
    /// `printf`: the values give no text, for this reason.
    NoText(FormatFault),
    /// `snd-msg`, `rec-msg`: this offer of another process matches, but its times don't all hold. No offer whose times hold matches.
    PartnerWaits(Partner),
    /// `snd-msg`: no offer of another process receives the message, whatever the times of the offer.
    NobodyReceives,
    /// `rec-msg`: no offer of another process sends a message that matches, whatever the times of the offer.
    NobodySends,
    /// `snd-note`: the process with this number wants the note, and its queue is full.
    QueueFull(u32),
    /// `rec-note`: no note in the process's own queue matches.
    NoNote,
    /// `no-note`: the note at this position of the process's own queue, from 0, matches.
    NoteWaits(usize),
    /// `create`: as many processes live as may live.
    TooMany,
    /// `create`: the arguments don't have the types of the parameters.
    WrongActuals,
    /// `create`: the variable doesn't take the number of the new process.
    NoNumber,
    /// `execute`: the tool has no command.
    NoCommand,
    /// `execute`: no lane is free.
    NoLane,
    /// `rec-connect`, `rec-disconnect`: no tool of the given name is at this stage.
    NoneAt(Stage),
    /// An atom that sets a variable to a tool, such as `execute`: the term of the tool is too large.
    ToolTooLarge,
    /// An atom that sets a variable to a tool: the tool's term doesn't have the type of the variable.
    WrongTool,
    /// An atom that speaks with a tool: no lane has a tool with this term. The tool was never there, or has left.
    NoTool,
    /// The tool on this lane is at this stage, at which the atom can't happen.
    AtStage(u8, Stage),
    /// `snd-eval`, `snd-do`: an evaluation is open on this lane, and no answer has come.
    EvalOpen(u8),
    /// `snd-eval`, `snd-do`: an evaluation is open on this lane. Its answer has come, and no process has received it.
    AnswerWaits(u8),
    /// `rec-value`: the tool on this lane hasn't answered. `rec-event`: no waiting event of the tool matches. The tool is leaving, so
    /// nothing more comes from it.
    Ended(u8),
    /// `rec-value`: no evaluation is open on this lane.
    NotAsked(u8),
    /// `rec-value`: an evaluation is open on this lane, and the tool hasn't answered yet.
    NotAnswered(u8),
    /// `rec-value`: the answer of the tool on this lane doesn't match.
    AnswerDiffers(u8),
    /// `rec-event`: no event that waits on this lane matches.
    NoEvent(u8),
    /// `snd-ack-event`: no event that was received on this lane, and isn't acknowledged yet, has exactly these terms.
    NotReceived(u8),
}
