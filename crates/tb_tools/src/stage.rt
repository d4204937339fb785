//! The stages of a tool, the states of its evaluation, and the states of a lane.
use tb_terms::Term;

/// The stage of a tool.
#[derive(Clone, Copy, Debug, PartialEq, Eq)]
pub enum Stage {
    /// The stage of a tool that has sent a connect request, if no process has accepted the tool yet.
    Waiting,
    /// The stage of a tool that processes can use.
    Live,
    /// The stage of a tool that has ended, was cut off, or has sent a disconnect request, if no process has released the tool yet.
    Leaving,
}

/// The state of a tool's evaluation.
#[derive(Drop)]
pub(crate) enum Eval {
    /// No open evaluation.
    Closed,
    /// An evaluation that the tool was asked for and hasn't answered.
    Asked,
    /// The value with which the tool has answered, if no process has taken the value yet.
    Answered(Term),
}

/// The state of a lane.
#[derive(Clone, Copy, Debug, PartialEq, Eq)]
pub enum LaneState {
    /// The state of a lane that can be started.
    Free,
    /// The state of a lane that is up, hasn't ended, and has no tool.
    Unnamed,
    /// The state of a lane with a waiting tool (`Stage::Waiting`).
    Waiting,
    /// The state of a lane with a live tool (`Stage::Live`).
    Live,
    /// The state of a lane with a leaving tool (`Stage::Leaving`).
    Leaving,
    /// The state of a lane that has no tool, isn't free yet, and has ended or isn't up.
    Ending,
}
