//! The action of an atom.
ghost use Rattle.std.specs.Prelude.{◌≡◌, IfOk};

use std::alloc::Global;
use tb_terms::{Expr, Exprs, NoMemory, copy_exprs};

/// The action that an atom takes when it happens. Processes and tools are positions in the program, from 0. Variables are slots.
#[derive(Drop)]
pub enum Act {
    /// Never happens.
    Delta,
    /// Happens without a partner, and changes no variable and no queue.
    Tau,
    /// Sends the values to another process, which receives them in the same step.
    SndMsg(Exprs),
    /// Receives matching values from another process, which sends them in the same step.
    RecMsg(Exprs),
    /// Sends the values as a note to each process that has a matching subscription.
    SndNote(Exprs),
    /// Receives the oldest matching note from the process's own queue.
    RecNote(Exprs),
    /// Happens only if no note in the process's own queue matches.
    NoNote(Exprs),
    /// Subscribes the process: from now on, it gets matching notes.
    Subscribe(Exprs),
    /// Ends the process's subscription. Notes that are already in its queue stay there.
    Unsubscribe(Exprs),
    /// Creates a process with this body and these arguments. The variable gets the number of the new process.
    Create {
        process: u32,
        actuals: Exprs,
        slot: u32,
    },
    /// Assigns the value to the variable.
    Set {
        slot: u32,
        value: Expr,
    },
    /// Prints the values by the format, which is the first expression.
    Printf(Exprs),
    /// Starts a tool of this kind. The variable gets the new tool.
    Execute {
        tool: u32,
        slot: u32,
    },
    /// Accepts a tool of this kind that has connected. The variable gets the tool.
    RecConnect {
        tool: u32,
        slot: u32,
    },
    /// Accepts that a tool of this kind disconnects. The variable gets the tool.
    RecDisconnectAny {
        tool: u32,
        slot: u32,
    },
    /// Accepts that this tool disconnects.
    RecDisconnect(Expr),
    /// Asks this tool for the value of the term.
    SndEval(Expr, Expr),
    /// Receives the value that this tool sends for an evaluation request, if it matches.
    RecValue(Expr, Expr),
    /// Sends this tool a request without an answer.
    SndDo(Expr, Expr),
    /// Receives the oldest waiting event of this tool that matches.
    RecEvent(Expr, Exprs),
    /// Acknowledges an event of this tool.
    SndAckEvent(Expr, Exprs),
    /// Tells this tool to end, and releases it.
    SndTerminate(Expr, Expr),
    /// Shuts the bus down for this reason.
    Shutdown(Expr),
}

impl Act {
    /// Returns an equal act in memory of its own.
    pub fn copy(&self, alloc: Global) -> Result<Act, NoMemory>
        ensures { IfOk result (λ copy. copy ≡ self.now) }
    {
        match self {
            Act::Delta => Ok(Act::Delta),
            Act::Tau => Ok(Act::Tau),
            Act::SndMsg(exprs) => Ok(Act::SndMsg(copy_exprs(alloc, exprs)?)),
            Act::RecMsg(exprs) => Ok(Act::RecMsg(copy_exprs(alloc, exprs)?)),
            Act::SndNote(exprs) => Ok(Act::SndNote(copy_exprs(alloc, exprs)?)),
            Act::RecNote(exprs) => Ok(Act::RecNote(copy_exprs(alloc, exprs)?)),
            Act::NoNote(exprs) => Ok(Act::NoNote(copy_exprs(alloc, exprs)?)),
            Act::Subscribe(exprs) => Ok(Act::Subscribe(copy_exprs(alloc, exprs)?)),
            Act::Unsubscribe(exprs) => Ok(Act::Unsubscribe(copy_exprs(alloc, exprs)?)),
            Act::Create {
                process,
                actuals,
                slot,
            } => Ok(created(*process, copy_exprs(alloc, actuals)?, *slot)),
            Act::Set { slot, value } => Ok(set(*slot, value.copy(alloc)?)),
            Act::Printf(exprs) => Ok(Act::Printf(copy_exprs(alloc, exprs)?)),
            &Act::Execute { tool, slot } => Ok(Act::Execute { tool, slot }),
            &Act::RecConnect { tool, slot } => Ok(Act::RecConnect { tool, slot }),
            &Act::RecDisconnectAny { tool, slot } => Ok(Act::RecDisconnectAny { tool, slot }),
            Act::RecDisconnect(tool) => Ok(Act::RecDisconnect(tool.copy(alloc)?)),
            Act::SndEval(tool, e) => Ok(Act::SndEval(tool.copy(alloc)?, e.copy(alloc)?)),
            Act::RecValue(tool, e) => Ok(Act::RecValue(tool.copy(alloc)?, e.copy(alloc)?)),
            Act::SndDo(tool, e) => Ok(Act::SndDo(tool.copy(alloc)?, e.copy(alloc)?)),
            Act::RecEvent(tool, exprs) => Ok(Act::RecEvent(
                tool.copy(alloc)?,
                copy_exprs(alloc, exprs)?,
            )),
            Act::SndAckEvent(tool, exprs) => Ok(Act::SndAckEvent(
                tool.copy(alloc)?,
                copy_exprs(alloc, exprs)?,
            )),
            Act::SndTerminate(tool, e) => Ok(Act::SndTerminate(tool.copy(alloc)?, e.copy(alloc)?)),
            Act::Shutdown(reason) => Ok(Act::Shutdown(reason.copy(alloc)?)),
        }
    }
}

fn created(process: u32, actuals: Exprs, slot: u32) -> Act
    ensures { result ≡ Act.Create process actuals slot }
{
    Act::Create {
        process,
        actuals,
        slot,
    }
}

fn set(slot: u32, value: Expr) -> Act
    ensures { result ≡ Act.Set slot value }
{
    Act::Set { slot, value }
}
