//! The errors of a check.

ghost use Rattle.std.specs.Prelude.{◌≡◌};
ghost use Rattle.tb_message.specs.Messages.{message_text};
ghost use Rattle.tb_types.specs.Lines.{check_line};

use tb_message::Message;
use thiserror::Error;

/// The first condition that a script fails, and the first token, counted from 0, at which this condition fails.
#[derive(Clone, Copy, Debug, PartialEq, Eq, Error)]
pub enum CheckFault {
    /// A process, a tool, a parameter, or a variable is defined twice, or a tool has the name of a built-in type.
    #[error("defined twice, at token {0}")]
    Twice(usize),
    /// A call, a `create` or a root names no process.
    #[error("no such process, at token {0}")]
    NoProcess(usize),
    /// A type is neither a built-in type nor a tool, or `execute` names no tool with a command.
    #[error("no such tool, at token {0}")]
    NoTool(usize),
    /// A test or a time value is an application with arguments that applies no function.
    #[error("no such function, at token {0}")]
    NoFunction(usize),
    /// A call, a `create`, a root, a function, or an atom has a wrong number of arguments.
    #[error("wrong number of arguments, at token {0}")]
    Arity(usize),
    /// A variable is neither a parameter of its process nor declared in a `let` around it. In a root, each variable is undeclared.
    #[error("undeclared variable, at token {0}")]
    Undeclared(usize),
    /// A result variable or a placeholder is at a place that doesn't allow it.
    #[error("result variable or placeholder in the wrong place, at token {0}")]
    ResultInSend(usize),
    /// An expression isn't a result variable, and its place requires one.
    #[error("no result variable, at token {0}")]
    NotResult(usize),
    /// An expression doesn't fit the type that its place requires, or the argument of a root has no value of this type.
    #[error("wrong sort, at token {0}")]
    TypeClash(usize),
    /// The call ran out of memory. This error makes no claim about the script.
    #[error("no memory")]
    NoMemory,
}

impl CheckFault {
    /// Returns the message of the error.
    pub fn message(&self) -> Message<'static>
        ensures { message_text result ≡ check_line self.now }
    {
        match self {
            CheckFault::Twice(token) => Message::numbered(b"script: twice at token ", *token),
            CheckFault::NoProcess(token) => Message::numbered(
                b"script: no process at token ",
                *token,
            ),
            CheckFault::NoTool(token) => Message::numbered(b"script: no tool at token ", *token),
            CheckFault::NoFunction(token) => {
                Message::numbered(b"script: no function at token ", *token)
            }
            CheckFault::Arity(token) => Message::numbered(b"script: arity at token ", *token),
            CheckFault::Undeclared(token) => {
                Message::numbered(b"script: undeclared at token ", *token)
            }
            CheckFault::ResultInSend(token) => {
                Message::numbered(b"script: result in send at token ", *token)
            }
            CheckFault::NotResult(token) => Message::numbered(
                b"script: not result at token ",
                *token,
            ),
            CheckFault::TypeClash(token) => Message::numbered(
                b"script: type clash at token ",
                *token,
            ),
            CheckFault::NoMemory => Message::plain(b"no memory"),
        }
    }
}
