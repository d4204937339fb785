//! The conditions of a script, and their violations.

ghost use Rattle.std.specs.Prelude.{◌≡◌, ◌++◌, OnOk};
ghost use Rattle.tb_types.specs.Violation.{noted_if};

use tb_terms::{Items, NoMemory};

/// One of the nine conditions, named for its failure. `CheckFault` describes when each condition fails.
#[derive(Clone, Copy, Debug, PartialEq, Eq)]
pub enum Rule {
    /// A name is defined twice.
    Twice,
    /// A process name isn't defined.
    NoProcess,
    /// A type or a tool with a command isn't defined.
    NoTool,
    /// A test or a time value is an application with arguments that applies no function.
    NoFunction,
    /// The number of arguments is wrong.
    Arity,
    /// A variable isn't declared.
    Undeclared,
    /// A result variable or a placeholder is at a place that doesn't allow it.
    ResultInSend,
    /// A result variable is missing.
    NotResult,
    /// An expression doesn't fit the required type, or the argument of a root has no value of this type.
    TypeClash,
}

/// A condition that fails at a token.
#[derive(Clone, Copy, Debug, PartialEq, Eq)]
pub struct Violation {
    /// The condition that fails.
    pub rule: Rule,
    /// The token, from 0, at which the condition fails.
    pub token: usize,
}

/// Adds a violation of the rule at the token if the rule is violated.
pub(crate) fn note_if(
    is_violated: bool,
    rule: Rule,
    token: usize,
    into: &mut Items<Violation>,
) -> Result<(), NoMemory>
    ensures { OnOk result (into.new ≡ into.old ++ noted_if is_violated rule token) }
{
    if is_violated {
        into.push(Violation { rule, token })?;
    }
    Ok(())
}
