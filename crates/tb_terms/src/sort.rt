//! Types of variables.
ghost use Rattle.std.specs.Prelude.{◌≡◌, ◌↔◌, IsTrue, IfOk};

use crate::{Boxed, Items, Name, NoMemory};
use std::alloc::Global;

/// A type: the terms that a variable can hold.
#[derive(Drop)]
pub enum Sort {
    /// The terms `true` and `false`.
    Bool,
    /// Numbers.
    Int,
    /// Strings.
    Str,
    /// Lists whose members have this type. The type `list` of scripts is `List(Any)`.
    List(Boxed<Sort>),
    /// All terms.
    Any,
    /// The terms of a tool: the name of the tool with one number as its argument.
    Tool(Name),
}

/// A list of types.
pub type Sorts = Items<Sort>;

impl Sort {
    /// Returns the same type in memory of its own.
    pub fn copy(&self, alloc: Global) -> Result<Sort, NoMemory>
        ensures { IfOk result (λ copy. copy ≡ self.now) }
    {
        match self {
            Sort::Bool => Ok(Sort::Bool),
            Sort::Int => Ok(Sort::Int),
            Sort::Str => Ok(Sort::Str),
            Sort::List(members) => {
                let members = members.get().copy(alloc)?;
                Ok(Sort::List(Boxed::new(alloc, members)?))
            }
            Sort::Any => Ok(Sort::Any),
            Sort::Tool(name) => Ok(Sort::Tool(name.share()?)),
        }
    }

    /// Returns whether two types are equal.
    pub fn is_same(&self, other: &Sort) -> bool
        ensures { IsTrue result ↔ (self.now ≡ other.now) }
    {
        match (self, other) {
            (Sort::Bool, Sort::Bool) => true,
            (Sort::Int, Sort::Int) => true,
            (Sort::Str, Sort::Str) => true,
            (Sort::Any, Sort::Any) => true,
            (Sort::List(members), Sort::List(others)) => members.get().is_same(others.get()),
            (Sort::Tool(name), Sort::Tool(other)) => name.is_same(other),
            _ => false,
        }
    }
}
