//! The trees of processes.

use crate::{Ast, Asts};
use tb_terms::{Boxed, Ident, Items, Name, Sort};

/// The call of a process, or the process that `create` creates, with its arguments.
#[derive(Drop)]
pub struct Call {
    /// The name of the process.
    pub name: Ident,
    /// The arguments, in order.
    pub actuals: Asts,
    /// The position of the name.
    pub token: usize,
}

/// Calls in order.
pub type Calls = Items<Call>;

/// A variable of a `let`.
#[derive(Drop)]
pub struct Var {
    /// The name of the variable.
    pub name: Ident,
    /// The type of the variable.
    pub sort: Sort,
    /// The position of the name.
    pub token: usize,
    /// The position of the innermost name of the type.
    pub sort_token: usize,
}

/// Variables in order.
pub type Vars = Items<Var>;

/// The action of an atom.
#[derive(Drop)]
pub enum ActDef {
    /// `V := E`.
    Set(Ident, Ast),
    /// `create(N(E, ..), V?)`.
    Create(Call, Ast),
    /// Each other atom: its word and its arguments.
    Named(Name, Asts),
}

/// A condition on the time at which an atom can happen.
#[derive(Drop)]
pub struct TimeDef {
    /// `delay`, `timeout`, `abs-delay` or `abs-timeout`.
    pub name: Name,
    /// The value of the condition.
    pub value: Ast,
    /// The position of the word.
    pub token: usize,
}

/// The time conditions of an atom, in order.
pub type TimeDefs = Items<TimeDef>;

/// An atom with its time conditions.
#[derive(Drop)]
pub struct AtomDef {
    /// The action.
    pub act: ActDef,
    /// The time conditions, in order.
    pub times: TimeDefs,
    /// The position of the first token.
    pub token: usize,
}

/// A process: an atom, a call, or a construct of other processes.
#[derive(Drop)]
pub enum Proc {
    /// An atom.
    Atom(AtomDef),
    /// A call of a process.
    Call(Call),
    /// One process, and then the other.
    Seq(Boxed<Proc>, Boxed<Proc>),
    /// One process or the other.
    Alt(Boxed<Proc>, Boxed<Proc>),
    /// The first process any number of times, and then the second.
    Star(Boxed<Proc>, Boxed<Proc>),
    /// Both processes, with their steps interleaved.
    Par(Boxed<Proc>, Boxed<Proc>),
    /// The left side, until the right side takes a step. If the left side ends, the whole ends.
    Disrupt(Boxed<Proc>, Boxed<Proc>),
    /// A test, the process if the test is true, and the process for the other case, if any.
    If(Ast, Boxed<Proc>, Option<Boxed<Proc>>),
    /// Local variables, and the process that can use them.
    Let(Vars, Boxed<Proc>),
}
