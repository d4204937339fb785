//! The trees of expressions.

use tb_terms::{Ident, Items, Name, Sort, Text};

/// An expression as a script writes it, with the position of its first token.
#[derive(Drop)]
#[cycle(ast)]
pub struct Ast {
    /// What the expression is.
    pub kind: AstKind,
    /// The position of its first token.
    pub token: usize,
}

/// The kind of an expression, with its parts.
#[derive(Drop)]
#[cycle(ast)]
pub enum AstKind {
    /// A whole number.
    Int(i64),
    /// A string.
    Str(Text),
    /// A name with its arguments, of which there can be none.
    Appl(Name, Asts),
    /// A variable.
    Var(Ident),
    /// A result variable, which is written with a `?`: it takes the value at its place.
    Result(Ident),
    /// A placeholder for any term of this type.
    Hole(Sort),
    /// A list of expressions.
    List(Asts),
}

/// Expressions in order.
pub type Asts = Items<Ast>;
