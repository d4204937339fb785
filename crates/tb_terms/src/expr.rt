//! Expressions of a script, and the functions that they apply.
ghost use Rattle.std.specs.Prelude.{◌≡◌, IfOk};

use crate::{Items, Name, NoMemory, Sort, Text};
use std::alloc::Global;

/// A function that an expression can apply.
#[derive(Clone, Copy, Debug, PartialEq, Eq)]
pub enum Func {
    /// Tests whether two terms are equal.
    Equal,
    /// Tests whether two terms differ.
    NotEqual,
    /// Negates a truth value.
    Not,
    /// Returns whether both truth values are `true`.
    And,
    /// Returns whether at least one truth value is `true`.
    Or,
    /// Adds two numbers.
    Add,
    /// Subtracts the second number from the first.
    Sub,
    /// Multiplies two numbers.
    Mul,
    /// Divides the first number by the second, rounded toward zero.
    Div,
    /// Returns the remainder of `Div`.
    Mod,
    /// Tests whether the first number is less than the second.
    Less,
    /// Tests whether the first number is at most the second.
    LessEqual,
    /// Tests whether the first number is greater than the second.
    Greater,
    /// Tests whether the first number is at least the second.
    GreaterEqual,
    /// Returns the number of members of a list.
    Size,
    /// Returns the first member of a list.
    First,
    /// Returns a list without its first member.
    Next,
    /// Appends the second list to the first.
    Join,
    /// Tests whether the first argument is a member of the second, a list.
    Member,
    /// Returns the member of a list at a position, counted from 1.
    Index,
    /// Returns the ticks, of a tenth of a second, of a time in milliseconds, rounded up.
    Msec,
    /// Returns the ticks of a time in seconds.
    Sec,
    /// Returns the ticks of a time in minutes.
    Min,
    /// Returns the ticks of a time in hours.
    Hour,
}

/// An expression of a script. A variable is given by its slot.
#[derive(Drop)]
pub enum Expr {
    /// A number.
    Int(i64),
    /// A string.
    Str(Text),
    /// The value of a variable.
    Var(u32),
    /// A result variable: the variable takes the term at this place.
    Result(u32),
    /// A placeholder: any term of this type.
    Hole(Sort),
    /// A name, with or without arguments.
    Appl(Name, Exprs),
    /// A function, applied to arguments.
    Call(Func, Exprs),
    /// A list of expressions.
    List(Exprs),
}

/// A list of expressions.
pub type Exprs = Items<Expr>;

impl Expr {
    /// Returns the same expression in memory of its own.
    #[cycle(copy)]
    pub fn copy(&self, alloc: Global) -> Result<Expr, NoMemory>
        ensures { IfOk result (λ copy. copy ≡ self.now) }
    {
        match self {
            Expr::Int(number) => Ok(Expr::Int(*number)),
            Expr::Str(text) => Ok(Expr::Str(text.copy(alloc)?)),
            Expr::Var(slot) => Ok(Expr::Var(*slot)),
            Expr::Result(slot) => Ok(Expr::Result(*slot)),
            Expr::Hole(sort) => Ok(Expr::Hole(sort.copy(alloc)?)),
            Expr::Appl(name, parts) => {
                let name = name.share()?;
                Ok(Expr::Appl(name, copy_all(alloc, parts.as_slice())?))
            }
            Expr::Call(func, parts) => Ok(Expr::Call(*func, copy_all(alloc, parts.as_slice())?)),
            Expr::List(parts) => Ok(Expr::List(copy_all(alloc, parts.as_slice())?)),
        }
    }
}

/// Returns a copy of these expressions, in the same order.
pub fn copy_exprs(alloc: Global, exprs: &Exprs) -> Result<Exprs, NoMemory>
    ensures { IfOk result (λ copies. copies ≡ exprs.now) }
{
    copy_all(alloc, exprs.as_slice())
}

#[cycle(copy)]
fn copy_all(alloc: Global, exprs: &[Expr]) -> Result<Exprs, NoMemory>
    ensures { IfOk result (λ copies. copies ≡ exprs.now) }
{
    let mut copies = Items::new(alloc);
    for expr in exprs {
        copies.push(expr.copy(alloc)?)?;
    }
    Ok(copies)
}
