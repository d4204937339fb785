//! The shapes of arguments and results.
/// The shape of an argument or of the result of a function.
#[derive(Clone, Copy, Debug, PartialEq, Eq)]
pub enum Shape {
    /// The terms `true` and `false`.
    Bool,
    /// A number.
    Int,
    /// A list of any terms.
    List,
    /// Any term.
    Any,
}

/// The number of arguments of a function, with the shapes of the arguments and of the result.
#[derive(Clone, Copy, Debug, PartialEq, Eq)]
pub struct Signature {
    /// The number of arguments: 1 or 2.
    pub arity: u8,
    /// The shape of the first argument.
    pub first: Shape,
    /// The shape of the second argument, or `Any` if there is none.
    pub second: Shape,
    /// The shape of the result.
    pub result: Shape,
}
