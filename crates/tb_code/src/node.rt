//! The nodes of a code: the operator and the frame of each position.
use tb_body::Settings;
use tb_terms::Expr;

/// The operator at a position. Its first part is at the next position. Its second part is at the given position.
#[derive(Drop)]
pub enum Op {
    /// The atom with this number.
    At(u32),
    /// The first part, then the second.
    Seq(usize),
    /// The first part or the second.
    Alt(usize),
    /// The first part any number of times, then the second.
    Star(usize),
    /// Both parts, with their atoms in any order.
    Par(usize),
    /// The left side, until the right side takes a step. The right side waits at the given position. Its own first position is the position
    /// after it.
    Disrupt(usize),
    /// The waiting right side of the disrupt at the given position.
    Waits(usize),
    /// The first part if the test is true, the second if it is false.
    If(Expr, usize),
    /// The part at the next position, if the test is true.
    When(Expr),
    /// The part at the next position, in the store after the settings.
    Let(Settings),
}

/// A position of a code.
#[derive(Drop)]
pub struct Node {
    /// The operator at the position.
    pub op: Op,
    /// The innermost sequence, star, or disrupt in whose first part the position is. When this first part has ended completely, the second
    /// part of the sequence follows, or the star again. A disrupt ends with its first part.
    pub frame: Option<usize>,
}
