//! The nodes of a plan: one for each operator of a body.
use tb_body::Settings;
use tb_terms::Expr;

/// One operator of a body. Its parts are the nodes at the given positions, which are earlier positions.
#[derive(Drop)]
pub enum Node {
    /// The atom with this number.
    At(u32),
    /// The first part, then the second.
    Seq(usize, usize),
    /// The first part or the second.
    Alt(usize, usize),
    /// The first part any number of times, then the second.
    Star(usize, usize),
    /// Both parts, with their atoms in any order.
    Par(usize, usize),
    /// The left side, until the right side takes a step.
    Disrupt(usize, usize),
    /// The first part if the test is true, the second (if there is one) if it is false.
    If(Expr, usize, Option<usize>),
    /// The part, in the store after the settings.
    Let(Settings, usize),
}
