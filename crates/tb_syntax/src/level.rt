//! How tightly the operators bind.

/// The level of a place: the operators that a process there can have without parentheses. From the loosest to the tightest.
#[derive(Clone, Copy, Debug, PartialEq, Eq)]
pub enum Level {
    /// A whole process: a body, a process in parentheses, or the right side of `>>`.
    Proc,
    /// The left side of `>>`, or the right side of `||`.
    Par,
    /// The left side of `||`, or the right side of `+`.
    Alt,
    /// The left side of `+`, or the right side of `.`.
    Seq,
    /// The left side of `.` or of `*`.
    Star,
    /// The right side of `*`: no operator without parentheses.
    Prim,
}
