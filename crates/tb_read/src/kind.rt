//! The kind of a token, by its first byte.
ghost use Rattle.std.specs.Prelude.{◌≡◌};
ghost use Rattle.tb_read.specs.Lexing.{kind_of};

/// The kind of a token, which its first byte determines.
#[derive(Clone, Copy, PartialEq, Eq)]
pub(crate) enum Kind {
    Int,
    Str,
    Name,
    LeftParen,
    RightParen,
    LeftBracket,
    RightBracket,
    Comma,
    /// No token begins with this byte.
    Other,
}
