//! The kind of token that a byte can begin.
ghost use Rattle.std.specs.Prelude.{◌≡◌};
ghost use Rattle.tb_lex.specs.Helpers.Scanning.{head_of};

/// The kind of token that a byte can begin.
#[derive(Clone, Copy, PartialEq, Eq)]
pub(crate) enum Head {
    Lower,
    Upper,
    Quote,
    /// A digit or a sign.
    Numeral,
    /// A symbol, or no token.
    Other,
}

pub(crate) fn head_of(byte: u8) -> Head
    ensures { result ≡ head_of byte }
{
    match byte {
        b'a'..=b'z' => Head::Lower,
        b'A'..=b'Z' => Head::Upper,
        b'"' => Head::Quote,
        b'0'..=b'9' | b'-' => Head::Numeral,
        _ => Head::Other,
    }
}
