//! Symbols of a script.
ghost use Rattle.std.specs.Prelude.{◌≡◌, ◌≤◌, ℕ, length, Option, Some, None};
ghost use Rattle.tb_lex.specs.Tokens.{symbol_text};
ghost use Rattle.tb_lex.specs.Helpers.Scanning.{begins_with, colon_of, bars_of, greater_of, symbol_of};

/// A symbol of a script.
#[derive(Clone, Copy, Debug, PartialEq, Eq)]
pub enum Symbol {
    /// `(`
    LeftParen,
    /// `)`
    RightParen,
    /// `[`
    LeftBracket,
    /// `]`
    RightBracket,
    /// `{`
    LeftBrace,
    /// `}`
    RightBrace,
    /// `,`
    Comma,
    /// `.`
    Point,
    /// `:`
    Colon,
    /// `:=`
    Assign,
    /// `=`
    Equals,
    /// `?`
    Question,
    /// `+`
    Plus,
    /// `*`
    Star,
    /// `||`
    Bars,
    /// `>>`
    Angles,
    /// `<`
    Less,
    /// `>`
    Greater,
}

/// Returns the longest symbol with which the bytes begin: `byte` is the first of them, and `behind` the bytes after it.
pub(crate) fn symbol_of(byte: u8, behind: &[u8]) -> Option<Symbol>
    ensures { result ≡ symbol_of byte behind.now }
{
    match byte {
        b'(' => Some(Symbol::LeftParen),
        b')' => Some(Symbol::RightParen),
        b'[' => Some(Symbol::LeftBracket),
        b']' => Some(Symbol::RightBracket),
        b'{' => Some(Symbol::LeftBrace),
        b'}' => Some(Symbol::RightBrace),
        b',' => Some(Symbol::Comma),
        b'.' => Some(Symbol::Point),
        b':' => Some(colon_of(behind)),
        b'=' => Some(Symbol::Equals),
        b'?' => Some(Symbol::Question),
        b'+' => Some(Symbol::Plus),
        b'*' => Some(Symbol::Star),
        b'|' => bars_of(behind),
        b'<' => Some(Symbol::Less),
        b'>' => Some(greater_of(behind)),
        _ => None,
    }
}

/// Returns how many bytes the symbol has.
pub(crate) fn symbol_len(symbol: Symbol) -> usize
    ensures { result ≡ length (symbol_text symbol) }
{
    match symbol {
        Symbol::Assign | Symbol::Bars | Symbol::Angles => 2,
        _ => 1,
    }
}

fn colon_of(behind: &[u8]) -> Symbol
    ensures { result ≡ colon_of behind.now }
{
    if begins_with(b'=', behind) {
        Symbol::Assign
    } else {
        Symbol::Colon
    }
}

fn bars_of(behind: &[u8]) -> Option<Symbol>
    ensures { result ≡ bars_of behind.now }
{
    if begins_with(b'|', behind) {
        Some(Symbol::Bars)
    } else {
        None
    }
}

fn greater_of(behind: &[u8]) -> Symbol
    ensures { result ≡ greater_of behind.now }
{
    if begins_with(b'>', behind) {
        Symbol::Angles
    } else {
        Symbol::Greater
    }
}

pub(crate) fn begins_with(byte: u8, bytes: &[u8]) -> bool
    ensures { result ≡ begins_with byte bytes.now }
{
    match bytes.split_first() {
        Some((first, _rest)) => *first == byte,
        None => false,
    }
}
