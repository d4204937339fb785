//! The reserved words, the words of types, and the words that the layout of a printed script depends on.

ghost use Rattle.std.specs.Prelude.{◌≡◌, map};
ghost use Rattle.tb_syntax.specs.Words.{is_among, reserved_words, is_sort_word};
ghost use Rattle.tb_syntax.specs.Helpers.TokenText.{definition_words, leading_words};

/// Returns whether a word is reserved: no term, tool, or type can have this name.
pub fn is_reserved(name: &[u8]) -> bool
    ensures { result ≡ is_among reserved_words name.now }
{
    is_among(
        &[
            "process", "is", "tool", "toolbus", "let", "in", "endlet", "if", "then", "else", "fi",
        ],
        name,
    )
}

/// Returns whether a word is the name of a type other than a tool's.
pub fn is_sort_word(name: &[u8]) -> bool
    ensures { result ≡ is_sort_word name.now }
{
    is_among(&["bool", "int", "str", "list", "term"], name)
}

/// Returns whether a word begins a line of a printed script.
pub(crate) fn begins_line(name: &[u8]) -> bool
    ensures { result ≡ is_among definition_words name.now }
{
    is_among(&["process", "tool", "toolbus"], name)
}

/// Returns whether a process can follow the word.
pub(crate) fn is_leading(name: &[u8]) -> bool
    ensures { result ≡ is_among leading_words name.now }
{
    is_among(&["is", "in", "then", "else"], name)
}

fn is_among(words: &[&str], name: &[u8]) -> bool
    ensures { result ≡ is_among (map (λ word. word.now) words.now) name.now }
{
    for word in words {
        if name == word.as_bytes() {
            return true;
        }
    }
    false
}
