//! A script, and the texts of its tokens.

use sqlite_items::at;
use tb_lex::Token;

/// A script, its tokens, and the name of its file.
#[derive(Clone, Copy)]
pub struct Source<'a> {
    /// The name of the file.
    pub name: &'a str,
    /// The bytes of the script.
    pub text: &'a [u8],
    /// The tokens of the script.
    pub tokens: &'a [Token<'a>],
}

impl<'a> Source<'a> {
    /// Returns the text of a token. After the last token, the text is empty.
    pub fn word(&self, token: usize) -> &'a [u8] {
        match at(self.tokens, token) {
            Some(token) => between(self.text, token.from, token.to),
            None => b"",
        }
    }

    /// Returns whether a token has this text.
    pub fn is(&self, token: usize, word: &str) -> bool {
        self.word(token) == word.as_bytes()
    }

    /// Returns whether the token `back` places before this one has this text.
    pub fn has_before(&self, token: usize, back: usize, word: &str) -> bool {
        match token.checked_sub(back) {
            Some(earlier) => self.is(earlier, word),
            None => false,
        }
    }
}

/// Returns whether a word is one of these words.
pub fn is_among(words: &[&'static str], word: &[u8]) -> bool {
    for each in words {
        if each.as_bytes() == word {
            return true;
        }
    }
    false
}

/// Returns the text of this word in a table.
pub fn text_of(
    table: &'static [(&'static str, &'static str)],
    word: &[u8],
) -> Option<&'static str> {
    for (key, text) in table {
        if word == key.as_bytes() {
            return Some(*text);
        }
    }
    None
}

/// Returns the bytes from position `from` to before position `to`, as far as the text has them.
pub fn between(text: &[u8], from: usize, to: usize) -> &[u8] {
    let to = to.min(text.len());
    &text[from.min(to)..to]
}

/// Returns whether a word begins with an upper-case letter of ASCII.
pub fn is_upper(word: &[u8]) -> bool {
    matches!(word, [b'A'..=b'Z', ..])
}

/// Returns whether a word begins with a lower-case letter of ASCII.
pub fn is_lower(word: &[u8]) -> bool {
    matches!(word, [b'a'..=b'z', ..])
}
