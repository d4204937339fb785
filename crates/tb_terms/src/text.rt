//! Strings of scripts and terms.
ghost use Rattle.std.specs.Prelude.{◌≡◌, ◌↔◌, [], IsTrue, IfOk, Some, None, if◌then◌else◌};
ghost use Rattle.std.specs.List.{list_all};
ghost use Rattle.tb_terms.specs.Names.{is_text_byte, is_text, is_string};

use crate::{Items, NoMemory};
use std::alloc::Global;
use std::marker::Model;

/// A string of a script or a term: well-formed UTF-8. Of the bytes below 32, it can have only tab, newline, and carriage return.
/// Contracts see it as its bytes.
#[derive(Debug, Drop)]
pub struct Text {
    text: String,
}

/// A list of strings.
pub type Texts = Items<Text>;

impl Model for Text {
    ghost use Rattle.std.specs.Prelude.{List, ℕ, IsTrue, string_bytes};
    ghost use Rattle.tb_terms.specs.Names.{is_text};

    ghost Value = { List ℕ };

    ghost view = { λ text. string_bytes text.text };

    ghost invariant = { λ text. IsTrue (is_text (string_bytes text.text)) };
}

impl Text {
    /// Returns the string without bytes. Takes no memory.
    pub fn empty(alloc: Global) -> Text
        ensures { result ≡ [] }
    {
        Text {
            text: String::new(alloc),
        }
    }

    /// Returns the string with these bytes, or `None` if a string can't have one of them.
    pub fn from_str(alloc: Global, text: &str) -> Result<Option<Text>, NoMemory>
        ensures { IfOk result (λ made. made ≡ (if is_text text.now then Some text.now else None)) }
    {
        if !are_text_bytes(text.as_bytes()) {
            return Ok(None);
        }
        let text = String::from_str(alloc, text)?;
        Ok(Some(Text { text }))
    }

    /// Returns the string with these bytes, or `None` if they aren't the bytes of a string. Takes no memory.
    pub fn from_vec(bytes: Vec<u8>) -> Option<Text>
        ensures { result ≡ (if is_string bytes.items then Some bytes.items else None) }
    {
        if !are_text_bytes(bytes.as_slice()) {
            return None;
        }
        match String::from_utf8(bytes) {
            Ok(text) => Some(Text { text }),
            Err(_) => None,
        }
    }

    /// Returns the string as a `str`.
    pub fn as_str(&self) -> &str
        ensures value { result.now ≡ self.now }
        ensures form { IsTrue (is_text self.now) }
    {
        self.text.as_str()
    }

    /// Returns the bytes of the string. Takes no memory.
    pub fn into_vec(self) -> Vec<u8>
        ensures { result.items ≡ self }
    {
        self.text.into_bytes()
    }

    /// Returns the bytes of the string.
    pub fn as_bytes(&self) -> &[u8]
        ensures { result.now ≡ self.now }
    {
        self.text.as_bytes()
    }

    /// Returns whether both strings have the same bytes.
    pub fn is_same(&self, other: &Text) -> bool
        ensures { IsTrue result ↔ (self.now ≡ other.now) }
    {
        self.as_bytes() == other.as_bytes()
    }

    /// Returns the same string in memory of its own.
    pub fn copy(&self, alloc: Global) -> Result<Text, NoMemory>
        ensures { IfOk result (λ copy. copy ≡ self.now) }
    {
        let text = String::from_str(alloc, self.text.as_str())?;
        Ok(Text { text })
    }
}

fn are_text_bytes(bytes: &[u8]) -> bool
    ensures { result ≡ is_text bytes.now }
{
    for byte in bytes {
        if !is_one_text_byte(*byte) {
            return false;
        }
    }
    true
}

fn is_one_text_byte(byte: u8) -> bool
    ensures { result ≡ is_text_byte byte }
{
    byte >= 32 || byte == b'\t' || byte == b'\n' || byte == b'\r'
}
