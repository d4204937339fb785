//! Messages, and the calls that make them.
ghost use Rattle.std.specs.Prelude.{◌≡◌, ◌++◌, decimal};
ghost use Rattle.std.specs.List.{join_with_byte};
ghost use Rattle.tb_message.specs.Messages.{message_text};

use std::slice::from_ref;
use tb_terms::Ident;

/// The text of a line, without the prefix that the program writes first and without the newline.
#[derive(Clone, Copy)]
pub struct Message<'a> {
    /// The fixed words, with the space that separates them from the suffix.
    pub words: &'a [u8],
    /// The suffix, which follows the words.
    pub rest: Rest<'a>,
}

/// The suffix of a message.
#[derive(Clone, Copy)]
pub enum Rest<'a> {
    /// No suffix.
    Nothing,
    /// A number in decimal.
    Number(usize),
    /// Names, joined by commas.
    Names(&'a [Ident]),
}

impl<'a> Message<'a> {
    /// Returns a message of the words alone.
    pub fn plain(words: &'a [u8]) -> Message<'a>
        ensures { message_text result ≡ words.now }
    {
        Message {
            words,
            rest: Rest::Nothing,
        }
    }

    /// Returns a message of the words and a number.
    pub fn numbered(words: &'a [u8], number: usize) -> Message<'a>
        ensures { message_text result ≡ words.now ++ decimal number }
    {
        Message {
            words,
            rest: Rest::Number(number),
        }
    }

    /// Returns a message of the words and names.
    pub fn of_names(words: &'a [u8], names: &'a [Ident]) -> Message<'a>
        ensures { message_text result ≡ words.now ++ join_with_byte 44 names.now }
    {
        Message {
            words,
            rest: Rest::Names(names),
        }
    }

    /// Returns a message of the words and one name.
    pub fn of_name(words: &'a [u8], name: &'a Ident) -> Message<'a>
        ensures { message_text result ≡ words.now ++ name.now }
    {
        Message::of_names(words, from_ref(name))
    }
}
