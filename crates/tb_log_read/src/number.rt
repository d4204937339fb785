//! Reads the numbers and the places in a line.
ghost use Rattle.std.specs.Prelude.{◌≡◌};
ghost use Rattle.tb_log_read.specs.Helpers.Numbers.{number64, number32, number8, place_of};

use crate::cut::cut;
use tb_log::Place;
use tb_read::digits_value;

/// Returns the value of the digits, or the greatest number of the type if the value is greater.
pub(crate) fn number64(digits: &[u8]) -> u64
    ensures { result ≡ number64 digits.now }
{
    digits_value(digits)
}

fn number32(digits: &[u8]) -> u32
    ensures { result ≡ number32 digits.now }
{
    u32::try_from(number64(digits)).unwrap_or(u32::MAX)
}

pub(crate) fn number8(digits: &[u8]) -> u8
    ensures { result ≡ number8 digits.now }
{
    u8::try_from(number64(digits)).unwrap_or(u8::MAX)
}

/// Returns the place that the word spells: two numbers with a point between them.
pub(crate) fn place_of(word: &[u8]) -> Place
    ensures { result ≡ place_of word.now }
{
    let (proc, atom) = cut(b'.', word);
    Place {
        proc: number32(proc),
        atom: number32(atom),
    }
}
