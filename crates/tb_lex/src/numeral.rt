//! Numbers of a script.
ghost use Rattle.std.specs.Prelude.{◌≡◌, ◌≤◌, ◌<◌, ◌-◌, length, IfOk};
ghost use Rattle.tb_lex.specs.Helpers.Scanning.{number_from, number_at};
ghost use Rattle.tb_lex.specs.Helpers.Answers.{Gives};

use crate::{LexFault, TokenKind};
use tb_read::{digits_len, digits_value, is_negative, is_real, number_of, without_sign};

/// Reads the number with whose sign or first digit the bytes begin. Returns it with the bytes after it.
/// A sign without a digit is `BadByte`; a number before a point and a digit is `Real`, whatever its range.
/// `total` is the length of the source: an error has the position of the number's first byte.
pub(crate) fn number_at(total: usize, bytes: &[u8]) -> Result<(TokenKind<'_>, &[u8]), LexFault>
    requires { length bytes.now ≤ total }
    ensures number { Gives (λ x. (x.0, x.1.now)) result (number_at total bytes.now) }
    ensures shorter { IfOk result (λ x. length x.1.now < length bytes.now) }
{
    let negative = is_negative(bytes);
    let unsigned = without_sign(negative, bytes);
    let (digits, rest) = unsigned.split_at(digits_len(unsigned));
    number_from(total - bytes.len(), negative, digits, rest)
}

fn number_from<'a>(
    from: usize,
    negative: bool,
    digits: &[u8],
    rest: &'a [u8],
) -> Result<(TokenKind<'a>, &'a [u8]), LexFault>
    ensures number { Gives (λ x. (x.0, x.1.now)) result
        (number_from from negative digits.now rest.now) }
    ensures some { IfOk result (λ x. (x.1.now ≡ rest.now) × (0 < length digits.now)) }
{
    if digits.is_empty() {
        return Err(LexFault::BadByte(from));
    }
    if is_real(rest) {
        return Err(LexFault::Real(from));
    }
    match number_of(negative, digits_value(digits)) {
        Some(number) => Ok((TokenKind::Int(number), rest)),
        None => Err(LexFault::IntRange(from)),
    }
}
