//! Numbers of a source.
ghost use Rattle.std.specs.Prelude.{◌≡◌, ◌≤◌, ◌<◌, ◌-◌, ◌^◌, min, length, drop, IfOk, IsTrue, if◌then◌else◌};
ghost use Rattle.std.specs.List.{prefix_len};
ghost use Rattle.tb_terms.specs.Names.{is_digit};
ghost use Rattle.tb_read.specs.Lexing.{is_negative, is_real, number_of, number_from, number_at};
ghost use Rattle.tb_read.specs.Spelling.{digits_value};
ghost use Rattle.tb_read.specs.Helpers.Answers.{Gives};

use crate::TermFault;
use crate::token::Token;

/// Returns the number whose sign or first digit is the first byte, and the bytes after the number. `total` is the length of the source.
pub(crate) fn number_at(total: usize, bytes: &[u8]) -> Result<(Token, &[u8]), TermFault>
    requires { length bytes.now ≤ total }
    ensures number { Gives (λ x. (x.0, x.1.now)) result (number_at total bytes.now) }
    ensures shorter { IfOk result (λ x. length x.1.now < length bytes.now) }
{
    let negative = is_negative(bytes);
    let unsigned = without_sign(negative, bytes);
    let len = digits_len(unsigned);
    let position = total - bytes.len();
    let (digits, rest) = unsigned.split_at(len);
    number_from(total, position, negative, digits, rest)
}

/// Returns the bytes after the minus sign if the number is negative, and all bytes otherwise.
pub fn without_sign(negative: bool, bytes: &[u8]) -> &[u8]
    requires { IsTrue negative → 0 < length bytes.now }
    ensures { result.now ≡ drop (if negative then 1 else 0) bytes.now }
{
    if negative { &bytes[1..] } else { bytes }
}

fn number_from<'a>(
    total: usize,
    position: usize,
    negative: bool,
    digits: &[u8],
    rest: &'a [u8],
) -> Result<(Token, &'a [u8]), TermFault>
    requires { length rest.now ≤ total }
    ensures number { Gives (λ x. (x.0, x.1.now)) result
        (number_from total position negative digits.now rest.now) }
    ensures some { IfOk result (λ x. (x.1.now ≡ rest.now) × (0 < length digits.now)) }
{
    if digits.is_empty() {
        return Err(TermFault::Syntax(total - rest.len()));
    }
    if is_real(rest) {
        return Err(TermFault::Real(position));
    }
    match number_of(negative, digits_value(digits)) {
        Some(number) => Ok((Token::Int(number), rest)),
        None => Err(TermFault::IntRange(position)),
    }
}

/// Returns whether the first byte is a minus sign.
pub fn is_negative(bytes: &[u8]) -> bool
    ensures { result ≡ is_negative bytes.now }
{
    match bytes.split_first() {
        Some((first, _rest)) => *first == b'-',
        None => false,
    }
}

/// Returns whether the bytes begin with a point and a digit. A number directly before them is a real.
pub fn is_real(rest: &[u8]) -> bool
    ensures { result ≡ is_real rest.now }
{
    match rest {
        [point, digit, ..] => *point == b'.' && digit.is_ascii_digit(),
        _ => false,
    }
}

/// Returns the number of digits at the beginning of the bytes.
pub fn digits_len(bytes: &[u8]) -> usize
    ensures value { result ≡ prefix_len is_digit bytes.now }
    ensures within { result ≤ length bytes.now }
{
    for (position, byte) in bytes.iter().enumerate() {
        if !byte.is_ascii_digit() {
            return position;
        }
    }
    bytes.len()
}

/// Returns the value of decimal digits. If the value is greater than `u64::MAX`, returns `u64::MAX`.
pub fn digits_value(digits: &[u8]) -> u64
    ensures { result ≡ min (digits_value digits.now) (2 ^ 64 - 1) }
{
    let mut value = 0u64;
    for digit in digits {
        value = value
            .saturating_mul(10)
            .saturating_add(u64::from(digit.saturating_sub(b'0')));
    }
    value
}

/// Returns the number with this sign and this absolute value, or `None` if 64 bits can't hold it.
pub fn number_of(negative: bool, value: u64) -> Option<i64>
    ensures { result ≡ number_of negative value }
{
    if negative {
        0i64.checked_sub_unsigned(value)
    } else {
        i64::try_from(value).ok()
    }
}
