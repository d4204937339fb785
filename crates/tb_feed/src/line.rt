//! How one line is read.

ghost use Rattle.std.specs.Prelude.{◌≡◌, [], ◌∷◌, ◌++◌, IsTrue, IfOk, codes};
ghost use Rattle.std.specs.Option.{MatchOption};
ghost use Rattle.tb_feed.specs.Helpers.OneLine.{IsSaid, IsNumberOf, lacks_blank};

use std::alloc::Global;
use tb_log::Input;
use tb_terms::NoMemory;
use tb_tool_line::read_tool_line;

/// Returns the input of a line. If the line has none, returns `None`.
pub(crate) fn input_of(alloc: Global, line: &[u8]) -> Result<Option<Input>, NoMemory>
    ensures { IfOk result (IsSaid line.now) }
{
    if line == b"tick".as_slice() {
        Ok(Some(Input::Tick))
    } else if let Some(rest) = line.strip_prefix(b"line ") {
        tool_input(alloc, rest)
    } else if let Some(rest) = line.strip_prefix(b"gone ") {
        Ok(lane_of(rest).map(Input::Gone))
    } else if let Some(rest) = line.strip_prefix(b"cut ") {
        Ok(lane_of(rest).map(Input::Cut))
    } else {
        Ok(None)
    }
}

/// Returns the input of a line of a tool. `rest` is the text after `line` and its space.
fn tool_input(alloc: Global, rest: &[u8]) -> Result<Option<Input>, NoMemory>
    ensures { IfOk result (IsSaid (codes "line " ++ rest.now)) }
{
    match at_blank(rest) {
        Some((number, text)) => match lane_of(number) {
            Some(lane) => Ok(Some(Input::Line(lane, read_tool_line(alloc, text)?))),
            None => Ok(None),
        },
        None => Ok(None),
    }
}

/// Returns the lane whose decimal number the bytes are.
fn lane_of(bytes: &[u8]) -> Option<u8>
    ensures { IsNumberOf bytes.now result }
{
    match bytes.len() {
        1 => below_ten(bytes[0]),
        2 if bytes[0] == b'1' => from_ten(bytes[1]),
        _ => None,
    }
}

/// Returns the lane whose number is this digit.
fn below_ten(digit: u8) -> Option<u8>
    ensures { IsNumberOf (digit ∷ []) result }
{
    match digit {
        b'1'..=b'9' => Some(digit - b'0'),
        _ => None,
    }
}

/// Returns the lane whose number is a 1 and this digit.
fn from_ten(digit: u8) -> Option<u8>
    ensures { IsNumberOf (49 ∷ digit ∷ []) result }
{
    match digit {
        b'0'..=b'6' => Some(digit - b'0' + 10),
        _ => None,
    }
}

/// Splits the bytes on the first space.
fn at_blank(bytes: &[u8]) -> Option<(&[u8], &[u8])>
    ensures { MatchOption result (IsTrue (lacks_blank bytes.now)) (λ parts.
        IsTrue (lacks_blank parts.0.now) × (bytes.now ≡ parts.0.now ++ 32 ∷ parts.1.now)) }
{
    for (position, byte) in bytes.iter().enumerate() {
        if *byte == b' ' {
            return Some((&bytes[..position], &bytes[position + 1..]));
        }
    }
    None
}
