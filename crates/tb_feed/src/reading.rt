//! The reading of a feed, line by line.

ghost use Rattle.std.specs.Prelude.{◌≡◌, ◌⊎◌, ℕ, List, Ok, Err, IfOk, IfErr};
ghost use Rattle.tb_log.specs.declared.entry.Input.{Input};
ghost use Rattle.tb_feed.specs.Feeds.{IsFeedOf, IsFirstBad, IsFaultOf};

use crate::fault::FeedFault;
use crate::feed::Feed;
use crate::line::input_of;
use std::alloc::Global;

/// Reads a text of lines. A line ends at a newline, or at the end of the text. Empty lines are ignored. If a line is neither empty nor an
/// input, the error is `Line`, with the number of the first such line, from 1. The error is never `TooLong`.
pub fn read_feed(alloc: Global, bytes: &[u8]) -> Result<Feed, FeedFault>
    ensures ok { IfOk result (IsFeedOf bytes.now) }

    // A text that is a feed is read, unless memory runs out.
    ensures only { (inputs : List Input) → IsFeedOf bytes.now inputs
        → (result ≡ Ok inputs) ⊎ (result ≡ Err FeedFault.NoMemory) }
    ensures fault { IfErr result (IsFaultOf bytes.now) }

    // If a line is bad, the answer is its number, unless memory runs out.
    ensures exact { (number : ℕ) → IsFirstBad bytes.now number
        → (result ≡ Err (FeedFault.Line number)) ⊎ (result ≡ Err FeedFault.NoMemory) }
{
    read(alloc, bytes)
}

fn read(alloc: Global, bytes: &[u8]) -> Result<Feed, FeedFault>
    ensures ok { IfOk result (IsFeedOf bytes.now) }
    ensures fault { IfErr result (IsFaultOf bytes.now) }
{
    let mut inputs = Vec::new(alloc);
    let mut number: u64 = 0;
    for line in bytes.split(|byte| *byte == b'\n') {
        number += 1;
        if line.is_empty() {
            continue;
        }
        match input_of(alloc, line)? {
            Some(input) => inputs.push(input)?,
            None => return Err(FeedFault::Line(number)),
        }
    }
    Ok(Feed::new(alloc, inputs))
}
