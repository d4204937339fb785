//! How the feed with the inputs of a log is written.

ghost use Rattle.std.specs.Prelude.{◌≡◌, ◌++◌, ◌∷◌, [], ℕ, List, length, decimal, ◌+◌, ◌≤◌, IfOk, IfErr, OnOk, true};
ghost use Rattle.std.specs.List.{All, flat_map};
ghost use Rattle.tb_feed.specs.Feeds.{IsFeedOf};
ghost use Rattle.tb_log.specs.LogText.{log_text};
ghost use Rattle.tb_log.specs.Shapes.{InShape, IsInputInShape, IsLane};
ghost use Rattle.tb_log.specs.declared.entry.Entry.{Entry};
ghost use Rattle.tb_log_read.specs.Lines.{IsLog};
ghost use Rattle.tb_refeed.specs.Feeding.{came_in, feed_line, feed_text, HasFault, IsTooLongAt};
ghost use Rattle.tb_refeed.specs.Helpers.Writing.{IsCaused, are_short, entry_line, is_short, is_short_input};

use crate::fault::RefeedFault;
use std::alloc::Global;
use tb_edge::MOST_LINE;
use tb_log::{Entry, Input, Reply, Seen, write_seen};
use tb_log_read::read_log;
use tb_terms::NoMemory;

/// The number of bytes around the words of an entry in a log line with the number 0: `0`, a space, and the newline.
const AROUND: usize = 3;

/// The number of bytes before the tool's line in the words of an input (`line 3 ...`), without the digits of the lane's number.
const BEFORE: usize = 6;

/// Returns the feed that has the inputs of a log, given as the log's text: a line for each input, in order, whether the bus accepted or
/// dropped it. The feed omits the end of ticks (`noticks`), because no line of a feed represents it. A simulation delivers the end of
/// ticks after its feed.
pub fn refeed(alloc: Global, log: &[u8]) -> Result<Vec<u8>, RefeedFault>
    ensures feed { IfOk result (λ feed. (entries : List Entry) × IsLog entries
        × (log.now ≡ log_text entries) × IsFeedOf feed.items (came_in entries)) }
    ensures text { (entries : List Entry) → IsLog entries → log.now ≡ log_text entries
        → IfOk result (λ feed. feed.items ≡ feed_text (came_in entries)) }
    ensures fault { IfErr result (HasFault log.now) }

    // If the bytes are the text of a log without a line that is too long, the call returns a feed or `NoMemory`.
    ensures only { (entries : List Entry) → IsLog entries → log.now ≡ log_text entries
        → ((number : ℕ) → IsTooLongAt entries number → ⊥)
        → IfErr result (λ fault. fault ≡ RefeedFault.NoMemory) }
{
    let entries = read_log(alloc, log)?;
    write_feed(alloc, entries.as_slice())
}

/// Returns the feed lines of the inputs of these entries. Returns `TooLong` at the first input whose line is too long.
fn write_feed(alloc: Global, entries: &[Entry]) -> Result<Vec<u8>, RefeedFault>
    requires { All InShape entries.now }
    ensures text { IfOk result (λ feed. feed.items ≡ flat_map entry_line entries.now) }
    ensures short { OnOk result (are_short entries.now ≡ true) }
    ensures fault { IfErr result (IsCaused entries.now) }
{
    let mut feed = Vec::new(alloc);
    let mut line = Vec::new(alloc);
    for (index, entry) in entries.iter().enumerate() {
        if !push_entry(entry, &mut line, &mut feed)? {
            return Err(RefeedFault::TooLong(index as u64 + 1));
        }
    }
    Ok(feed)
}

/// Appends the feed line of an entry's input, if the entry has an input that a feed represents. Returns `false` if the line is too long;
/// the feed is then unchanged.
fn push_entry(entry: &Entry, line: &mut Vec<u8>, feed: &mut Vec<u8>) -> Result<bool, NoMemory>
    requires { InShape entry.now }
    ensures short { IfOk result (λ short. short ≡ is_short entry.now) }
    ensures text { IfOk result
        (λ short. short ≡ true → feed.new.items ≡ feed.old.items ++ entry_line entry.now) }
{
    match entry {
        Entry::Did(_) | Entry::Quiet | Entry::Gave(_, _) => Ok(true),
        Entry::Fed(Input::NoTicks, _) => Ok(true),
        Entry::Fed(input, _) => push_input(input, line, feed),
    }
}

/// Appends the feed line of an input: the input's line of the log, without the number. Returns `false` if the line is too long; the feed
/// is then unchanged.
fn push_input(input: &Input, line: &mut Vec<u8>, feed: &mut Vec<u8>) -> Result<bool, NoMemory>
    requires { IsInputInShape input.now }
    ensures short { IfOk result (λ short. short ≡ is_short_input input.now) }
    ensures text { IfOk result
        (λ short. short ≡ true → feed.new.items ≡ feed.old.items ++ feed_line input.now) }
{
    line.clear();
    write_seen(0, &Seen::Fed(input, Reply::Took), line)?;
    if !is_within(input, line.len()) {
        return Ok(false);
    }
    feed.extend_from_slice(&line.as_slice()[2..])?;
    Ok(true)
}

/// Returns whether an input is short enough for a feed. `bytes` is the length of its line in a log, with the number 0.
fn is_within(input: &Input, bytes: usize) -> bool
    requires shape { IsInputInShape input.now }
    requires long { bytes ≡ length (feed_line input.now) + 2 }
    ensures { result ≡ is_short_input input.now }
{
    match input {
        Input::Line(lane, _) => bytes <= MOST_LINE + AROUND + BEFORE + number_len(*lane),
        Input::Tick | Input::NoTicks | Input::Gone(_) | Input::Cut(_) => true,
    }
}

/// Returns the number of digits of a lane's number.
fn number_len(lane: u8) -> usize
    requires { IsLane lane }
    ensures value { result ≡ length (decimal lane) }
    ensures few { result ≤ 2 }
{
    if lane < 10 { 1 } else { 2 }
}
