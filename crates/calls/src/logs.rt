//! Calls of the libraries of logs, of lines of tools, and of feeds.

use crate::fault::Fault;
use crate::texts::{one, said};
use std::alloc::Global;
use tb_feed::{Feed, FeedFault, read_feed};
use tb_log::{Entry, Input, Reply, ToolLine, is_in_shape, write_entry};
use tb_log_read::{LogFault, Numbered, read_entry, read_log};
use tb_terms::{NoMemory, write_term, write_terms};
use tb_tool_line::read_tool_line;

pub(crate) fn answer(
    alloc: Global,
    name: &str,
    args: &[Vec<u8>],
) -> Result<Option<Vec<u8>>, Fault> {
    let found = match name {
        "read_tool_line" => tool_line(alloc, args),
        "read_feed" => feed(alloc, args),
        "count_feed" => count_feed(alloc, args),
        "read_entry" => entry(alloc, args),
        "read_log" => log(alloc, args),
        _ => return Ok(None),
    };
    Ok(Some(found?))
}

/// Returns the line of a tool that the bytes represent.
fn tool_line(alloc: Global, args: &[Vec<u8>]) -> Result<Vec<u8>, Fault> {
    let line = read_tool_line(alloc, one(args)?)?;
    line_text(alloc, &line)
}

fn line_text(alloc: Global, line: &ToolLine) -> Result<Vec<u8>, Fault> {
    let mut text = Vec::new(alloc);
    match line {
        ToolLine::Value(term) => {
            text.extend_from_slice(b"value ")?;
            write_term(term, &mut text)?;
        }
        ToolLine::Event(terms) => {
            text.extend_from_slice(b"event ")?;
            write_terms(terms, &mut text)?;
        }
        ToolLine::Connect(name) => {
            text.extend_from_slice(b"connect ")?;
            text.extend_from_slice(name.as_bytes())?;
        }
        ToolLine::Disconnect => text.extend_from_slice(b"disconnect")?,
        ToolLine::Bad => text.extend_from_slice(b"bad")?,
    }
    Ok(text)
}

fn feed_fault(alloc: Global, fault: FeedFault) -> Result<Vec<u8>, Fault> {
    match fault {
        FeedFault::Line(number) => {
            let text = format!(in alloc; "line {number}")?;
            said(alloc, text.as_str())
        }
        FeedFault::TooLong(_) => said(alloc, "too long"),
        FeedFault::NoMemory => Err(Fault::NoMemory),
    }
}

/// Returns the log in which each input of a feed is taken.
fn feed(alloc: Global, args: &[Vec<u8>]) -> Result<Vec<u8>, Fault> {
    match read_feed(alloc, one(args)?) {
        Ok(feed) => log_of(alloc, &feed),
        Err(fault) => feed_fault(alloc, fault),
    }
}

fn log_of(alloc: Global, feed: &Feed) -> Result<Vec<u8>, Fault> {
    let mut log = Vec::new(alloc);
    for index in 0..feed.len() {
        write_taken(index as u64 + 1, feed.input(index)?, &mut log)?;
    }
    Ok(log)
}

/// Writes the log line of a taken input.
fn write_taken(number: u64, input: Input, log: &mut Vec<u8>) -> Result<(), NoMemory> {
    let entry = Entry::Fed(input, Reply::Took);
    write_entry(number, &entry, log)
}

/// Returns the number of inputs of a feed.
fn count_feed(alloc: Global, args: &[Vec<u8>]) -> Result<Vec<u8>, Fault> {
    match read_feed(alloc, one(args)?) {
        Ok(feed) => count_text(alloc, feed.len()),
        Err(fault) => feed_fault(alloc, fault),
    }
}

fn count_text(alloc: Global, inputs: usize) -> Result<Vec<u8>, Fault> {
    let text = format!(in alloc; "{inputs} inputs")?;
    said(alloc, text.as_str())
}

/// Returns the line of a copy of the entry that the bytes represent. The entry must be in shape.
fn entry(alloc: Global, args: &[Vec<u8>]) -> Result<Vec<u8>, Fault> {
    match read_entry(alloc, one(args)?)? {
        Some(numbered) => copied_text(alloc, &numbered),
        None => said(alloc, "no entry"),
    }
}

fn copied_text(alloc: Global, numbered: &Numbered) -> Result<Vec<u8>, Fault> {
    if !is_in_shape(&numbered.entry) {
        return said(alloc, "out of shape");
    }
    let copy = numbered.entry.copy(alloc)?;
    entry_text(alloc, numbered.number, &copy)
}

fn entry_text(alloc: Global, number: u64, entry: &Entry) -> Result<Vec<u8>, Fault> {
    let mut text = Vec::new(alloc);
    write_entry(number, entry, &mut text)?;
    Ok(text)
}

/// Returns the text of the log that the bytes represent.
fn log(alloc: Global, args: &[Vec<u8>]) -> Result<Vec<u8>, Fault> {
    match read_log(alloc, one(args)?) {
        Ok(log) => log_text(alloc, log.as_slice()),
        Err(LogFault::Line(number)) => {
            let text = format!(in alloc; "line {number}")?;
            said(alloc, text.as_str())
        }
        Err(LogFault::NoMemory) => Err(Fault::NoMemory),
    }
}

fn log_text(alloc: Global, log: &[Entry]) -> Result<Vec<u8>, Fault> {
    let mut text = Vec::new(alloc);
    for (place, entry) in log.iter().enumerate() {
        write_entry((place as u64).saturating_add(1), entry, &mut text)?;
    }
    Ok(text)
}
