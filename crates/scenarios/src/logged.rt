//! The parts of a log's text.

use crate::live::{lane_of, parted};
use std::alloc::Global;
use tb_terms::NoMemory;

/// Returns the first of the lines that isn't in the log after the lines before it. Entries are compared without their numbers.
pub(crate) fn first_missing<'a>(log: &str, lines: &'a str) -> Option<&'a str> {
    let mut lines = lines.lines();
    let mut wanted = lines.next();
    for entry in log.lines() {
        match wanted {
            Some(line) if line == words_of(entry) => wanted = lines.next(),
            _ => {}
        }
    }
    wanted
}

/// Returns all inputs of a lane, one a line. A dropped input has the reason before it.
pub(crate) fn inputs_of(alloc: Global, log: &str, lane: u8) -> Result<String, NoMemory> {
    let mut inputs = String::new(alloc);
    for entry in log.lines() {
        let words = words_of(entry);
        if input_lane(words) == Some(lane) {
            writeln!(inputs, "{words}")?;
        }
    }
    Ok(inputs)
}

/// Returns all inputs `tick` and `noticks`, taken or dropped.
pub(crate) fn times_of(alloc: Global, log: &str) -> Result<String, NoMemory> {
    let mut times = String::new(alloc);
    for entry in log.lines() {
        let input = input_of(words_of(entry));
        if input == "tick" || input == "noticks" {
            writeln!(times, "{input}")?;
        }
    }
    Ok(times)
}

/// Returns an entry without its number.
fn words_of(entry: &str) -> &str {
    parted(entry).1
}

/// Returns the input of an entry, if the entry has one.
fn input_of(words: &str) -> &str {
    match parted(words) {
        ("drop", dropped) => parted(dropped).1,
        _ => words,
    }
}

/// Returns the lane of an entry's input, if the input has a lane.
fn input_lane(words: &str) -> Option<u8> {
    match parted(input_of(words)) {
        ("line" | "gone" | "cut", rest) => lane_of(parted(rest).0),
        _ => None,
    }
}
