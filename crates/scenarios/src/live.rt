//! The part of a case about live tools: the inputs of lanes, the failing calls, and the expected lines of the run.

use std::alloc::{AllocError, Global};
use tb_cases::meant;
use tb_edge::{Bytes, Given};
use tb_fake::{Cue, Cues, Fail, Fails};
use tb_terms::Items;

/// The meaning of expected lines.
#[derive(Clone, Copy)]
pub(crate) enum What {
    /// The lines are in the log in this order.
    Order,
    /// The lines are all inputs `tick` and `noticks`, in order.
    Time,
    /// The lines are all inputs of this lane, in order.
    Lane(u8),
    /// The lines are all items that the outlet of this lane took, in order.
    Took(u8),
}

/// Expected lines of a run.
#[derive(Drop)]
pub(crate) struct Wanted {
    pub(crate) what: What,
    pub(crate) lines: Vec<u8>,
}

/// The part of a case about live tools. It is empty if the case doesn't use the lanes.
#[derive(Drop)]
pub(crate) struct Live {
    pub(crate) cues: Cues,
    /// The calls of outlets that must fail.
    pub(crate) fails: Fails,
    /// The number of ticks, which come immediately. If it is absent, no ticks come, and the clock ends after all outlets are closed.
    pub(crate) ticks: Option<u64>,
    /// The number of the clock's call that must fail, from 1, or 0 for none.
    pub(crate) clock_fails: u64,
    pub(crate) has_crew: bool,
    pub(crate) wanted: Vec<Wanted>,
}

impl Live {
    pub(crate) fn new(alloc: Global) -> Live {
        Live {
            cues: Items::new(alloc),
            fails: Items::new(alloc),
            ticks: None,
            clock_fails: 0,
            has_crew: true,
            wanted: Vec::new(alloc),
        }
    }

    /// Reads a cue, such as `2 after 2 of 1 line snd-value(1)`. Returns whether it is valid.
    pub(crate) fn take_cue(&mut self, alloc: Global, text: &str) -> Result<bool, AllocError> {
        match read_cue(alloc, text)? {
            Some(cue) => self.cues.push(cue)?,
            None => return Ok(false),
        }
        Ok(true)
    }

    pub(crate) fn take_ticks(&mut self, text: &str) -> bool {
        self.ticks = text.parse::<u64>().ok();
        self.ticks.is_some()
    }

    /// Reads a failure, such as `lane 1 3`, `clock 2`, or `crew`. Returns whether it is valid.
    pub(crate) fn take_fails(&mut self, thing: &str, rest: &str) -> Result<bool, AllocError> {
        match thing {
            "lane" => self.take_lane_fails(rest),
            "clock" => Ok(self.take_clock_fails(rest)),
            "crew" => {
                self.has_crew = false;
                Ok(rest.is_empty())
            }
            _ => Ok(false),
        }
    }

    fn take_lane_fails(&mut self, text: &str) -> Result<bool, AllocError> {
        let (lane, call) = parted(text);
        let (Some(lane), Ok(call)) = (lane_of(lane), call.parse::<u64>()) else {
            return Ok(false);
        };
        self.fails.push(Fail { lane, call })?;
        Ok(true)
    }

    /// Reads which call of the clock must fail. Without a number of ticks, such a clock gives no ticks.
    fn take_clock_fails(&mut self, text: &str) -> bool {
        let Ok(call) = text.parse::<u64>() else {
            return false;
        };
        self.clock_fails = call;
        self.ticks = Some(self.ticks.unwrap_or(0));
        true
    }

    /// Begins expected lines with this meaning.
    pub(crate) fn want(&mut self, alloc: Global, what: What) -> Result<(), AllocError> {
        let lines = Vec::new(alloc);
        self.wanted.push(Wanted { what, lines })?;
        Ok(())
    }
}

/// Returns the meaning of the lines that follow a line such as `lane 1`.
pub(crate) fn what_of(word: &str, rest: &str) -> Option<What> {
    match (word, rest) {
        ("order", "") => Some(What::Order),
        ("time", "") => Some(What::Time),
        ("lane", _) => lane_of(rest).map(|lane| What::Lane(lane)),
        ("took", _) => lane_of(rest).map(|lane| What::Took(lane)),
        _ => None,
    }
}

/// Returns the text before the first space, and the text after it.
pub(crate) fn parted(text: &str) -> (&str, &str) {
    text.split_once(' ').unwrap_or((text, ""))
}

/// Returns the lane with this number, if the number is from 1 to 16.
pub(crate) fn lane_of(text: &str) -> Option<u8> {
    match text.parse::<u8>() {
        Ok(lane) if (1..=16).contains(&lane) => Some(lane),
        _ => None,
    }
}

fn read_cue(alloc: Global, text: &str) -> Result<Option<Cue>, AllocError> {
    let (lane, rest) = parted(text);
    let (after, rest) = parted(rest);
    let (count, rest) = parted(rest);
    let (of, rest) = parted(rest);
    let (watch, rest) = parted(rest);
    if after != "after" || of != "of" {
        return Ok(None);
    }
    let (Some(lane), Ok(after), Some(watch)) = (
        lane_of(lane),
        count.parse::<usize>(),
        lane_of(watch),
    ) else {
        return Ok(None);
    };
    let Some(gives) = read_given(alloc, rest)? else {
        return Ok(None);
    };
    Ok(Some(Cue {
        lane,
        watch,
        after,
        gives,
    }))
}

fn read_given(alloc: Global, text: &str) -> Result<Option<Given>, AllocError> {
    match parted(text) {
        ("line", line) => match meant(alloc, line)? {
            Some(bytes) => Ok(Some(Given::Line(Bytes::from_vec(bytes)))),
            None => Ok(None),
        },
        ("long", "") => Ok(Some(Given::Long)),
        ("end", "") => Ok(Some(Given::End)),
        _ => Ok(None),
    }
}
