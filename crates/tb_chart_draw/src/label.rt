//! The texts of a chart: the texts of its rows, and the heads of its lifelines.

use crate::push::{push_number, push_text};
use std::alloc::Global;
use tb_chart::{Cast, Chart, Drawn, Row, Spot};
use tb_log::{Entry, Input, LabelKind, Out, Reply, kind_word, write_entry};
use tb_terms::NoMemory;

/// The texts of one row. Their memory is used again for the next row.
#[derive(Drop)]
pub(crate) struct Texts {
    /// The line of the log, without its newline.
    pub line: Vec<u8>,
    /// The label, which is written at the arrow.
    pub label: Vec<u8>,
}

impl Texts {
    /// Returns empty texts.
    pub(crate) fn new(alloc: Global) -> Texts {
        Texts {
            line: Vec::new(alloc),
            label: Vec::new(alloc),
        }
    }

    /// Replaces the texts by those of this row. A drawn row can represent several ticks.
    pub(crate) fn write(&mut self, row: &Row, drawn: Drawn) -> Result<(), NoMemory> {
        self.write_row(row)?;
        if drawn.ticks > 1 {
            self.write_ticks(drawn)?;
        }
        Ok(())
    }

    /// Replaces the label by the number of ticks, and the number of the last one.
    fn write_ticks(&mut self, drawn: Drawn) -> Result<(), NoMemory> {
        self.label.clear();
        push_number(drawn.ticks, &mut self.label)?;
        push_text(b" ticks, to ", &mut self.label)?;
        push_number(drawn.last, &mut self.label)
    }

    fn write_row(&mut self, row: &Row) -> Result<(), NoMemory> {
        self.line.clear();
        write_entry(row.number, row.entry, &mut self.line)?;
        self.line.pop();
        self.label.clear();
        push_text(word_of(row.entry), &mut self.label)?;
        let rest = behind_words(self.line.as_slice(), skipped_words(row.entry));
        if !self.label.is_empty() && !rest.is_empty() {
            push_text(b" ", &mut self.label)?;
        }
        push_text(rest, &mut self.label)
    }
}

/// Returns the word before the terms of a step. A message needs none.
fn word_of(entry: &Entry) -> &'static [u8] {
    match entry {
        Entry::Did(label) => match label.kind {
            LabelKind::Msg => b"",
            kind => kind_word(kind),
        },
        _ => b"",
    }
}

/// Returns the number of words of an entry's line that the label leaves out: its number, its kind, and the parties.
fn skipped_words(entry: &Entry) -> usize {
    match entry {
        Entry::Did(label) => match label.kind {
            LabelKind::Msg => 4,
            LabelKind::Finish | LabelKind::Halt => 2,
            _ => 3,
        },
        Entry::Fed(Input::Line(_, _), Reply::Took) => 3,
        Entry::Gave(_, Out::Start(_)) => 3,
        Entry::Quiet | Entry::Fed(_, _) | Entry::Gave(_, _) => 1,
    }
}

/// Returns the part of a line after this number of words, each with its space.
fn behind_words(line: &[u8], words: usize) -> &[u8] {
    let mut left = words;
    for (place, byte) in line.iter().enumerate() {
        if left == 0 {
            return &line[place..];
        }
        if *byte == b' ' {
            left = left.saturating_sub(1);
        }
    }
    &line[line.len()..]
}

/// Returns the name of a lifeline.
pub(crate) fn head_name<'a>(cast: &'a Cast, chart: &Chart, spot: Spot) -> &'a [u8] {
    match spot {
        Spot::Process(index) => match chart.lines.processes.get(index) {
            Some(line) => cast.process_name(line.body),
            None => b"?",
        },
        Spot::Notes => b"notes",
        Spot::Tool(index) => match chart.lines.tools.get(index) {
            Some(line) => kind_name(cast, line.kind),
            None => b"?",
        },
    }
}

fn kind_name(cast: &Cast, kind: Option<u32>) -> &[u8] {
    match kind {
        Some(kind) => cast.tool_name(kind),
        None => b"-",
    }
}

/// Appends the process or the lane of a lifeline. If the lifelines are close, a process has only its number.
pub(crate) fn push_head_place(
    chart: &Chart,
    spot: Spot,
    is_narrow: bool,
    into: &mut Vec<u8>,
) -> Result<(), NoMemory> {
    let word: &[u8] = match spot {
        Spot::Process(_) if !is_narrow => b"process ",
        Spot::Process(_) | Spot::Notes => b"",
        Spot::Tool(_) => b"lane ",
    };
    push_text(word, into)?;
    match place_number(chart, spot) {
        Some(number) => push_number(number, into),
        None => Ok(()),
    }
}

/// Returns the number of the process or of the lane of a lifeline.
pub(crate) fn place_number(chart: &Chart, spot: Spot) -> Option<u64> {
    match spot {
        Spot::Process(index) => Some(u64::from(chart.lines.processes.get(index)?.number)),
        Spot::Notes => None,
        Spot::Tool(index) => Some(u64::from(chart.lines.tools.get(index)?.lane)),
    }
}
