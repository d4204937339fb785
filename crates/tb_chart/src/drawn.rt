//! The rows as they are drawn: ticks with no other row between them share one line.
ghost use Rattle.std.specs.Prelude.{◌≡◌, ◌+◌, ◌<◌, ◌^◌, ◌++◌, ◌∷◌, [], All, IfNone, IfOk, IfSome, OnOk, length, slice_index_or, slice_set};
ghost use Rattle.tb_log.specs.Lanes.{is_tick, is_tick_input};
ghost use Rattle.tb_chart.specs.Drawn.{are_ticks, drawn_from, joined, own_line};
ghost use Rattle.tb_chart.specs.Helpers.Additions.{HasFewTicks, JoinsAt, after_lines};

use crate::chart::Chart;
use crate::row::Row;
use std::alloc::Global;
use tb_log::{Entry, Input};
use tb_terms::NoMemory;

/// A row as it is drawn.
#[derive(Clone, Copy)]
pub struct Drawn {
    /// The index of the row, the first one of ticks.
    pub index: usize,
    /// How many ticks it shows, if it shows ticks.
    pub ticks: u64,
    /// The number of the last entry that it shows.
    pub last: u64,
}

/// Returns what is drawn of a chart.
pub fn drawn_rows(alloc: Global, chart: &Chart) -> Result<Vec<Drawn>, NoMemory>
    ensures { IfOk result (λ drawn. drawn.items ≡ drawn_from 0 chart.now.rows.items) }
{
    let mut drawn = Vec::new(alloc);
    for (index, row) in chart.rows.iter().enumerate() {
        add_drawn(own_line(index, row), &mut drawn)?;
    }
    Ok(drawn)
}

/// The line of a row, if ticks don't join it.
fn own_line(index: usize, row: &Row) -> Drawn
    ensures { result ≡ own_line index row.now }
{
    Drawn {
        index,
        ticks: u64::from(is_tick(row.entry)),
        last: row.number,
    }
}

/// Adds a line. Ticks join the line of ticks before them, if there is one.
fn add_drawn(line: Drawn, drawn: &mut Vec<Drawn>) -> Result<(), NoMemory>
    requires few { All (HasFewTicks line.ticks) drawn.old.items }
    ensures { OnOk result (drawn.new.items ≡ after_lines drawn.old.items line) }
{
    match last_ticks(line, drawn.as_slice()) {
        Some(index) => {
            join_at(drawn.as_mut_slice(), index, line);
            Ok(())
        }
        None => {
            drawn.push(line)?;
            Ok(())
        }
    }
}

/// The index of the last line, if it and this line are of ticks.
fn last_ticks(line: Drawn, drawn: &[Drawn]) -> Option<usize>
    ensures some { IfSome result (JoinsAt line drawn.now) }
    ensures none { IfNone result (after_lines drawn.now line ≡ drawn.now ++ line ∷ []) }
{
    let Some(index) = drawn.len().checked_sub(1) else {
        return None;
    };
    if are_ticks(drawn[index], line) {
        Some(index)
    } else {
        None
    }
}

/// Joins ticks to the ticks of a line.
fn join_at(drawn: &mut [Drawn], index: usize, line: Drawn)
    requires within { index < length drawn.old }
    requires few { All (HasFewTicks line.ticks) drawn.old }
    ensures { drawn.new
        ≡ slice_set drawn.old index (joined (slice_index_or drawn.old index line) line) }
{
    drawn[index] = joined(drawn[index], line);
}

fn joined(first: Drawn, second: Drawn) -> Drawn
    requires { first.ticks + second.ticks < 2 ^ 64 }
    ensures { result ≡ joined first second }
{
    Drawn {
        index: first.index,
        ticks: first.ticks + second.ticks,
        last: second.last,
    }
}

fn are_ticks(first: Drawn, second: Drawn) -> bool
    ensures { result ≡ are_ticks first second }
{
    first.ticks > 0 && second.ticks > 0
}

fn is_tick(entry: &Entry) -> bool
    ensures { result ≡ is_tick entry.now }
{
    match entry {
        Entry::Fed(input, _) => is_tick_input(input),
        Entry::Did(_) | Entry::Quiet | Entry::Gave(_, _) => false,
    }
}

fn is_tick_input(input: &Input) -> bool
    ensures { result ≡ is_tick_input input.now }
{
    match input {
        Input::Tick => true,
        Input::NoTicks | Input::Line(_, _) | Input::Gone(_) | Input::Cut(_) => false,
    }
}
