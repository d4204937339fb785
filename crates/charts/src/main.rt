//! Draws the charts that `index` names, and compares each with its expected text. Each line of `index` has the form, the script, the log,
//! the numbers of the first and the last entry (`0 0` for the whole log), and the file with the expected text. If the bus began with
//! commands, their number follows.
#![tactic(auto)]

use std::alloc::Global;
use std::{fs, io};
use tb_cases::Tally;
use tb_chart::{Cast, ChartFault, Span, chart_of};
use tb_chart_cast::load_cast;
use tb_chart_draw::{Output, write_chart};
use tb_log::Entry;
use tb_log_read::{LogFault, read_log};

fn main(rt: HostRuntime) -> io::Result<()> {
    let mut tally = Tally::new();
    let index = fs::read_to_string(&rt, "index")?;
    for line in index.lines() {
        if line.is_empty() {
            continue;
        }
        let is_same = is_as_expected(&rt, line)?;
        if !is_same {
            println!(rt; "{line}: it is another")?;
        }
        tally.count(is_same);
    }
    println!(rt; "{} passed, {} failed", tally.passed, tally.failed)
}

/// Returns whether the chart of a line has the expected text. If the log has an error, the expected text is the number of its line.
fn is_as_expected(rt: &HostRuntime, line: &str) -> io::Result<bool> {
    let mut words = line.split(' ');
    let (Some(form), Some(script), Some(log)) = (words.next(), words.next(), words.next()) else {
        return Ok(false);
    };
    let (Some(from), Some(to), Some(expected)) = (words.next(), words.next(), words.next()) else {
        return Ok(false);
    };
    let commands = words.next().unwrap_or("0").parse::<usize>().unwrap_or(0);
    let source = fs::read(rt, script)?;
    let bytes = fs::read(rt, log)?;
    let expected = fs::read(rt, expected)?;
    let subject = Subject {
        output: output_of(form),
        title: log.as_bytes(),
        source: source.as_slice(),
        span: span_of(from, to),
        commands,
    };
    match drawn(rt.alloc(), &subject, bytes.as_slice()) {
        Ok(found) => Ok(found.as_slice() == expected.as_slice()),
        Err(ChartFault::Line(number)) => {
            let fault = format!(in rt.alloc(); "line {number}\n")?;
            Ok(fault.as_bytes() == expected.as_slice())
        }
        Err(ChartFault::NoMemory) => Ok(false),
    }
}

fn span_of(from: &str, to: &str) -> Span {
    let (from, to) = (
        from.parse::<u64>().unwrap_or(0),
        to.parse::<u64>().unwrap_or(0),
    );
    Span {
        from,
        to: if to == 0 { u64::MAX } else { to },
        all: from == 0 && to == 0,
    }
}

fn output_of(form: &str) -> Output {
    match form {
        "text" => Output::Text,
        "html" => Output::Html,
        "json" => Output::Json,
        _ => Output::Svg,
    }
}

/// The input of a chart, except its log.
#[derive(Clone, Copy)]
struct Subject<'a> {
    output: Output,
    title: &'a [u8],
    source: &'a [u8],
    span: Span,
    /// The number of commands with which the bus began.
    commands: usize,
}

/// Returns the chart of a log.
fn drawn(alloc: Global, subject: &Subject, log: &[u8]) -> Result<Vec<u8>, ChartFault> {
    let Ok(cast) = load_cast(alloc, subject.source) else {
        return Err(ChartFault::Line(0));
    };
    match read_log(alloc, log) {
        Ok(entries) => drawn_entries(alloc, subject, &cast, entries.as_slice()),
        Err(LogFault::Line(number)) => Err(ChartFault::Line(number)),
        Err(LogFault::NoMemory) => Err(ChartFault::NoMemory),
    }
}

fn drawn_entries(
    alloc: Global,
    subject: &Subject,
    cast: &Cast,
    entries: &[Entry],
) -> Result<Vec<u8>, ChartFault> {
    let chart = chart_of(alloc, cast, subject.commands, entries, subject.span)?;
    let mut into = Vec::new(alloc);
    write_chart(
        alloc,
        subject.output,
        subject.title,
        subject.source,
        cast,
        &chart,
        &mut into,
    )?;
    Ok(into)
}
