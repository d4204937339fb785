//! A chart for a terminal: a line for each row, with its text after the lifelines.

use crate::label::{Texts, head_name, push_head_place};
use crate::push::{Form, chars, push_blanks, push_number, push_short, push_text};
use crate::svg::is_narrow;
use std::alloc::Global;
use tb_chart::{ArrowKind, Cast, Chart, Figure, Row, drawn_rows, figure_of};
use tb_terms::NoMemory;

/// The number of rows after which the heads are repeated.
const ROWS: usize = 40;

/// The least width of a column, in characters.
const LEAST_WIDTH: usize = 8;

/// The greatest width of a column, in characters.
const MOST_WIDTH: usize = 18;

/// The layout of a line.
#[derive(Clone, Copy)]
struct Ruler {
    /// The number of lifelines.
    columns: usize,
    /// The number of characters of the greatest row number.
    digits: usize,
    /// The width of a column, in characters.
    width: usize,
}

impl Ruler {
    /// Returns the position at which the first column begins.
    fn left(&self) -> usize {
        self.digits.saturating_add(1)
    }

    /// Returns the position at which a column begins.
    fn start(&self, column: usize) -> usize {
        self.left()
            .saturating_add(column.saturating_mul(self.width))
    }

    /// Returns the middle of a column.
    fn middle(&self, column: usize) -> usize {
        self.start(column).saturating_add(self.width / 2)
    }
}

/// Buffers that are used again for each line.
#[derive(Drop)]
struct Sheet {
    line: Vec<u8>,
    part: Vec<u8>,
}

/// Appends the chart as lines of text.
pub(crate) fn write_text(
    alloc: Global,
    cast: &Cast,
    chart: &Chart,
    into: &mut Vec<u8>,
) -> Result<(), NoMemory> {
    let mut sheet = Sheet {
        line: Vec::new(alloc),
        part: Vec::new(alloc),
    };
    let ruler = ruler_of(cast, chart, &mut sheet.part)?;
    if chart.rows.is_empty() {
        push_heads(cast, chart, ruler, &mut sheet, into)?;
    }
    push_rows(alloc, cast, chart, ruler, &mut sheet, into)
}

fn push_rows(
    alloc: Global,
    cast: &Cast,
    chart: &Chart,
    ruler: Ruler,
    sheet: &mut Sheet,
    into: &mut Vec<u8>,
) -> Result<(), NoMemory> {
    let drawn = drawn_rows(alloc, chart)?;
    let mut texts = Texts::new(alloc);
    for (index, part) in drawn.iter().enumerate() {
        if index % ROWS == 0 {
            push_block(cast, chart, ruler, index, sheet, into)?;
        }
        if let Some(row) = chart.rows.get(part.index) {
            texts.write(row, *part)?;
            push_row(chart, ruler, row, sheet, into)?;
            push_text(texts.label.as_slice(), into)?;
            push_text(b"\n", into)?;
        }
    }
    Ok(())
}

/// Appends the heads, with an empty line before them if rows come before.
fn push_block(
    cast: &Cast,
    chart: &Chart,
    ruler: Ruler,
    index: usize,
    sheet: &mut Sheet,
    into: &mut Vec<u8>,
) -> Result<(), NoMemory> {
    if index > 0 {
        push_text(b"\n", into)?;
    }
    push_heads(cast, chart, ruler, sheet, into)
}

fn ruler_of(cast: &Cast, chart: &Chart, part: &mut Vec<u8>) -> Result<Ruler, NoMemory> {
    let columns = chart.lines.columns();
    let mut width = LEAST_WIDTH;
    for column in 0..columns {
        let spot = chart.lines.spot_at(column);
        part.clear();
        push_head_place(chart, spot, is_narrow(columns), part)?;
        let name = head_name(cast, chart, spot).len();
        width = width.max(name.max(part.len()).saturating_add(2));
    }
    Ok(Ruler {
        columns,
        digits: digits_of(last_number(chart)),
        width: width.min(MOST_WIDTH),
    })
}

fn last_number(chart: &Chart) -> u64 {
    match chart.rows.as_slice().last() {
        Some(row) => row.number,
        None => 1,
    }
}

/// Returns the number of decimal digits of a number.
fn digits_of(number: u64) -> usize {
    let mut digits: usize = 1;
    let mut bound: u64 = 10;
    for _ in 0..19 {
        if number >= bound {
            digits = digits.saturating_add(1);
        }
        bound = bound.saturating_mul(10);
    }
    digits
}

/// Appends two lines: the names of the lifelines, and below each name its process or lane.
fn push_heads(
    cast: &Cast,
    chart: &Chart,
    ruler: Ruler,
    sheet: &mut Sheet,
    into: &mut Vec<u8>,
) -> Result<(), NoMemory> {
    push_names(cast, chart, ruler, sheet, into)?;
    push_places(chart, ruler, sheet, into)
}

fn push_names(
    cast: &Cast,
    chart: &Chart,
    ruler: Ruler,
    sheet: &mut Sheet,
    into: &mut Vec<u8>,
) -> Result<(), NoMemory> {
    sheet.line.clear();
    for column in 0..ruler.columns {
        let name = head_name(cast, chart, chart.lines.spot_at(column));
        push_centred(ruler, column, name, &mut sheet.line)?;
    }
    push_line(sheet, into)
}

fn push_places(
    chart: &Chart,
    ruler: Ruler,
    sheet: &mut Sheet,
    into: &mut Vec<u8>,
) -> Result<(), NoMemory> {
    sheet.line.clear();
    for column in 0..ruler.columns {
        sheet.part.clear();
        let spot = chart.lines.spot_at(column);
        push_head_place(chart, spot, is_narrow(ruler.columns), &mut sheet.part)?;
        push_centred(ruler, column, sheet.part.as_slice(), &mut sheet.line)?;
    }
    push_line(sheet, into)
}

/// Appends a text in the middle of its column. If the text is too long, a sign replaces its end.
fn push_centred(
    ruler: Ruler,
    column: usize,
    text: &[u8],
    line: &mut Vec<u8>,
) -> Result<(), NoMemory> {
    if text.is_empty() {
        return Ok(());
    }
    let most = ruler.width.saturating_sub(2);
    let len = chars(text).min(most);
    let blanks = ruler.width.saturating_sub(len) / 2;
    let start = ruler.start(column).saturating_add(blanks);
    push_blanks(start.saturating_sub(line.len()), line)?;
    push_short(Form::Ascii, most, text, line)
}

fn push_line(sheet: &Sheet, into: &mut Vec<u8>) -> Result<(), NoMemory> {
    push_text(sheet.line.as_slice(), into)?;
    push_text(b"\n", into)
}

/// Appends the number of a row, and its lifelines with the arrow or mark of the row.
fn push_row(
    chart: &Chart,
    ruler: Ruler,
    row: &Row,
    sheet: &mut Sheet,
    into: &mut Vec<u8>,
) -> Result<(), NoMemory> {
    let line = &mut sheet.line;
    line.clear();
    push_blanks(ruler.digits.saturating_sub(digits_of(row.number)), line)?;
    push_number(row.number, line)?;
    push_blanks(ruler.start(ruler.columns).saturating_sub(line.len()), line)?;
    for column in 0..ruler.columns {
        put(line, ruler.middle(column), b'|');
    }
    match row.ends {
        Some((from, to)) => {
            let from = ruler.middle(chart.lines.column(from));
            let to = ruler.middle(chart.lines.column(to));
            put_arrow(figure_of(row.entry), from, to, line);
        }
        None => {
            let byte = rule_byte(figure_of(row.entry));
            put_all(line, ruler.left(), ruler.start(ruler.columns), byte);
        }
    }
    push_text(line.as_slice(), into)?;
    push_text(b" ", into)
}

/// Writes a byte at a position, if the position is within the line.
fn put(line: &mut Vec<u8>, at: usize, byte: u8) {
    if let Some(place) = line.get_mut(at) {
        *place = byte;
    }
}

fn put_all(line: &mut Vec<u8>, from: usize, to: usize, byte: u8) {
    for at in from..to {
        put(line, at, byte);
    }
}

/// Writes an arrow between two lifelines, or a mark on one.
fn put_arrow(figure: Figure, from: usize, to: usize, line: &mut Vec<u8>) {
    let byte = line_byte(figure);
    if from < to {
        put_all(line, from.saturating_add(1), to, byte);
        put(line, to.saturating_sub(1), b'>');
    } else if to < from {
        put_all(line, to.saturating_add(1), from, byte);
        put(line, to.saturating_add(1), b'<');
    } else {
        put(line, from, mark_byte(figure));
    }
}

fn line_byte(figure: Figure) -> u8 {
    match figure {
        Figure::Arrow(ArrowKind::Note, _, _) => b'.',
        Figure::Arrow(ArrowKind::Answer, _, _) => b'~',
        Figure::Arrow(ArrowKind::Start | ArrowKind::End, _, _) => b'=',
        _ => b'-',
    }
}

fn rule_byte(figure: Figure) -> u8 {
    match figure {
        Figure::Time => b'-',
        _ => b'=',
    }
}

fn mark_byte(figure: Figure) -> u8 {
    match figure {
        Figure::Stop(_) => b'X',
        Figure::Lost(_) => b'x',
        _ => b'*',
    }
}
