//! A chart as one HTML page without other files: the data of the chart, within a page that draws it.

use crate::label::{Texts, head_name, place_number};
use crate::page::{PAGE_AFTER, PAGE_BEFORE};
use crate::push::{Form, push_filled, push_formed, push_number, push_text};
use std::alloc::Global;
use tb_chart::{ArrowKind, Cast, Chart, Figure, Row, Site, Spot, drawn_rows, figure_of};
use tb_log::{Entry, LabelKind, Place};
use tb_terms::NoMemory;

/// Appends the page with the chart and the source of its script.
pub(crate) fn write_html(
    alloc: Global,
    title: &[u8],
    source: &[u8],
    cast: &Cast,
    chart: &Chart,
    into: &mut Vec<u8>,
) -> Result<(), NoMemory> {
    push_text(PAGE_BEFORE, into)?;
    write_data(alloc, title, source, cast, chart, into)?;
    push_text(PAGE_AFTER, into)
}

/// Appends the data of the page, as JSON.
pub(crate) fn write_data(
    alloc: Global,
    title: &[u8],
    source: &[u8],
    cast: &Cast,
    chart: &Chart,
    into: &mut Vec<u8>,
) -> Result<(), NoMemory> {
    push_text(b"{\"title\":", into)?;
    push_string(title, into)?;
    push_text(b",\"source\":", into)?;
    push_string(source, into)?;
    push_text(b",\"atoms\":[", into)?;
    push_bodies(cast, into)?;
    push_text(b"],\"lines\":[", into)?;
    push_lines(cast, chart, into)?;
    push_text(b"],\"rows\":[\n", into)?;
    push_rows(alloc, chart, into)?;
    push_text(b"]}", into)
}

fn push_string(text: &[u8], into: &mut Vec<u8>) -> Result<(), NoMemory> {
    push_text(b"\"", into)?;
    push_formed(Form::Json, text, into)?;
    push_text(b"\"", into)
}

/// Appends a comma before each item but the first.
fn push_comma(index: usize, comma: &[u8], into: &mut Vec<u8>) -> Result<(), NoMemory> {
    if index == 0 {
        return Ok(());
    }
    push_text(comma, into)
}

/// Appends the places of the atoms of each process definition.
fn push_bodies(cast: &Cast, into: &mut Vec<u8>) -> Result<(), NoMemory> {
    for (index, role) in cast.roles.iter().enumerate() {
        push_comma(index, b",", into)?;
        push_sites(role.sites.as_slice(), into)?;
    }
    Ok(())
}

/// Appends the position of the first byte of each atom's token, and the position after the token.
fn push_sites(sites: &[Site], into: &mut Vec<u8>) -> Result<(), NoMemory> {
    push_text(b"[", into)?;
    for (index, site) in sites.iter().enumerate() {
        push_comma(index, b",", into)?;
        push_filled(b"#,#", &[site.from, site.to], into)?;
    }
    push_text(b"]", into)
}

fn push_lines(cast: &Cast, chart: &Chart, into: &mut Vec<u8>) -> Result<(), NoMemory> {
    for column in 0..chart.lines.columns() {
        push_comma(column, b",", into)?;
        push_lifeline(cast, chart, chart.lines.spot_at(column), into)?;
    }
    Ok(())
}

/// Appends a lifeline: whether it is of a process, of notes or of a tool, its name, and the number of the process or of the lane (0 for
/// notes).
fn push_lifeline(
    cast: &Cast,
    chart: &Chart,
    spot: Spot,
    into: &mut Vec<u8>,
) -> Result<(), NoMemory> {
    let word: &[u8] = match spot {
        Spot::Process(_) => b"[\"process\",",
        Spot::Notes => b"[\"notes\",",
        Spot::Tool(_) => b"[\"tool\",",
    };
    push_text(word, into)?;
    push_string(head_name(cast, chart, spot), into)?;
    push_text(b",", into)?;
    push_number(place_number(chart, spot).unwrap_or(0), into)?;
    push_text(b"]", into)
}

fn push_rows(alloc: Global, chart: &Chart, into: &mut Vec<u8>) -> Result<(), NoMemory> {
    let drawn = drawn_rows(alloc, chart)?;
    let mut texts = Texts::new(alloc);
    for (index, part) in drawn.iter().enumerate() {
        if let Some(row) = chart.rows.get(part.index) {
            push_comma(index, b",\n", into)?;
            texts.write(row, *part)?;
            push_row(chart, row, &texts, into)?;
        }
    }
    Ok(())
}

/// Appends a row: its number and kind, the columns of its two lifelines, its line of the log, its label, and the definition and the atom
/// of each process that takes part. A row without lifelines has the columns -1.
fn push_row(chart: &Chart, row: &Row, texts: &Texts, into: &mut Vec<u8>) -> Result<(), NoMemory> {
    push_text(b"[", into)?;
    push_number(row.number, into)?;
    push_text(b",\"", into)?;
    push_text(kind_name(row.entry), into)?;
    push_text(b"\",", into)?;
    match row.ends {
        Some((from, to)) => {
            push_filled(
                b"#,#",
                &[chart.lines.column(from), chart.lines.column(to)],
                into,
            )?;
        }
        None => push_text(b"-1,-1", into)?,
    }
    push_text(b",", into)?;
    push_string(texts.line.as_slice(), into)?;
    push_text(b",", into)?;
    push_string(texts.label.as_slice(), into)?;
    push_atoms(row, into)?;
    push_text(b"]", into)
}

/// Returns the word that tells the page how to draw an entry.
fn kind_name(entry: &Entry) -> &'static [u8] {
    match figure_of(entry) {
        Figure::Arrow(kind, _, _) => arrow_name(kind),
        Figure::Mark(_) | Figure::Hidden => b"mark",
        Figure::Stop(_) => b"stop",
        Figure::Lost(_) => b"lost",
        Figure::Time => b"tick",
        Figure::Rule => b"rule",
    }
}

fn arrow_name(kind: ArrowKind) -> &'static [u8] {
    match kind {
        ArrowKind::Message => b"message",
        ArrowKind::Note => b"note",
        ArrowKind::Question => b"question",
        ArrowKind::Answer => b"answer",
        ArrowKind::Event => b"event",
        ArrowKind::Order => b"order",
        ArrowKind::Start => b"start",
        ArrowKind::End => b"end",
    }
}

/// Appends the places of a step: the process definition and the atom. A message has two places.
fn push_atoms(row: &Row, into: &mut Vec<u8>) -> Result<(), NoMemory> {
    let Entry::Did(label) = row.entry else {
        return Ok(());
    };
    push_atom(row.bodies.0, label.from, into)?;
    match label.kind {
        LabelKind::Msg => push_atom(row.bodies.1, label.to, into),
        _ => Ok(()),
    }
}

fn push_atom(body: Option<u32>, place: Place, into: &mut Vec<u8>) -> Result<(), NoMemory> {
    match body {
        Some(body) => push_filled(b",#,#", &[body as usize, place.atom as usize], into),
        None => Ok(()),
    }
}
