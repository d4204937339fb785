//! A chart as SVG, in which time runs downwards. The line and the tip of an arrow show its kind without colours.

use crate::label::{Texts, head_name, push_head_place};
use crate::push::{Form, chars, push_filled, push_formed, push_number, push_short, push_text};
use std::alloc::Global;
use tb_chart::{ArrowKind, Cast, Chart, Drawn, Figure, Row, Spot, drawn_rows, figure_of};
use tb_log::Entry;
use tb_terms::NoMemory;

/// The left end of the lifelines' columns. All lengths are in pixels.
const LEFT: usize = 64;

/// The height of the heads of the lifelines.
const HEAD: usize = 60;

/// The height of a row.
const PITCH: usize = 28;

/// The number of rows after which the heads are repeated.
const ROWS: usize = 40;

/// The greatest number of characters of a label that are shown.
const MOST_CHARS: usize = 100;

const STYLE: &[u8] = b"<style>
text{font:12px ui-monospace,'DejaVu Sans Mono',monospace;fill:#111;paint-order:stroke;stroke:#fff;stroke-width:4px;stroke-linejoin:round}
.h{font-weight:bold;text-anchor:middle;stroke:none}
.s{font-size:11px;text-anchor:middle;stroke:none}
.n{font-size:11px;text-anchor:end;fill:#555}
path,rect{fill:none;stroke:#111;stroke-width:1.4px}
.p{fill:#fff;stroke:none}
.b,.c{fill:#fff}
.c{rx:12px;stroke-dasharray:5 3}
.l{stroke:#888;stroke-width:1px;stroke-dasharray:2 3}
.f{fill:#111}
.t{stroke-dasharray:2 3}
.d{stroke-dasharray:8 4}
.a{stroke-dasharray:12 3 2 3}
.r{stroke-width:1px;stroke-dasharray:1 4}
.q{stroke-width:3px}
.x{stroke-width:1.8px}
@media screen and (prefers-color-scheme:dark){
text{fill:#eee;stroke:#1b1b1b}
.n{fill:#aaa}
path,rect{stroke:#eee}
.p,.b,.c{fill:#1b1b1b}
.h,.s,.p{stroke:none}
.l{stroke:#777}
.f{fill:#eee}
}
</style>
";

/// The layout of a drawing.
#[derive(Clone, Copy)]
struct Plan {
    /// The number of lifelines.
    columns: usize,
    /// The distance from one lifeline to the next.
    step: usize,
    /// The total width.
    width: usize,
    /// The total height.
    height: usize,
    /// The number of rows.
    rows: usize,
}

impl Plan {
    /// Returns the middle of a column.
    fn x(&self, column: usize) -> usize {
        LEFT.saturating_add(column.saturating_mul(self.step))
            .saturating_add(self.step / 2)
    }

    /// Returns the right end of the rules.
    fn right(&self) -> usize {
        LEFT.saturating_add(self.columns.max(1).saturating_mul(self.step))
    }
}

/// Appends the chart as a document of SVG with this title.
pub(crate) fn write_svg(
    alloc: Global,
    title: &[u8],
    cast: &Cast,
    chart: &Chart,
    into: &mut Vec<u8>,
) -> Result<(), NoMemory> {
    let drawn = drawn_rows(alloc, chart)?;
    let mut texts = Texts::new(alloc);
    let plan = plan_of(chart, drawn.as_slice(), &mut texts)?;
    push_begin(title, &plan, into)?;
    push_lifelines(&plan, into)?;
    push_all_heads(cast, chart, &plan, into)?;
    push_rows(chart, drawn.as_slice(), &plan, &mut texts, into)?;
    push_text(b"</svg>\n", into)
}

/// Returns the distance between lifelines. The more lifelines there are, the closer they are.
fn step_of(columns: usize) -> usize {
    match columns {
        0..=12 => 150,
        13..=40 => 110,
        _ => 76,
    }
}

/// Returns whether this number of lifelines is so large that shorter texts are written at them.
pub(crate) fn is_narrow(columns: usize) -> bool {
    columns > 12
}

fn plan_of(chart: &Chart, drawn: &[Drawn], texts: &mut Texts) -> Result<Plan, NoMemory> {
    let columns = chart.lines.columns();
    let mut plan = Plan {
        columns,
        step: step_of(columns),
        width: 0,
        height: height_of(drawn.len()),
        rows: drawn.len(),
    };
    plan.width = plan.right().saturating_add(16);
    let mut width = plan.width;
    for part in drawn {
        if let Some(row) = chart.rows.get(part.index) {
            texts.write(row, *part)?;
            width = width.max(end_of(chart, &plan, row, texts.label.as_slice()));
        }
    }
    plan.width = width;
    Ok(plan)
}

fn height_of(rows: usize) -> usize {
    match rows.checked_sub(1) {
        Some(last) => y_of(last).saturating_add(26),
        None => HEAD + 26,
    }
}

/// Returns the middle of the row with this index.
fn y_of(index: usize) -> usize {
    block_of(index / ROWS)
        .saturating_add(HEAD)
        .saturating_add((index % ROWS).saturating_mul(PITCH))
        .saturating_add(18)
}

/// Returns the top of the block of rows with this index, where its heads are.
fn block_of(index: usize) -> usize {
    index.saturating_mul(HEAD + ROWS * PITCH)
}

/// Returns about where the label of a row ends. A row without lifelines gives 0.
fn end_of(chart: &Chart, plan: &Plan, row: &Row, label: &[u8]) -> usize {
    let left = match row.ends {
        Some((from, to)) => {
            let from = plan.x(chart.lines.column(from));
            from.min(plan.x(chart.lines.column(to)))
        }
        None => return 0,
    };
    left.saturating_add(24)
        .saturating_add(chars(label).min(MOST_CHARS).saturating_mul(7))
}

fn push_begin(title: &[u8], plan: &Plan, into: &mut Vec<u8>) -> Result<(), NoMemory> {
    let (width, height) = (plan.width, plan.height);
    push_filled(
        b"<svg xmlns=\"http://www.w3.org/2000/svg\" width=\"#\" height=\"#\" viewBox=\"0 0 # #\">\n",
        &[width, height, width, height],
        into,
    )?;
    push_text(STYLE, into)?;
    push_text(b"<title>", into)?;
    push_formed(Form::Xml, title, into)?;
    push_text(b"</title>\n", into)?;
    push_filled(
        b"<rect class=\"p\" width=\"#\" height=\"#\"/>\n",
        &[width, height],
        into,
    )
}

fn push_lifelines(plan: &Plan, into: &mut Vec<u8>) -> Result<(), NoMemory> {
    for column in 0..plan.columns {
        push_filled(
            b"<path class=\"l\" d=\"M# #V#\"/>\n",
            &[plan.x(column), HEAD - 8, plan.height],
            into,
        )?;
    }
    Ok(())
}

/// Appends the heads of the lifelines, for each block of rows.
fn push_all_heads(
    cast: &Cast,
    chart: &Chart,
    plan: &Plan,
    into: &mut Vec<u8>,
) -> Result<(), NoMemory> {
    let blocks = plan.rows.div_ceil(ROWS).max(1);
    for block in 0..blocks {
        push_heads(cast, chart, plan, block_of(block), into)?;
    }
    Ok(())
}

fn push_heads(
    cast: &Cast,
    chart: &Chart,
    plan: &Plan,
    top: usize,
    into: &mut Vec<u8>,
) -> Result<(), NoMemory> {
    for column in 0..plan.columns {
        push_head(cast, chart, plan, column, top, into)?;
    }
    Ok(())
}

fn push_head(
    cast: &Cast,
    chart: &Chart,
    plan: &Plan,
    column: usize,
    top: usize,
    into: &mut Vec<u8>,
) -> Result<(), NoMemory> {
    let middle = plan.x(column);
    let spot = chart.lines.spot_at(column);
    let class: &[u8] = match spot {
        Spot::Process(_) => b"<rect class=\"b\"",
        Spot::Notes | Spot::Tool(_) => b"<rect class=\"c\"",
    };
    push_text(class, into)?;
    let left = middle.saturating_sub(plan.step / 2).saturating_add(5);
    push_filled(
        b" x=\"#\" y=\"#\" width=\"#\" height=\"40\"/><text class=\"h\" x=\"#\" y=\"#\">",
        &[
            left,
            top.saturating_add(8),
            plan.step.saturating_sub(10),
            middle,
            top.saturating_add(25),
        ],
        into,
    )?;
    let most = plan.step.saturating_sub(14).saturating_mul(10) / 72;
    push_short(Form::Xml, most, head_name(cast, chart, spot), into)?;
    push_filled(
        b"</text><text class=\"s\" x=\"#\" y=\"#\">",
        &[middle, top.saturating_add(41)],
        into,
    )?;
    push_head_place(chart, spot, is_narrow(plan.columns), into)?;
    push_text(b"</text>\n", into)
}

fn push_rows(
    chart: &Chart,
    drawn: &[Drawn],
    plan: &Plan,
    texts: &mut Texts,
    into: &mut Vec<u8>,
) -> Result<(), NoMemory> {
    for (index, part) in drawn.iter().enumerate() {
        if let Some(row) = chart.rows.get(part.index) {
            texts.write(row, *part)?;
            push_row(chart, plan, row, y_of(index), texts, into)?;
        }
    }
    Ok(())
}

fn push_row(
    chart: &Chart,
    plan: &Plan,
    row: &Row,
    y: usize,
    texts: &Texts,
    into: &mut Vec<u8>,
) -> Result<(), NoMemory> {
    push_text(b"<g><title>", into)?;
    push_formed(Form::Xml, texts.line.as_slice(), into)?;
    push_filled(
        b"</title><text class=\"n\" x=\"#\" y=\"#\">",
        &[LEFT - 10, y.saturating_add(4)],
        into,
    )?;
    push_number(row.number, into)?;
    push_text(b"</text>", into)?;
    let label = texts.label.as_slice();
    match row.ends {
        Some((from, to)) => {
            let from = plan.x(chart.lines.column(from));
            let to = plan.x(chart.lines.column(to));
            push_spotted(row.entry, from, to, y, label, into)?;
        }
        None => push_rule(row.entry, plan, y, label, into)?,
    }
    push_text(b"</g>\n", into)
}

fn push_spotted(
    entry: &Entry,
    from: usize,
    to: usize,
    y: usize,
    label: &[u8],
    into: &mut Vec<u8>,
) -> Result<(), NoMemory> {
    match figure_of(entry) {
        Figure::Arrow(kind, _, _) => push_arrow(kind, from, to, y, label, into),
        Figure::Stop(_) => {
            push_filled(
                b"<path class=\"x\" d=\"M# #l12 12m0 -12l-12 12\"/>",
                &[from.saturating_sub(6), y.saturating_sub(6)],
                into,
            )?;
            push_label(from.saturating_add(11), y.saturating_add(4), label, into)
        }
        Figure::Lost(_) => {
            push_filled(
                b"<path class=\"e\" d=\"M# #h-26\"/><path class=\"x\" d=\"M# #l8 8m0 -8l-8 8\"/>",
                &[from, y, from.saturating_sub(34), y.saturating_sub(4)],
                into,
            )?;
            push_label(from.saturating_add(9), y.saturating_add(4), label, into)
        }
        Figure::Mark(_) | Figure::Time | Figure::Rule | Figure::Hidden => {
            push_filled(
                b"<rect class=\"f\" x=\"#\" y=\"#\" width=\"6\" height=\"6\"/>",
                &[from.saturating_sub(3), y.saturating_sub(3)],
                into,
            )?;
            push_label(from.saturating_add(9), y.saturating_add(4), label, into)
        }
    }
}

fn push_label(x: usize, y: usize, label: &[u8], into: &mut Vec<u8>) -> Result<(), NoMemory> {
    push_filled(b"<text x=\"#\" y=\"#\">", &[x, y], into)?;
    push_short(Form::Xml, MOST_CHARS, label, into)?;
    push_text(b"</text>", into)
}

fn push_arrow(
    kind: ArrowKind,
    from: usize,
    to: usize,
    y: usize,
    label: &[u8],
    into: &mut Vec<u8>,
) -> Result<(), NoMemory> {
    // The margin around the label must not hide the tip.
    push_label(
        from.min(to).saturating_add(14),
        y.saturating_sub(5),
        label,
        into,
    )?;
    push_text(b"<path class=\"", into)?;
    push_text(line_class(kind), into)?;
    push_filled(b"\" d=\"M# #H#\"/>", &[from, y, to], into)?;
    push_filled(tip_of(kind, from < to), &[to, y], into)
}

/// Returns the class of an arrow's line.
fn line_class(kind: ArrowKind) -> &'static [u8] {
    match kind {
        ArrowKind::Message | ArrowKind::Question => b"m",
        ArrowKind::Note => b"t",
        ArrowKind::Order | ArrowKind::Event => b"e",
        ArrowKind::Answer => b"d",
        ArrowKind::Start | ArrowKind::End => b"a",
    }
}

/// Returns the tip of an arrow. The tip of a message, a question or a note is filled.
fn tip_of(kind: ArrowKind, is_rightward: bool) -> &'static [u8] {
    match (kind, is_rightward) {
        (ArrowKind::Message | ArrowKind::Question | ArrowKind::Note, true) => {
            b"<path class=\"f\" d=\"M# #l-9 -4v8z\"/>"
        }
        (ArrowKind::Message | ArrowKind::Question | ArrowKind::Note, false) => {
            b"<path class=\"f\" d=\"M# #l9 -4v8z\"/>"
        }
        (_, true) => b"<path class=\"x\" d=\"M# #m-9 -5l9 5l-9 5\"/>",
        (_, false) => b"<path class=\"x\" d=\"M# #m9 -5l-9 5l9 5\"/>",
    }
}

fn push_rule(
    entry: &Entry,
    plan: &Plan,
    y: usize,
    label: &[u8],
    into: &mut Vec<u8>,
) -> Result<(), NoMemory> {
    let class: &[u8] = match figure_of(entry) {
        Figure::Time => b"<path class=\"r\"",
        _ => b"<path class=\"q\"",
    };
    push_text(class, into)?;
    push_filled(b" d=\"M# #H#\"/>", &[LEFT, y, plan.right()], into)?;
    push_label(LEFT + 4, y.saturating_sub(5), label, into)
}
