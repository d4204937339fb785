//! Checks whether a log may have an entry.
ghost use Rattle.std.specs.Prelude.{◌≡◌, ◌≤◌, ◌↔◌, length, IsTrue};
ghost use Rattle.std.specs.Str.{bytes_eq};
ghost use Rattle.tb_terms.specs.declared.term.Term.{out-Term};
ghost use Rattle.tb_log.specs.Shapes.{InShape, IsInputInShape, IsToolLineInShape, IsOutInShape, IsForTool, IsLabelInShape, IsLane, AreParts, HasPlaces, has_terms, has_parts, nowhere};

use crate::entry::{Entry, Input, Label, LabelKind, Out, Place, ToolLine};
use tb_terms::{MOST_TERM_SIZE, Term, are_within_limits, is_within_limits, total_size};

/// The number of lanes. They are numbered from 1.
pub const LANES: usize = 16;

/// The greatest length of a tool's name, in bytes. The size of the tool's term is 2 larger.
pub const MOST_TOOL_NAME: usize = 65_534;

/// Returns whether a log may have this entry.
pub fn is_in_shape(entry: &Entry) -> bool
    ensures { IsTrue result ↔ InShape entry.now }
{
    match entry {
        Entry::Did(label) => is_label_in_shape(label),
        Entry::Quiet => true,
        Entry::Fed(input, _) => is_input_in_shape(input),
        Entry::Gave(lane, out) => is_lane(*lane) && is_out_in_shape(out),
    }
}

fn is_label_in_shape(label: &Label) -> bool
    ensures { IsTrue result ↔ IsLabelInShape label.now }
{
    has_places(label.kind, label.from, label.to)
        && has_terms(label.kind, label.terms.len())
        && are_within_limits(label.terms.as_slice())
}

/// Returns whether each place that the line of a step of this kind doesn't show is `nowhere`.
fn has_places(kind: LabelKind, from: Place, to: Place) -> bool
    ensures { IsTrue result ↔ HasPlaces kind from to }
{
    match kind {
        LabelKind::Msg => true,
        LabelKind::Finish | LabelKind::Halt => is_nowhere(from) && is_nowhere(to),
        _ => is_nowhere(to),
    }
}

fn is_nowhere(place: Place) -> bool
    ensures { IsTrue result ↔ (place ≡ nowhere) }
{
    place.proc == 0 && place.atom == 0
}

/// Returns whether a step of this kind can show `count` terms.
fn has_terms(kind: LabelKind, count: usize) -> bool
    ensures { result ≡ has_terms kind count }
{
    match kind {
        LabelKind::Tau
        | LabelKind::NoNote
        | LabelKind::Subscribe
        | LabelKind::Unsubscribe
        | LabelKind::Finish
        | LabelKind::Halt => count == 0,
        LabelKind::Set
        | LabelKind::Printf
        | LabelKind::Create
        | LabelKind::Execute
        | LabelKind::RecConnect
        | LabelKind::RecDisconnect
        | LabelKind::Shutdown => count == 1,
        LabelKind::SndEval | LabelKind::RecValue | LabelKind::SndDo | LabelKind::SndTerminate => {
            count == 2
        }
        LabelKind::Msg | LabelKind::SndNote | LabelKind::RecNote => count >= 1,
        LabelKind::RecEvent | LabelKind::SndAckEvent => count >= 2,
    }
}

fn is_input_in_shape(input: &Input) -> bool
    ensures { IsTrue result ↔ IsInputInShape input.now }
{
    match input {
        Input::Tick | Input::NoTicks => true,
        Input::Line(lane, line) => is_lane(*lane) && is_tool_line_in_shape(line),
        Input::Gone(lane) | Input::Cut(lane) => is_lane(*lane),
    }
}

/// Returns whether a number is that of a lane: 1 to 16.
pub fn is_lane(lane: u8) -> bool
    ensures { IsTrue result ↔ IsLane lane }
{
    1 <= lane && usize::from(lane) <= LANES
}

/// Returns whether a tool may send this line, or the line is bad.
pub fn is_tool_line_in_shape(line: &ToolLine) -> bool
    ensures { IsTrue result ↔ IsToolLineInShape line.now }
{
    match line {
        ToolLine::Value(term) => is_within_limits(term),
        ToolLine::Event(terms) => !terms.is_empty() && are_parts(terms.as_slice()),
        ToolLine::Connect(name) => name.as_bytes().len() <= MOST_TOOL_NAME,
        ToolLine::Disconnect | ToolLine::Bad => true,
    }
}

/// Returns whether a bus may send this output.
pub fn is_out_in_shape(out: &Out) -> bool
    ensures { IsTrue result ↔ IsOutInShape out.now }
{
    match out {
        Out::Start(_) | Out::End => true,
        Out::Line(term) => is_for_tool(term),
    }
}

fn is_for_tool(term: &Term) -> bool
    ensures { IsTrue result ↔ IsForTool (out-Term term.now) }
{
    match term {
        Term::Appl(name, parts) => {
            has_parts(name.as_bytes(), parts.len()) && are_parts(parts.as_slice())
        }
        _ => false,
    }
}

/// Returns whether a line for a tool may have this name with `count` parts.
fn has_parts(name: &[u8], count: usize) -> bool
    ensures { result ≡ has_parts name.now count }
{
    (is_word(name, b"rec-eval") && count == 1)
        || (is_word(name, b"rec-do") && count == 1)
        || (is_word(name, b"rec-terminate") && count == 1)
        || (is_word(name, b"rec-ack-event") && count >= 1)
}

fn is_word(name: &[u8], word: &[u8]) -> bool
    ensures { result ≡ bytes_eq name.now word.now }
{
    name == word
}

fn are_parts(terms: &[Term]) -> bool
    ensures { IsTrue result ↔ AreParts terms.now }
{
    are_within_limits(terms) && total_size(terms) <= MOST_TERM_SIZE
}
