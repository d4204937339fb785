//! The line of a tool that a term means.
ghost use Rattle.std.specs.Prelude.{◌≡◌};
ghost use Rattle.tb_terms.specs.declared.term.Term.{out-Term};
ghost use Rattle.tb_tool_line.specs.ToolLines.{are_within, only, value_line, event_line, connect_line, named_line, name_line, disconnect_line, line_by_name, line_of};

use tb_log::{MOST_TOOL_NAME, ToolLine};
use tb_terms::{
    MOST_TERM_SIZE, Name, Term, Terms, are_within_limits, is_within_limits, total_size,
};

/// Returns the line that the term means, or `Bad` if the term means no other line.
pub(crate) fn line_of(term: Term) -> ToolLine
    ensures { result ≡ line_of term }
{
    match term {
        Term::Appl(name, parts) => line_by_name(&name, parts),
        _ => ToolLine::Bad,
    }
}

fn line_by_name(name: &Name, parts: Terms) -> ToolLine
    ensures { result ≡ line_by_name name.now parts }
{
    let name = name.as_bytes();
    if name == b"snd-value".as_slice() {
        value_line(only(parts))
    } else if name == b"snd-event".as_slice() {
        event_line(parts)
    } else if name == b"snd-connect".as_slice() {
        connect_line(only(parts))
    } else if name == b"snd-disconnect".as_slice() {
        disconnect_line(&parts)
    } else {
        ToolLine::Bad
    }
}

fn value_line(part: Option<Term>) -> ToolLine
    ensures { result ≡ value_line part }
{
    match part {
        Some(part) if is_within_limits(&part) => ToolLine::Value(part),
        _ => ToolLine::Bad,
    }
}

fn event_line(parts: Terms) -> ToolLine
    ensures { result ≡ event_line parts }
{
    if !parts.is_empty() && are_within(parts.as_slice()) {
        ToolLine::Event(parts)
    } else {
        ToolLine::Bad
    }
}

fn connect_line(part: Option<Term>) -> ToolLine
    ensures { result ≡ connect_line part }
{
    match part {
        Some(part) => named_line(part),
        None => ToolLine::Bad,
    }
}

fn named_line(part: Term) -> ToolLine
    ensures { result ≡ named_line (out-Term part) }
{
    match part {
        Term::Appl(name, parts) => name_line(name, &parts),
        _ => ToolLine::Bad,
    }
}

fn name_line(name: Name, parts: &Terms) -> ToolLine
    ensures { result ≡ name_line name parts.now }
{
    if parts.is_empty() && name.as_bytes().len() <= MOST_TOOL_NAME {
        ToolLine::Connect(name)
    } else {
        ToolLine::Bad
    }
}

fn disconnect_line(parts: &Terms) -> ToolLine
    ensures { result ≡ disconnect_line parts.now }
{
    if parts.is_empty() {
        ToolLine::Disconnect
    } else {
        ToolLine::Bad
    }
}

/// Returns the only part, if there is exactly one.
fn only(mut parts: Terms) -> Option<Term>
    ensures { result ≡ only parts }
{
    if parts.len() == 1 { parts.pop() } else { None }
}

fn are_within(parts: &[Term]) -> bool
    ensures { result ≡ are_within parts.now }
{
    are_within_limits(parts) && total_size(parts) <= MOST_TERM_SIZE
}
