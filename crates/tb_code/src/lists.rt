//! The lists of the atoms that can be next at each position of a code, as far as there is room.
ghost use Rattle.std.specs.Prelude.{◌≡◌, ◌<◌, ◌≤◌, ◌+◌, ◌++◌, ◌∷◌, [], List, Some, IfOk, IfSome, OnOk, length, map, slice_get};
ghost use Rattle.tb_process_steps.specs.Atoms.{times_of};
ghost use Rattle.tb_process_steps.specs.Processes.{fresh};
ghost use Rattle.tb_code.specs.Entries.{AreLists, Grows, HasList, all_led, gate, in_span, is_timed, led, list_of, what_by};
ghost use Rattle.tb_code.specs.Helpers.Blanks.{blank};
ghost use Rattle.tb_code.specs.Positions.{positions};
ghost use Rattle.tb_code.specs.declared.entry.Entry.{Entry};

use crate::{Behind, Entry, Node, Op, Span, What};
use std::alloc::Global;
use tb_body::Body;
use tb_terms::{Items, NoMemory};

/// The limit for all lists together: this number of entries for each position of the table.
const MOST_ENTRIES: usize = 8;

/// The span of a position whose list the code doesn't keep.
const NOT_KEPT: Span = Span { first: 0, count: 0 };

/// Adds the list of each position, from the last position to the first, as far as there is room.
pub(crate) fn add_lists(
    alloc: Global,
    body: &Body,
    nodes: &[Node],
    entries: &mut Items<Entry>,
    spans: &mut Items<Span>,
) -> Result<(), NoMemory>
    requires numbered { nodes.now ≡ positions (fresh body.now.tree) }
    requires empty { spans.old ≡ [] }
    ensures { OnOk result (AreLists body.now.atoms (fresh body.now.tree) entries.new spans.new) }
{
    add_blanks(nodes, spans)?;
    for back in 0..nodes.len() {
        let at = nodes.len() - 1 - back;
        add_list(alloc, body, nodes, at, entries, spans)?;
    }
    Ok(())
}

fn add_blanks(nodes: &[Node], spans: &mut Items<Span>) -> Result<(), NoMemory>
    ensures { OnOk result (spans.new ≡ spans.old ++ map blank nodes.now) }
{
    for node in nodes {
        spans.push(blank(node))?;
    }
    Ok(())
}

/// Returns the span of a position that has no list yet.
fn blank(_node: &Node) -> Span
    ensures { result ≡ blank _node.now }
{
    NOT_KEPT
}

/// Adds the list of a position, if the lists of its parts are kept and there is room.
fn add_list(
    alloc: Global,
    body: &Body,
    nodes: &[Node],
    at: usize,
    entries: &mut Items<Entry>,
    spans: &mut Items<Span>,
) -> Result<(), NoMemory>
    requires numbered { nodes.now ≡ positions (fresh body.now.tree) }
    requires within { at < length nodes.now }
    requires lists { AreLists body.now.atoms (fresh body.now.tree) entries.old spans.old }
    ensures { OnOk result (AreLists body.now.atoms (fresh body.now.tree) entries.new spans.new) }
{
    let span = list_at(alloc, body, nodes, at, entries, spans.as_slice())?;
    spans.set(at, span);
    Ok(())
}

/// Adds the entries of a position's list, and returns their span. Returns an empty span if a list of a part is missing or there is no room.
fn list_at(
    alloc: Global,
    body: &Body,
    nodes: &[Node],
    at: usize,
    entries: &mut Items<Entry>,
    spans: &[Span],
) -> Result<Span, NoMemory>
    requires numbered { nodes.now ≡ positions (fresh body.now.tree) }
    requires within { at < length nodes.now }
    requires lists { AreLists body.now.atoms (fresh body.now.tree) entries.old spans.now }
    ensures list { IfOk result (λ span. HasList entries.new span
        (list_of body.now.atoms (fresh body.now.tree) at)) }
    ensures grows { OnOk result (Grows entries.old entries.new) }
{
    let room = nodes.len().saturating_mul(MOST_ENTRIES);
    match &node_at(nodes, at).op {
        Op::At(atom) => {
            let entry = Entry {
                position: at,
                what: what_by(is_timed(body, *atom), *atom),
                behind: Behind::Ended,
            };
            add_one(entries, room, entry)
        }
        Op::Seq(right) => {
            let first = span_at(spans, at + 1).then(Behind::Entered(*right));
            add_first(alloc, entries, room, first)
        }
        Op::Alt(right) => {
            let first = span_at(spans, at + 1).then(Behind::Ended);
            let second = span_at(spans, *right).then(Behind::Ended);
            add_both(alloc, entries, room, first, second)
        }
        Op::Star(right) => {
            let first = span_at(spans, at + 1).then(Behind::Entered(at));
            let second = span_at(spans, *right).then(Behind::Ended);
            add_both(alloc, entries, room, first, second)
        }
        Op::Par(right) => {
            let first = span_at(spans, at + 1).then(Behind::Parted);
            let second = span_at(spans, *right).then(Behind::Parted);
            add_both(alloc, entries, room, first, second)
        }
        Op::Disrupt(waits) => {
            let first = span_at(spans, at + 1).then(Behind::Parted);
            let second = span_at(spans, *waits + 1).then(Behind::Ended);
            add_both(alloc, entries, room, first, second)
        }
        Op::Waits(_) => {
            let first = span_at(spans, at + 1).then(Behind::Parted);
            add_first(alloc, entries, room, first)
        }
        Op::If(_, _) => add_one(entries, room, gate(at)),
        Op::When(_) => add_one(entries, room, gate(at)),
        Op::Let(_) => add_one(entries, room, gate(at)),
    }
}

fn node_at(nodes: &[Node], at: usize) -> &Node
    requires { at < length nodes.now }
    ensures { slice_get nodes.now at ≡ Some result.now }
{
    &nodes[at]
}

pub(crate) fn span_at(spans: &[Span], at: usize) -> Span
    requires { at < length spans.now }
    ensures { slice_get spans.now at ≡ Some result }
{
    spans[at]
}

/// Returns whether the atom with this number has times.
fn is_timed(body: &Body, number: u32) -> bool
    ensures { result ≡ is_timed (times_of body.now.atoms number) }
{
    match body.atoms.get(number.saturating_sub(1) as usize) {
        Some(atom) => !atom.times.is_empty(),
        None => false,
    }
}

/// Returns the entry's kind for an atom, by whether the atom has times.
fn what_by(timed: bool, number: u32) -> What
    ensures { result ≡ what_by timed number }
{
    if timed {
        What::Timed(number)
    } else {
        What::Atom(number)
    }
}

/// Returns the entry for a test or settings at this position.
fn gate(at: usize) -> Entry
    ensures { result ≡ gate at }
{
    Entry {
        position: at,
        what: What::Gate,
        behind: Behind::Ended,
    }
}

/// Adds a list with only this entry, if there is room.
fn add_one(entries: &mut Items<Entry>, room: usize, entry: Entry) -> Result<Span, NoMemory>
    ensures list { IfOk result (λ span. HasList entries.new span (entry ∷ [])) }
    ensures grows { OnOk result (Grows entries.old entries.new) }
{
    let first = entries.len();
    if first >= room {
        return Ok(NOT_KEPT);
    }
    entries.push(entry)?;
    Ok(Span { first, count: 1 })
}

/// The list of a part, and the effect of the part's end.
#[derive(Clone, Copy)]
struct Side {
    span: Span,
    next: Behind,
}

impl Span {
    /// Returns the list with the effect of its part's end.
    fn then(self, next: Behind) -> Side
        ensures { result ≡ record { span = self; next = next } }
    {
        Side { span: self, next }
    }
}

/// Adds the entries of one part's list, as entries of the whole. Returns an empty span if the part has no list or there is no room.
fn add_first(
    alloc: Global,
    entries: &mut Items<Entry>,
    room: usize,
    x: Side,
) -> Result<Span, NoMemory>
    requires { x.span.first + x.span.count ≤ length entries.old }
    ensures list { (one : List Entry) → HasList entries.old x.span one
        → IfOk result (λ span. HasList entries.new span (all_led x.next one)) }
    ensures grows { OnOk result (Grows entries.old entries.new) }
{
    let first = entries.len();
    let count = x.span.count;
    if count == 0 || count > room.saturating_sub(first) {
        return Ok(NOT_KEPT);
    }
    add_side(alloc, entries, x)?;
    Ok(Span { first, count })
}

/// Adds the entries of two parts' lists, as entries of the whole. Returns an empty span if a part has no list or there is no room.
fn add_both(
    alloc: Global,
    entries: &mut Items<Entry>,
    room: usize,
    x: Side,
    y: Side,
) -> Result<Span, NoMemory>
    requires x_within { x.span.first + x.span.count ≤ length entries.old }
    requires y_within { y.span.first + y.span.count ≤ length entries.old }
    ensures list { (one other : List Entry) → HasList entries.old x.span one
        → HasList entries.old y.span other
        → IfOk result (λ span. HasList entries.new span
        (all_led x.next one ++ all_led y.next other)) }
    ensures grows { OnOk result (Grows entries.old entries.new) }
{
    let first = entries.len();
    match joint_count(x.span, y.span) {
        Some(count) => {
            if count > room.saturating_sub(first) {
                return Ok(NOT_KEPT);
            }
            add_side(alloc, entries, x)?;
            add_side(alloc, entries, y)?;
            Ok(Span { first, count })
        }
        None => Ok(NOT_KEPT),
    }
}

/// Returns the total number of entries of two lists, if both are kept.
fn joint_count(x: Span, y: Span) -> Option<usize>
    ensures { IfSome result (λ count. (count ≡ x.count + y.count) × (0 < x.count) × (0 < y.count)) }
{
    if x.count == 0 || y.count == 0 {
        None
    } else {
        x.count.checked_add(y.count)
    }
}

fn add_side(alloc: Global, entries: &mut Items<Entry>, x: Side) -> Result<(), NoMemory>
    requires { x.span.first + x.span.count ≤ length entries.old }
    ensures { OnOk result
        (entries.new ≡ entries.old ++ map (led x.next) (in_span entries.old x.span)) }
{
    let list = Items::from_slice(alloc, in_span(entries.as_slice(), x.span))?;
    add_led(entries, list.as_slice(), x.next)
}

fn add_led(entries: &mut Items<Entry>, list: &[Entry], next: Behind) -> Result<(), NoMemory>
    ensures { OnOk result (entries.new ≡ entries.old ++ map (led next) list.now) }
{
    for entry in list {
        entries.push(led(entry, next))?;
    }
    Ok(())
}

/// Returns an entry of a part in the list of the whole, where `next` is the effect of the part's end.
fn led(entry: &Entry, next: Behind) -> Entry
    ensures { result ≡ led next entry.now }
{
    Entry {
        position: entry.position,
        what: entry.what,
        behind: entry.behind.followed(next),
    }
}

/// Returns the entries within a span.
pub(crate) fn in_span(entries: &[Entry], span: Span) -> &[Entry]
    requires { span.first + span.count ≤ length entries.now }
    ensures { result.now ≡ in_span entries.now span }
{
    let rest = &entries[span.first..];
    &rest[..span.count]
}
