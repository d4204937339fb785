//! Marks of messages and patterns.
ghost use Rattle.std.specs.Prelude.{◌≡◌, ℕ, true, length, fold, take};
ghost use Rattle.std.specs.Int.{w64, cast_unsigned};
ghost use Rattle.tb_index.specs.Marks.{mixed, number_head, name_head, term_head, pattern_head, first_term_head, first_pattern_head, sent_mark, received_mark, wide, is_mark, has_mark};
ghost use Rattle.tb_index.specs.Helpers.Pairs.{has_count, has_open};

use tb_terms::{Name, Pattern, Patterns, Term, Terms};

/// The head of an open first pattern, and of an empty list of terms or patterns.
pub(crate) const OPEN_HEAD: u64 = 0;

/// The head of a string.
const TEXT_HEAD: u64 = 1;

/// The head of a list.
const ROW_HEAD: u64 = 2;

/// The part of a message or of a receive that an index keeps: the number of terms or patterns, and the head of the first one.
/// If terms match patterns, their marks meet.
#[derive(Clone, Copy, Debug, PartialEq, Eq)]
pub struct Mark {
    /// The number of terms or patterns.
    pub count: usize,
    /// The head of the first one. Different first terms can have the same head.
    pub head: u64,
}

/// The marks under which a process sends and receives.
#[derive(Drop)]
pub struct Marks {
    /// The marks of the messages that the process sends.
    pub sends: Vec<Mark>,
    /// The marks of the patterns under which the process receives.
    pub receives: Vec<Mark>,
}

pub(crate) fn mixed(hash: u64, value: u64) -> u64
    ensures { result ≡ mixed hash value }
{
    hash.wrapping_mul(31).wrapping_add(value)
}

fn number_head(number: u64) -> u64
    ensures { result ≡ number_head number }
{
    mixed(5_000_000_001, number)
}

fn name_head(name: &Name, parts: usize) -> u64
    ensures { result ≡ name_head name.now parts }
{
    let mut hash = 7;
    for byte in name.as_bytes() {
        hash = mixed(hash, *byte as u64);
    }
    mixed(hash, parts as u64)
}

fn term_head(term: &Term) -> u64
    ensures { result ≡ term_head term.now }
{
    match term {
        Term::Int(number) => number_head(number.cast_unsigned()),
        Term::Str(_) => TEXT_HEAD,
        Term::Appl(name, terms) => name_head(name, terms.len()),
        Term::List(_) => ROW_HEAD,
    }
}

fn pattern_head(pattern: &Pattern) -> u64
    ensures { result ≡ pattern_head pattern.now }
{
    match pattern {
        Pattern::Fixed(fixed) => term_head(fixed),
        Pattern::Hole(_) | Pattern::Result(_, _) => OPEN_HEAD,
        Pattern::Appl(name, parts) => name_head(name, parts.len()),
        Pattern::List(_) => ROW_HEAD,
    }
}

fn first_term_head(terms: &[Term]) -> u64
    ensures { result ≡ first_term_head terms.now }
{
    match terms.first() {
        Some(term) => term_head(term),
        None => OPEN_HEAD,
    }
}

fn first_pattern_head(patterns: &[Pattern]) -> u64
    ensures { result ≡ first_pattern_head patterns.now }
{
    match patterns.first() {
        Some(pattern) => pattern_head(pattern),
        None => OPEN_HEAD,
    }
}

/// Returns the mark of the terms of a message.
#[tactic(auto, unfolding(crate::specs::Marks::sent_mark))]
pub fn sent_mark(terms: &Terms) -> Mark
    ensures { result ≡ sent_mark terms.now }
{
    Mark {
        count: terms.len(),
        head: first_term_head(terms.as_slice()),
    }
}

/// Returns the mark of the patterns of a receive.
#[tactic(auto, unfolding(crate::specs::Marks::received_mark))]
pub fn received_mark(patterns: &Patterns) -> Mark
    ensures { result ≡ received_mark patterns.now }
{
    Mark {
        count: patterns.len(),
        head: first_pattern_head(patterns.as_slice()),
    }
}

/// Returns the open mark with as many terms.
pub(crate) fn wide(mark: Mark) -> Mark
    ensures { result ≡ wide mark }
{
    Mark {
        count: mark.count,
        head: OPEN_HEAD,
    }
}

pub(crate) fn has_mark(marks: &[Mark], mark: Mark) -> bool
    ensures { result ≡ has_mark marks.now mark }
{
    for other in marks {
        if mark.count == other.count && mark.head == other.head {
            return true;
        }
    }
    false
}

/// Returns whether one of the marks has this number of terms.
pub(crate) fn has_count(marks: &[Mark], count: usize) -> bool
    ensures { result ≡ has_count marks.now count }
{
    for other in marks {
        if count == other.count {
            return true;
        }
    }
    false
}

/// Returns whether one of the marks is open.
pub(crate) fn has_open(marks: &[Mark]) -> bool
    ensures { result ≡ has_open marks.now }
{
    for other in marks {
        if other.head == OPEN_HEAD {
            return true;
        }
    }
    false
}

/// Returns `true` only if the two lists of marks are equal.
pub(crate) fn are_same(one: &[Mark], other: &[Mark]) -> bool
    ensures { result ≡ true → one.now ≡ other.now }
{
    if one.len() != other.len() {
        return false;
    }
    for place in 0..one.len() {
        if !is_same(one[place], other[place]) {
            return false;
        }
    }
    true
}

pub(crate) fn is_same(one: Mark, other: Mark) -> bool
    ensures { result ≡ is_mark one other }
{
    one.count == other.count && one.head == other.head
}
