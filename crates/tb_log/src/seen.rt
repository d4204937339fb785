//! Entries as a log lends them: reading copies nothing.
ghost use Rattle.std.specs.Prelude.{◌≡◌, ◌+◌, ◌≤◌, IfOk, length, take, drop};
ghost use Rattle.tb_log.specs.Seens.{entry_seen, label_seen, number_terms, terms_seen};

use crate::entry::{Entry, Input, Label, LabelKind, Out, Place, Reply};
use std::alloc::Global;
use tb_terms::{Items, NoMemory, Term, Terms};

/// The borrowed terms of a step: terms, or numbers if all terms are numbers.
#[derive(Clone, Copy)]
pub enum SeenTerms<'a> {
    /// The terms.
    Terms(&'a [Term]),
    /// The values of terms that are all numbers.
    Numbers(&'a [i64]),
}

impl<'a> SeenTerms<'a> {
    /// Returns `count` of the terms, from index `first` on.
    pub(crate) fn share(self, first: usize, count: usize) -> SeenTerms<'a>
        requires { first + count ≤ length (terms_seen self) }
        ensures { terms_seen result ≡ take count (drop first (terms_seen self.entry)) }
    {
        match self {
            SeenTerms::Terms(terms) => SeenTerms::Terms(&terms[first..first + count]),
            SeenTerms::Numbers(numbers) => SeenTerms::Numbers(&numbers[first..first + count]),
        }
    }

    /// Copies the terms into new memory.
    pub fn copy(&self, alloc: Global) -> Result<Terms, NoMemory>
        ensures { IfOk result (λ copies. copies ≡ terms_seen self.now) }
    {
        match *self {
            SeenTerms::Terms(terms) => copy_all(alloc, terms),
            SeenTerms::Numbers(numbers) => copy_numbers(alloc, numbers),
        }
    }
}

/// A borrowed step: its atoms, with the sender of a message first, and its terms.
#[derive(Clone, Copy)]
pub struct SeenLabel<'a> {
    /// The kind of step.
    pub kind: LabelKind,
    /// The atom of the step. In a message, it is the sender.
    pub from: Place,
    /// The receiver of a message.
    pub to: Place,
    /// The terms of the step.
    pub terms: SeenTerms<'a>,
}

impl<'a> SeenLabel<'a> {
    /// Copies the label into new memory.
    pub fn copy(&self, alloc: Global) -> Result<Label, NoMemory>
        ensures { IfOk result (λ copy. copy ≡ label_seen self.now) }
    {
        let terms = self.terms.copy(alloc)?;
        Ok(Label {
            kind: self.kind,
            from: self.from,
            to: self.to,
            terms,
        })
    }
}

/// A borrowed entry.
#[derive(Clone, Copy)]
pub enum Seen<'a> {
    /// A step of the bus.
    Did(SeenLabel<'a>),
    /// No step was possible, and the bus hadn't shut down.
    Quiet,
    /// An input, and whether the bus took it or dropped it.
    Fed(&'a Input, Reply),
    /// An output on a lane. Lanes have the numbers from 1 to 16.
    Gave(u8, &'a Out),
}

impl<'a> Seen<'a> {
    /// Lends an entry.
    pub fn of(entry: &'a Entry) -> Seen<'a>
        ensures { entry_seen result ≡ entry.now }
    {
        match entry {
            Entry::Did(label) => Seen::Did(SeenLabel {
                kind: label.kind,
                from: label.from,
                to: label.to,
                terms: SeenTerms::Terms(label.terms.as_slice()),
            }),
            Entry::Quiet => Seen::Quiet,
            Entry::Fed(input, reply) => Seen::Fed(input, *reply),
            Entry::Gave(lane, out) => Seen::Gave(*lane, out),
        }
    }

    /// Copies the entry into new memory.
    pub fn copy(&self, alloc: Global) -> Result<Entry, NoMemory>
        ensures { IfOk result (λ copy. copy ≡ entry_seen self.now) }
    {
        match *self {
            Seen::Did(label) => Ok(Entry::Did(label.copy(alloc)?)),
            Seen::Quiet => Ok(Entry::Quiet),
            Seen::Fed(input, reply) => Ok(Entry::Fed(input.copy(alloc)?, reply)),
            Seen::Gave(lane, out) => Ok(Entry::Gave(lane, out.copy(alloc)?)),
        }
    }
}

fn copy_all(alloc: Global, terms: &[Term]) -> Result<Terms, NoMemory>
    ensures { IfOk result (λ copies. copies ≡ terms.now) }
{
    let mut copies = Vec::with_capacity(alloc, terms.len())?;
    for term in terms {
        copies.push(term.copy(alloc)?)?;
    }
    Ok(Items::from_vec(copies))
}

fn copy_numbers(alloc: Global, numbers: &[i64]) -> Result<Terms, NoMemory>
    ensures { IfOk result (λ copies. copies ≡ number_terms numbers.now) }
{
    let mut copies = Vec::with_capacity(alloc, numbers.len())?;
    for number in numbers {
        copies.push(Term::Int(*number))?;
    }
    Ok(Items::from_vec(copies))
}
