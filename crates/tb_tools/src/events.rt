//! The events of one tool.
ghost use Rattle.std.specs.Prelude.{◌≡◌, ◌<◌, [], ◌∷◌, ◌++◌, length, remove, slice_get, slice_index_or, IfOk, OnOk, OnErr, IfSome, Some};
ghost use Rattle.std.specs.Option.{option_copied, ForSome};
ghost use Rattle.std.specs.List.{position_from};
ghost use Rattle.tb_terms.specs.Same.{is_same_terms};
ghost use Rattle.tb_tools.specs.Finding.{first_match};

use crate::found::FoundEvent;
use std::alloc::Global;
use std::collections::VecDeque;
use std::marker::Model;
use tb_match::match_list;
use tb_terms::{NoMemory, Patterns, Terms, copy_terms, same_terms};

/// Events of one tool, the oldest first. Contracts see them as a list.
#[derive(Drop)]
pub struct Events {
    queue: VecDeque<Terms>,
}

impl Model for Events {
    ghost use Rattle.std.specs.Prelude.{List};
    ghost use Rattle.std.specs.Coded.{coded_list};
    ghost use Rattle.tb_terms.specs.declared.term.Term.{Term};
    ghost use Rattle.tb_terms.specs.contracts.term.Term as term;

    ghost Value = { List (List Term) };

    ghost coded = { coded_list (coded_list term.the_row.coded) };

    ghost view = { λ events. events.queue.items };
}

impl Events {
    /// Makes an empty list of events. Takes no memory.
    pub(crate) fn new(alloc: Global) -> Events
        ensures { result ≡ [] }
    {
        Events {
            queue: VecDeque::new(alloc),
        }
    }

    /// Returns the number of events.
    pub fn len(&self) -> usize
        ensures { result ≡ length self.now }
    {
        self.queue.len()
    }

    /// Returns the event at this position, from 0.
    pub fn get(&self, place: usize) -> Option<&Terms>
        ensures { option_copied result ≡ slice_get self.now place }
    {
        self.queue.get(place)
    }

    /// Copies the event at this position.
    pub(crate) fn copy_at(&self, alloc: Global, place: usize) -> Result<Terms, NoMemory>
        requires { place < length self.now }
        ensures { IfOk result (λ copy. copy ≡ slice_index_or self.now place []) }
    {
        copy_terms(alloc, &self.queue[place])
    }

    /// Adds the event at the end.
    pub(crate) fn push(&mut self, event: Terms) -> Result<(), NoMemory>
        ensures ok { OnOk result (self.new ≡ self.old ++ event ∷ []) }
        ensures err { OnErr result (self.new ≡ self.old) }
    {
        self.queue.push_back(event)?;
        Ok(())
    }

    /// Removes the event at this position, and returns it.
    pub(crate) fn remove(&mut self, place: usize) -> Terms
        requires { place < length self.old }
        ensures event { result ≡ slice_index_or self.old place [] }
        ensures rest { self.new ≡ remove self.old place }
    {
        match self.queue.remove(place) {
            Some(event) => event,
            None => unreachable!(),
        }
    }

    /// Moves the event at this position to the end of the other events.
    pub(crate) fn pass_on(&mut self, place: usize, others: &mut Events) -> Result<(), NoMemory>
        requires { place < length self.old }
        ensures left { OnOk result (self.new ≡ remove self.old place) }
        ensures came { OnOk result
            (others.new ≡ others.old ++ slice_index_or self.old place [] ∷ []) }
        ensures stayed { OnErr result (self.new ≡ self.old) }
        ensures none_came { OnErr result (others.new ≡ others.old) }
    {
        others.queue.reserve(1)?;
        others.queue.push_back_reserved(self.remove(place));
        Ok(())
    }

    /// Returns the oldest event that matches, with its position and its binds.
    pub(crate) fn first_match(&self, patterns: &Patterns) -> Result<Option<FoundEvent>, NoMemory>
        ensures found { IfOk result (λ found. found ≡ first_match 0 patterns.now self.now) }
        ensures within { IfOk result (λ found. ForSome found (λ at. at.place < length self.now)) }
    {
        let alloc = *self.queue.allocator();
        for place in 0..self.queue.len() {
            if let Some(binds) = match_list(alloc, patterns, &self.queue[place])? {
                return Ok(Some(FoundEvent { place, binds }));
            }
        }
        Ok(None)
    }

    /// Returns the position of the oldest event with exactly these terms.
    pub(crate) fn position_of(&self, terms: &Terms) -> Option<usize>
        ensures place { result ≡ position_from (is_same_terms terms.now) 0 self.now }
        ensures within { IfSome result (λ place. place < length self.now) }
    {
        for place in 0..self.queue.len() {
            if are_same(terms, &self.queue[place]) {
                return Some(place);
            }
        }
        None
    }
}

fn are_same(terms: &Terms, others: &Terms) -> bool
    ensures { result ≡ is_same_terms terms.now others.now }
{
    same_terms(terms, others)
}
