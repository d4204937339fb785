//! The inbox of a process: its subscriptions and its queue of notes.
ghost use Rattle.std.specs.Prelude.{◌≡◌, ◌↔◌, ◌<◌, ◌≤◌, ◌+◌, length, slice_get, Some, IsTrue, IfOk, OnOk, OnErr};
ghost use Rattle.std.specs.Option.{ForSome};
ghost use Rattle.tb_match.specs.Matches.{are_plain};
ghost use Rattle.tb_notes.specs.Inboxes.{nothing, subscribed, unsubscribed, wants, HasRoom, with_note, oldest_match, without_note, IsInOrder};

use crate::queue::{Found, first_match};
use crate::subscriptions::{any_fits, contains, position_of};
use std::alloc::Global;
use std::collections::VecDeque;
use std::marker::Model;
use tb_terms::{Items, NoMemory, Patterns, Terms};

/// The maximum number of notes in a queue.
const MOST_NOTES: usize = 65_536;

/// The subscriptions of a process and its queue of notes. Contracts see both lists as `held`. They see the number of further notes for
/// which the inbox has memory as `spare`.
#[derive(Drop)]
pub struct Inbox {
    subscriptions: Items<Patterns>,
    queue: VecDeque<Terms>,
}

impl Model for Inbox {
    ghost use Rattle.std.specs.Prelude.{◌-◌};
    ghost use Rattle.std.specs.VecDeque.{deque_len, deque_capacity};
    ghost use Rattle.std.specs.Coded.{codes};
    ghost use Rattle.tb_terms.specs.contracts.term.Term as term;
    ghost use Rattle.tb_terms.specs.contracts.pattern.Pattern as pattern;
    ghost use Rattle.tb_notes.specs.Inboxes.{Contents, IsInOrder};

    ghost Value = { Contents };

    ghost coded = { Prim.hlevel (codes, pattern.the_row.coded, term.the_row.coded) };

    ghost view = { λ inbox. record {
      held = record { subscriptions = inbox.subscriptions; notes = inbox.queue.items };
      spare = deque_capacity inbox.queue - deque_len inbox.queue;
    } };

    ghost invariant = { λ inbox.
        IsInOrder (record { subscriptions = inbox.subscriptions; notes = inbox.queue.items }) };
}

impl Inbox {
    /// Makes an inbox without subscriptions and notes. The call takes no memory.
    pub fn new(alloc: Global) -> Inbox
        ensures { result.held ≡ nothing }
    {
        Inbox {
            subscriptions: Items::new(alloc),
            queue: VecDeque::new(alloc),
        }
    }

    /// Adds a subscription, unless an equal one exists.
    pub fn subscribe(&mut self, ps: Patterns) -> Result<(), NoMemory>
        requires { IsTrue (are_plain ps) }
        ensures ok { OnOk result (self.new.held ≡ subscribed ps self.old.held) }
        ensures err { OnErr result (self.new.held ≡ self.old.held) }
        ensures spare { self.new.spare ≡ self.old.spare }
    {
        if !contains(self.subscriptions.as_slice(), &ps) {
            self.subscriptions.push(ps)?;
        }
        Ok(())
    }

    /// Removes the subscription that is equal to these patterns, if there is one. The notes remain in the queue.
    pub fn unsubscribe(&mut self, ps: &Patterns)
        ensures held { self.new.held ≡ unsubscribed ps.now self.old.held }
        ensures spare { self.new.spare ≡ self.old.spare }
    {
        if let Some(index) = position_of(self.subscriptions.as_slice(), ps) {
            let _gone = self.subscriptions.remove(index);
        }
    }

    /// Returns whether some subscription matches the note.
    pub fn wants(&self, note: &Terms) -> bool
        ensures { result ≡ wants self.now.held note.now }
    {
        any_fits(self.subscriptions.as_slice(), note)
    }

    /// Returns whether the queue has capacity for one more note.
    pub fn room(&self) -> bool
        ensures { IsTrue result ↔ HasRoom self.now.held }
    {
        self.queue.len() < MOST_NOTES
    }

    /// Appends a note to the queue, and takes memory if there is none to spare. If out of memory, the call drops the note.
    pub fn offer_note(&mut self, note: Terms) -> Result<(), NoMemory>
        requires { HasRoom self.old.held }
        ensures ok { OnOk result (self.new.held ≡ with_note note self.old.held) }
        ensures err { OnErr result (self.new.held ≡ self.old.held) }
        ensures spare { self.old.spare ≤ self.new.spare + 1 }
    {
        self.queue.push_back(note)?;
        Ok(())
    }

    /// Takes memory for one more note if there is none to spare.
    pub fn reserve(&mut self) -> Result<(), NoMemory>
        ensures held { self.new.held ≡ self.old.held }
        ensures ok { OnOk result (0 < self.new.spare) }
        ensures kept { self.old.spare ≤ self.new.spare }
        ensures full { OnErr result (self.old.spare ≡ 0) }
    {
        self.queue.reserve(1)?;
        Ok(())
    }

    /// Appends a note to the queue in memory that `reserve` took. So the call can't run out of memory.
    pub fn put(&mut self, note: Terms)
        requires room { HasRoom self.old.held }
        requires spare { 0 < self.old.spare }
        ensures held { self.new.held ≡ with_note note self.old.held }
        ensures spare { self.new.spare + 1 ≡ self.old.spare }
    {
        self.queue.push_back_reserved(note);
    }

    /// Returns the position of the oldest note that matches, and its binds.
    pub fn find(&self, ps: &Patterns) -> Result<Option<Found>, NoMemory>
        ensures found { IfOk result (λ found. found ≡ oldest_match ps.now self.now.held) }
        ensures within { IfOk result
            (λ found. ForSome found (λ at. at.place < length self.now.held.notes)) }
    {
        first_match(*self.queue.allocator(), ps, &self.queue)
    }

    /// Returns the note at this position. The oldest note is at 0.
    pub fn note(&self, place: usize) -> &Terms
        requires { place < length self.now.held.notes }
        ensures { slice_get self.now.held.notes place ≡ Some result.now }
    {
        &self.queue[place]
    }

    /// Removes the note at this position from the queue, and returns it. The other notes keep their order.
    pub fn take(&mut self, place: usize) -> Terms
        requires { place < length self.old.held.notes }
        ensures note { slice_get self.old.held.notes place ≡ Some result }
        ensures held { self.new.held ≡ without_note place self.old.held }
        ensures spare { self.new.spare ≡ self.old.spare + 1 }
    {
        match self.queue.remove(place) {
            Some(note) => note,
            None => unreachable!(),
        }
    }

    /// Shows what holds of every inbox. The call changes nothing.
    pub fn show_order(&self)
        ensures { IsInOrder self.now.held }
    {
        let _notes = self.queue.len();
    }
}
