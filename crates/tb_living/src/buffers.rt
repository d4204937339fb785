//! Lists whose memory is used again for later messages.
ghost use Rattle.std.specs.Prelude.{◌≡◌, [], IfOk};

use std::alloc::Global;
use std::mem::forget;
use tb_bus::Action;
use tb_match::Binds;
use tb_terms::{Items, NoMemory, Pattern, Patterns, Sort, Term, Terms};

/// The greatest number of kept lists of each kind. A process is seldom ready for more messages than this.
const MOST_KEPT: usize = 8;

/// Lists that are no longer needed. Later messages use their memory, so a handshake takes no memory. The items have no meaning.
#[derive(Drop)]
pub struct Buffers {
    pub(crate) terms: Vec<Terms>,
    pub(crate) patterns: Vec<Patterns>,
    pub binds: Binds,
}

impl Buffers {
    /// Returns buffers that keep no list yet, with memory for `MOST_KEPT` lists of terms and of patterns.
    pub fn new(alloc: Global) -> Result<Buffers, NoMemory>
        ensures terms { IfOk result (λ buffers. buffers.terms.items ≡ []) }
        ensures patterns { IfOk result (λ buffers. buffers.patterns.items ≡ []) }
        ensures binds { IfOk result (λ buffers. buffers.binds ≡ []) }
    {
        let terms = Vec::with_capacity(alloc, MOST_KEPT)?;
        let patterns = Vec::with_capacity(alloc, MOST_KEPT)?;
        Ok(Buffers {
            terms,
            patterns,
            binds: Items::new(alloc),
        })
    }

    /// Keeps the lists of a delivered message: the list of its terms, if there is capacity, and the list of its binds.
    pub fn give_back(&mut self, terms: Terms, binds: Binds)
        ensures { self.new.binds ≡ binds }
    {
        keep_memory(&mut self.terms, terms);
        self.binds = binds;
    }

    /// Drops an action, and keeps its list of sent terms or of patterns, if there is capacity.
    pub(crate) fn keep(&mut self, action: Action) {
        match action {
            Action::Send(terms) => keep_list(&mut self.terms, terms),
            Action::Receive(patterns) => keep_patterns(&mut self.patterns, patterns),
            Action::Own(_) => {}
        }
    }
}

/// Drops the items of a list, and keeps its memory. An empty list isn't kept: its items were taken, with their memory.
fn keep_list<T: Drop>(kept: &mut Vec<Items<T>>, mut list: Items<T>) {
    if list.is_empty() {
        return;
    }
    while let Some(item) = list.pop() {
        drop(item);
    }
    keep_memory(kept, list);
}

/// Drops the patterns of a list, and keeps its memory. Most patterns are numbers, so `drop_last` has a short way for them.
fn keep_patterns(kept: &mut Vec<Patterns>, mut list: Patterns) {
    if list.is_empty() {
        return;
    }
    for _turn in 0..list.len() {
        drop_last(&mut list);
    }
    keep_memory(kept, list);
}

/// Drops the last pattern. A number, or a result variable of type `int`, owns no memory, so this function only forgets it.
fn drop_last(list: &mut Patterns) {
    if ends_plain(list.as_slice()) {
        forget(list.pop());
    } else {
        drop(list.pop());
    }
}

/// Returns whether the last pattern is a number, or a result variable of type `int`.
fn ends_plain(list: &[Pattern]) -> bool {
    match list.last() {
        Some(Pattern::Fixed(Term::Int(_))) | Some(Pattern::Result(_, Sort::Int)) => true,
        _ => false,
    }
}

/// Keeps a list if there is capacity for it, and drops it if not.
fn keep_memory<T: Drop>(kept: &mut Vec<Items<T>>, list: Items<T>) {
    if kept.len() < kept.capacity() {
        kept.push_reserved(list);
    }
}
