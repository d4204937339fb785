//! Memory that is reused for each line of a log.
ghost use Rattle.std.specs.Prelude.{◌≡◌, []};

use std::alloc::Global;
use std::mem::replace;
use tb_log::{Entry, Label};
use tb_terms::{Items, Terms};

/// Memory that is reused for each line of a log. Its content has no meaning between two lines.
#[derive(Drop)]
pub struct LineBuffers {
    /// The text of the entry that was read, for the comparison with its line.
    pub(crate) text: Vec<u8>,
    /// The list for the terms of a step.
    terms: Terms,
}

impl LineBuffers {
    /// Returns buffers without memory.
    pub fn new(alloc: Global) -> LineBuffers {
        LineBuffers {
            text: Vec::new(alloc),
            terms: Items::new(alloc),
        }
    }

    /// Drops an entry, and keeps the memory of the list of a step's terms. An empty list isn't kept.
    pub fn give_back(&mut self, entry: Entry) {
        if let Entry::Did(label) = entry {
            let Label { terms, .. } = label;
            if !terms.is_empty() {
                self.terms = terms;
            }
        }
    }

    /// Returns an empty list, in the memory that was kept.
    pub(crate) fn take_terms(&mut self, alloc: Global) -> Terms
        ensures { result ≡ [] }
    {
        let mut terms = replace(&mut self.terms, Items::new(alloc));
        while let Some(term) = terms.pop() {
            drop(term);
        }
        terms
    }
}
