//! A search for the name among several that is nearest to another.

use crate::forms::ATOMS;
use crate::said::Said;
use crate::scan::{first_declared, scope_of};
use crate::source::{Source, is_upper};
use std::alloc::Global;
use strsim::osa_distance;

/// The greatest length of a name that is compared. Longer names are never near.
const MOST_BYTES: usize = 64;

/// A name, and the nearest to it of the names that were offered so far.
#[derive(Drop)]
pub struct Near<'a> {
    alloc: Global,
    name: &'a [u8],
    best: &'a [u8],
    distance: usize,
    /// Whether memory ran out at a comparison.
    lacks: bool,
}

impl<'a> Near<'a> {
    /// Begins a search for the name that is nearest to `name`. Another name is near only if its edit distance to `name` is less than half
    /// of the length of `name`, and at most a third of this length (rounded down) plus 1.
    pub fn to(alloc: Global, name: &'a [u8]) -> Near<'a> {
        let third = name.len() / 3;
        let half = name.len() - name.len() / 2;
        Near {
            alloc,
            name,
            best: b"",
            distance: half.min(third + 2),
            lacks: false,
        }
    }

    /// Compares the other name, and keeps it if it is nearer than the names before.
    fn offer(&mut self, other: &'a [u8]) {
        if self.name.len() > MOST_BYTES || other.len() > MOST_BYTES {
            return;
        }
        match osa_distance(self.alloc, text(self.name), text(other)) {
            Ok(distance) => self.take(other, distance),
            Err(_) => self.lacks = true,
        }
    }

    fn take(&mut self, other: &'a [u8], distance: usize) {
        if distance < self.distance {
            self.best = other;
            self.distance = distance;
        }
    }

    /// Offers this word.
    pub fn offer_word(&mut self, word: &'static str) {
        self.offer(word.as_bytes());
    }

    /// Offers each of these words.
    pub fn offer_words(&mut self, words: &[&'static str]) {
        for word in words {
            self.offer(word.as_bytes());
        }
    }

    /// Offers the word of each atom.
    pub fn offer_atoms(&mut self) {
        self.offer_keys(ATOMS.as_slice());
    }

    /// Offers each word of a table.
    fn offer_keys(&mut self, table: &[(&'static str, &'static str)]) {
        for (word, _) in table {
            self.offer(word.as_bytes());
        }
    }

    /// Offers each name that a definition with this keyword defines.
    pub fn offer_definitions(&mut self, source: &Source<'a>, keyword: &str) {
        for position in 0..source.tokens.len() {
            if source.has_before(position, 1, keyword) {
                self.offer(source.word(position));
            }
        }
    }

    /// Offers each variable that is known at this token.
    pub fn offer_known(&mut self, source: &Source<'a>, token: usize) {
        let mut inner = token;
        for _turn in 0..source.tokens.len() {
            let Some(scope) = scope_of(source, inner) else {
                return;
            };
            self.offer_declared(source, scope);
            inner = scope;
        }
    }

    /// Offers each variable that this `let` or `process` declares.
    fn offer_declared(&mut self, source: &Source<'a>, scope: usize) {
        for position in first_declared(source, scope)..source.tokens.len() {
            let word = source.word(position);
            if word == b"in".as_slice() || word == b"is".as_slice() {
                return;
            }
            if is_upper(word) {
                self.offer(word);
            }
        }
    }

    /// Returns whether a near name was offered.
    pub fn has_found(&self) -> bool {
        !self.best.is_empty()
    }

    /// Adds help that asks whether the nearest name was meant, if there is one.
    pub fn ask(&self, said: &mut Said) {
        if self.lacks {
            said.lack();
        }
        if self.has_found() {
            said.help("did you mean `%`?", &[self.best]);
        }
    }
}

fn text(name: &[u8]) -> &str {
    str::from_utf8(name).unwrap_or("")
}
