//! A set of numbers, kept as bits, that finds its next number quickly.
ghost use Rattle.std.specs.Prelude.{◌≡◌, ◌≢◌, ℕ, ◌+◌, ◌*◌, ◌/◌, ◌<◌, ◌≤◌, ◌==◌, Some, None, IfSome, [], max, length, slice_index, OnOk};
ghost use Rattle.std.specs.Int.{bit_at};
ghost use Rattle.tb_index.specs.Helpers.Bits.{bit_in, IsNextBit, IsTwoRows, most_words};
ghost use Rattle.tb_index.specs.Helpers.Pairs.{IsFirst};

use std::alloc::Global;
use std::marker::Model;
use tb_terms::NoMemory;

/// A set of numbers in two rows of words. The upper row has a bit for each word of the lower row that isn't 0.
#[derive(Drop)]
pub(crate) struct Bits {
    low: Vec<u64>,
    high: Vec<u64>,
}

impl Model for Bits {
    ghost use Rattle.std.specs.Prelude.{List, ℕ};

    ghost Value = { List ℕ };

    ghost use Rattle.tb_index.specs.Helpers.Bits.{IsTwoRows};

    ghost view = { λ rows. rows.low.items };

    ghost invariant = { λ rows. IsTwoRows rows.low.items rows.high.items };
}

/// Returns the position of the lowest set bit. The word isn't 0.
fn first_in_word(word: u64) -> usize
    requires { 0 < word }
    ensures within { result < 64 }
    ensures next { IsNextBit (bit_at word) 0 (Some result) }
{
    word.trailing_zeros() as usize
}

/// Returns the first set bit of a word, from a position on.
fn next_in_word(word: u64, from: usize) -> Option<usize>
    requires { from < 64 }
    ensures within { IfSome result (λ bit. bit < 64) }
    ensures next { IsNextBit (bit_at word) from result }
{
    let rest = word >> from;
    if rest == 0 {
        None
    } else {
        Some(from + first_in_word(rest))
    }
}

/// Returns the first set bit of a row of words, from a position on.
fn next_in(words: &[u64], from: usize) -> Option<usize>
    requires { length words.now ≤ most_words }
    ensures { IsNextBit (bit_in words.now) from result }
{
    let at = from / 64;
    if at >= words.len() {
        return None;
    }
    match next_in_word(words[at], from % 64) {
        Some(bit) => Some(64 * at + bit),
        None => next_behind(words, at),
    }
}

/// Returns the first set bit in the words after the one at `at`.
fn next_behind(words: &[u64], at: usize) -> Option<usize>
    requires many { length words.now ≤ most_words }
    requires within { at < length words.now }
    ensures { IsNextBit (bit_in words.now) (64 * (at + 1)) result }
{
    for other in at + 1..words.len() {
        if words[other] != 0 {
            return Some(64 * other + first_in_word(words[other]));
        }
    }
    None
}

fn with_bit(word: u64, bit: usize) -> u64
    requires { bit < 64 }
    ensures here { bit_at result bit ≡ 1 }
    ensures others { (i : ℕ) → i < 64 → i ≢ bit → bit_at result i ≡ bit_at word i }
{
    word | 1u64 << bit
}

fn without_bit(word: u64, bit: usize) -> u64
    requires { bit < 64 }
    ensures here { bit_at result bit ≡ 0 }
    ensures others { (i : ℕ) → i < 64 → i ≢ bit → bit_at result i ≡ bit_at word i }
    ensures less { result ≤ word }
{
    word & !(1u64 << bit)
}

/// Sets one bit in a row of words.
fn set_bit(words: &mut Vec<u64>, n: usize)
    requires { n / 64 < length words.old.items }
    ensures here { bit_in words.new.items n ≡ 1 }
    ensures others { (k : ℕ) → k ≢ n → bit_in words.new.items k ≡ bit_in words.old.items k }
    ensures long { length words.new.items ≡ length words.old.items }
    ensures apart { (word : ℕ) → word ≢ n / 64
        → slice_index words.new.items word ≡ slice_index words.old.items word }
    ensures filled { 0 < slice_index words.new.items (n / 64) }
{
    let word = words[n / 64];
    words[n / 64] = with_bit(word, n % 64);
}

/// Clears one bit in a row of words.
fn clear_bit(words: &mut Vec<u64>, n: usize)
    requires { n / 64 < length words.old.items }
    ensures here { bit_in words.new.items n ≡ 0 }
    ensures others { (k : ℕ) → k ≢ n → bit_in words.new.items k ≡ bit_in words.old.items k }
    ensures long { length words.new.items ≡ length words.old.items }
    ensures apart { (word : ℕ) → word ≢ n / 64
        → slice_index words.new.items word ≡ slice_index words.old.items word }
    ensures less { slice_index words.new.items (n / 64) ≤ slice_index words.old.items (n / 64) }
{
    let word = words[n / 64];
    words[n / 64] = without_bit(word, n % 64);
}

impl Bits {
    pub(crate) fn new(alloc: Global) -> Bits
        ensures { result ≡ [] }
    {
        Bits {
            low: Vec::new(alloc),
            high: Vec::new(alloc),
        }
    }

    /// Takes the memory that `insert` requires for a number.
    pub(crate) fn make_room(&mut self, n: usize) -> Result<(), NoMemory>
        requires { n < 4294967296 }
        ensures same { (k : ℕ) → bit_in self.new k ≡ bit_in self.old k }
        ensures long { length self.old ≤ length self.new }
        ensures room { OnOk result (n / 64 < length self.new) }
    {
        fill(&mut self.high, n / 4096 + 1)?;
        fill(&mut self.low, n / 64 + 1)
    }

    /// Adds a number to the set.
    pub(crate) fn insert(&mut self, n: usize)
        requires { n / 64 < length self.old }
        ensures here { bit_in self.new n ≡ 1 }
        ensures others { (k : ℕ) → k ≢ n → bit_in self.new k ≡ bit_in self.old k }
        ensures long { length self.new ≡ length self.old }
    {
        let word = n / 64;
        set_bit(&mut self.low, n);
        set_bit(&mut self.high, word);
    }

    /// Removes a number from the set, if the set has it.
    pub(crate) fn remove(&mut self, n: usize)
        ensures here { bit_in self.new n ≡ 0 }
        ensures others { (k : ℕ) → k ≢ n → bit_in self.new k ≡ bit_in self.old k }
        ensures long { length self.new ≡ length self.old }
    {
        if n / 64 < self.low.len() {
            self.remove_within(n);
        }
    }

    fn remove_within(&mut self, n: usize)
        requires { n / 64 < length self.old }
        ensures here { bit_in self.new n ≡ 0 }
        ensures others { (k : ℕ) → k ≢ n → bit_in self.new k ≡ bit_in self.old k }
        ensures long { length self.new ≡ length self.old }
    {
        let word = n / 64;
        clear_bit(&mut self.low, n);
        if self.low[word] == 0 {
            clear_bit(&mut self.high, word);
        }
    }

    /// Returns the first number of the set, from a number on.
    pub(crate) fn next(&self, from: usize) -> Option<usize>
        ensures next { IsNextBit (bit_in self.now) from result }
        ensures small { IfSome result (λ n. n < 4294967296) }
    {
        next_of(self.low.as_slice(), self.high.as_slice(), from)
    }

    /// Returns the first number of the set, from a number on, as a `u32`.
    pub(crate) fn next_number(&self, from: u32) -> Option<u32>
        ensures { IsFirst (λ n. bit_in self.now n == 1) from result }
    {
        match self.next(from as usize) {
            Some(n) => Some(n as u32),
            None => None,
        }
    }
}

/// Makes the row at least `long` words long: appends words that are 0.
fn fill(words: &mut Vec<u64>, long: usize) -> Result<(), NoMemory>
    ensures same { (word : ℕ)
        → slice_index words.new.items word ≡ slice_index words.old.items word }
    ensures ok { OnOk result (length words.new.items ≡ max (length words.old.items) long) }
    ensures more { length words.old.items ≤ length words.new.items }
    ensures bound { length words.new.items ≤ max (length words.old.items) long }
{
    for _ in 0..long.saturating_sub(words.len()) {
        words.push(0)?;
    }
    Ok(())
}

fn next_of(low: &[u64], high: &[u64], from: usize) -> Option<usize>
    requires { IsTwoRows low.now high.now }
    ensures { IsNextBit (bit_in low.now) from result }
{
    let word = from / 64;
    if word >= low.len() {
        return None;
    }
    match next_in_word(low[word], from % 64) {
        Some(bit) => Some(64 * word + bit),
        None => next_by_rows(low, high, word),
    }
}

fn next_by_rows(low: &[u64], high: &[u64], word: usize) -> Option<usize>
    requires rows { IsTwoRows low.now high.now }
    requires within { word < length low.now }
    ensures { IsNextBit (bit_in low.now) (64 * (word + 1)) result }
{
    match next_in(high, word + 1) {
        Some(other) => Some(64 * other + first_in_word(low[other])),
        None => None,
    }
}
