//! A log within limits. It keeps its entries in four lists.
ghost use Rattle.std.specs.Prelude.{◌≡◌, ◌≤◌, ◌<◌, ◌+◌, ◌++◌, ◌∷◌, [], IsTrue, false, IsOk, OnOk, OnErr, Some, min, length, take, drop, reverse, slice_get, vec_len, vec_capacity};
ghost use Rattle.std.below.core.specs.declared.int.usize.TheConstants.{MAX};
ghost use Rattle.tb_log.specs.Limits.{entry_size, input_size, tool_line_size, out_size, has_room, terms_size};
ghost use Rattle.tb_log.specs.Seens.{entry_seen, number_terms};

use crate::entry::{Entry, Input, LabelKind, Out, Place, Reply, ToolLine};
use crate::kept::{Kept, KeptStep, Other};
use crate::seen::{Seen, SeenTerms};
use std::alloc::Global;
use std::marker::Model;
use tb_terms::{NoMemory, Term, Terms, size, total_size};

/// The greatest total size of all entries of a log.
const MOST_SIZE: usize = 16_777_216;

/// The entries of a bus, within two limits: their number, and their total size, which is at most 16,777,216. The terms, inputs and
/// outputs of the entries are in separate lists. So an entry takes little memory, and a step that `push_step` adds has no list of its
/// own.
#[derive(Drop)]
pub struct Log {
    entries: Vec<Kept>,
    /// The terms of the steps that have at least one term that isn't a number.
    terms: Vec<Term>,
    /// The terms of the steps whose terms are all numbers.
    numbers: Vec<i64>,
    others: Vec<Other>,
    limit: u32,
    /// The total size of the entries.
    size: usize,
    /// The size of the step for which memory is reserved: there is memory for this many further terms, and for this many further
    /// numbers.
    reserved: usize,
}

impl Model for Log {
    ghost use Rattle.std.specs.Prelude.{◌-◌, ◌+◌, ◌≤◌, min, vec_len, vec_capacity};
    ghost use Rattle.tb_log.specs.Seens.{number_terms};
    ghost use Rattle.tb_log.specs.Helpers.KeptLogs.{StandsFor, entries_kept};
    ghost use Rattle.tb_log.specs.Logs.{LogState, log_code};

    ghost Value = { LogState };

    ghost coded = { log_code };

    ghost view = { λ log. record {
      limit = log.limit;
      entries = entries_kept log.terms.items (number_terms log.numbers.items) log.others.items
          log.entries.items;
      spare = min (vec_capacity log.entries - vec_len log.entries)
          (vec_capacity log.others - vec_len log.others);
      reserved = log.reserved;
    } };

    ghost invariant = { λ log.
        StandsFor log.limit log.size log.terms.items (number_terms log.numbers.items)
        log.others.items log.entries.items
        × (vec_len log.terms + log.reserved ≤ vec_capacity log.terms)
        × (vec_len log.numbers + log.reserved ≤ vec_capacity log.numbers) };
}

impl Log {
    ghost use Rattle.tb_log.specs.declared.entry.Entry.{Entry};
    ghost use Rattle.tb_log.specs.Helpers.KeptLogs.{other_entry};

    /// Returns a log without entries, for at most `limit` entries.
    pub fn new(alloc: Global, limit: u32) -> Log
        ensures limit { result.limit ≡ limit }
        ensures entries { result.entries ≡ [] }
    {
        Log {
            entries: Vec::new(alloc),
            terms: Vec::new(alloc),
            numbers: Vec::new(alloc),
            others: Vec::new(alloc),
            limit,
            size: 0,
            reserved: 0,
        }
    }

    /// Returns the number of entries.
    pub fn len(&self) -> usize
        ensures { result ≡ length self.now.entries }
    {
        self.entries.len()
    }

    /// Lends the entry at the index.
    pub fn at(&self, at: usize) -> Seen<'_>
        requires { at < length self.now.entries }
        ensures { slice_get self.now.entries at ≡ Some (entry_seen result) }
    {
        match &self.entries[at] {
            Kept::Did(step) => Seen::Did(step.lend(SeenTerms::Terms(self.terms.as_slice()))),
            Kept::Numbers(step) => {
                Seen::Did(step.lend(SeenTerms::Numbers(self.numbers.as_slice())))
            }
            Kept::Quiet => Seen::Quiet,
            Kept::Other(index) => self.others[*index as usize].lend(),
        }
    }

    /// Returns whether the log is still within both limits with this entry.
    pub fn room_for(&self, entry: &Entry) -> bool
        ensures { result ≡ has_room self.now.limit self.now.entries entry.now }
    {
        self.room_for_size(size_of(entry))
    }

    /// Returns whether the log is still within both limits with an entry of this size.
    pub fn room_for_size(&self, size: usize) -> bool
        ensures { (entry : Entry) → size ≡ min (entry_size entry) MAX
            → result ≡ has_room self.now.limit self.now.entries entry }
    {
        self.entries.len() < self.limit as usize && self.size.saturating_add(size) <= MOST_SIZE
    }

    /// Reserves memory for `n` further entries, apart from the terms of steps, if there isn't enough yet.
    pub fn reserve(&mut self, n: usize) -> Result<(), NoMemory>
        ensures spare { OnOk result (n ≤ self.new.spare) }
        ensures enough { n ≤ self.old.spare → IsOk result }
        ensures entries { self.new.entries ≡ self.old.entries }
        ensures limit { self.new.limit ≡ self.old.limit }
        ensures grows { self.old.spare ≤ self.new.spare }
        ensures reserved { self.new.reserved ≡ self.old.reserved }
    {
        self.entries.reserve(n)?;
        self.others.reserve(n)?;
        Ok(())
    }

    /// Reserves memory for one further step of this size, in the list of terms and in the list of numbers. Each term has a size of at
    /// least 1, so a step has at most `size` terms.
    pub fn reserve_step(&mut self, size: usize) -> Result<(), NoMemory>
        ensures spare { OnOk result (0 < self.new.spare) }
        ensures enough { 0 < self.old.spare → size ≤ self.old.reserved → IsOk result }
        ensures reserved { OnOk result (self.new.reserved ≡ size) }
        ensures entries { self.new.entries ≡ self.old.entries }
        ensures limit { self.new.limit ≡ self.old.limit }
        ensures grows { self.old.spare ≤ self.new.spare }
        ensures err { OnErr result (self.new.reserved ≡ self.old.reserved) }
    {
        self.reserve(1)?;
        self.terms.reserve(size)?;
        self.numbers.reserve(size)?;
        self.reserved = size;
        Ok(())
    }

    /// Returns for how many further entries there is memory, apart from the terms of steps.
    pub fn spare(&self) -> usize
        ensures { result ≡ self.now.spare }
    {
        let entries = self.entries.capacity() - self.entries.len();
        entries.min(self.others.capacity() - self.others.len())
    }

    /// Adds a step at the end. Its terms move from `terms` into the log. The call takes no memory: `reserve_step` reserves it.
    pub fn push_step(&mut self, kind: LabelKind, from: Place, to: Place, terms: &mut Terms)
        requires room { IsTrue (has_room self.old.limit self.old.entries
            (Entry.Did (record { kind = kind; from = from; to = to; terms = terms.old }))) }
        requires reserved { self.old.reserved ≡ min (terms_size terms.old) MAX }
        requires spare { 0 < self.old.spare }
        ensures entries { self.new.entries ≡ self.old.entries
            ++ Entry.Did (record { kind = kind; from = from; to = to; terms = terms.old }) ∷ [] }
        ensures limit { self.new.limit ≡ self.old.limit }
        ensures spare { self.old.spare ≤ self.new.spare + 1 }
        ensures spent { self.new.reserved ≡ 0 }
        ensures emptied { terms.new ≡ [] }
    {
        let count = terms.len() as u32;
        self.size += self.reserved;
        self.reserved = 0;
        let first = self.numbers.len() as u32;
        if push_numbers(terms.as_slice(), &mut self.numbers) {
            clear(terms);
            self.entries.push_reserved(Kept::Numbers(KeptStep {
                kind,
                from,
                to,
                first,
                count,
            }));
            return;
        }
        let first = self.terms.len() as u32;
        move_terms(terms, &mut self.terms);
        self.entries.push_reserved(Kept::Did(KeptStep {
            kind,
            from,
            to,
            first,
            count,
        }));
    }

    /// Adds an entry at the end. The call takes no memory: if the entry is a step, it keeps its own list of terms.
    pub fn push(&mut self, entry: Entry)
        requires room { IsTrue (has_room self.old.limit self.old.entries entry) }
        requires spare { 0 < self.old.spare }
        ensures entries { self.new.entries ≡ self.old.entries ++ entry ∷ [] }
        ensures limit { self.new.limit ≡ self.old.limit }
        ensures spare { self.old.spare ≤ self.new.spare + 1 }
        ensures reserved { self.new.reserved ≡ self.old.reserved }
    {
        let size = size_of(&entry);
        match entry {
            Entry::Did(label) => self.push_other(Other::Did(label), size),
            Entry::Quiet => self.push_quiet(),
            Entry::Fed(input, reply) => self.push_other(Other::Fed(input, reply), size),
            Entry::Gave(lane, out) => self.push_other(Other::Gave(lane, out), size),
        }
    }

    /// Adds the entry `quiet` at the end: no step was possible. The call takes no memory.
    pub fn push_quiet(&mut self)
        requires room { IsTrue (has_room self.old.limit self.old.entries Entry.Quiet) }
        requires spare { 0 < self.old.spare }
        ensures entries { self.new.entries ≡ self.old.entries ++ Entry.Quiet ∷ [] }
        ensures limit { self.new.limit ≡ self.old.limit }
        ensures spare { self.old.spare ≤ self.new.spare + 1 }
        ensures reserved { self.new.reserved ≡ self.old.reserved }
    {
        self.entries.push_reserved(Kept::Quiet);
    }

    /// Adds an input of this size and its reply at the end. The call takes no memory.
    pub fn push_fed(&mut self, input: Input, reply: Reply, size: usize)
        requires room { IsTrue (has_room self.old.limit self.old.entries (Entry.Fed input reply)) }
        requires sized { size ≡ min (input_size input) MAX }
        requires spare { 0 < self.old.spare }
        ensures entries { self.new.entries ≡ self.old.entries ++ Entry.Fed input reply ∷ [] }
        ensures limit { self.new.limit ≡ self.old.limit }
        ensures spare { self.old.spare ≤ self.new.spare + 1 }
        ensures reserved { self.new.reserved ≡ self.old.reserved }
    {
        self.push_other(Other::Fed(input, reply), size);
    }

    /// Adds an output of this size on a lane at the end. The call takes no memory.
    pub fn push_gave(&mut self, lane: u8, out: Out, size: usize)
        requires room { IsTrue (has_room self.old.limit self.old.entries (Entry.Gave lane out)) }
        requires sized { size ≡ min (out_size out) MAX }
        requires spare { 0 < self.old.spare }
        ensures entries { self.new.entries ≡ self.old.entries ++ Entry.Gave lane out ∷ [] }
        ensures limit { self.new.limit ≡ self.old.limit }
        ensures spare { self.old.spare ≤ self.new.spare + 1 }
        ensures reserved { self.new.reserved ≡ self.old.reserved }
    {
        self.push_other(Other::Gave(lane, out), size);
    }

    fn push_other(&mut self, other: Other, size: usize)
        requires room { IsTrue (has_room self.old.limit self.old.entries (other_entry other)) }
        requires sized { size ≡ min (entry_size (other_entry other)) MAX }
        requires spare { 0 < self.old.spare }
        ensures entries { self.new.entries ≡ self.old.entries ++ other_entry other ∷ [] }
        ensures limit { self.new.limit ≡ self.old.limit }
        ensures spare { self.old.spare ≤ self.new.spare + 1 }
        ensures reserved { self.new.reserved ≡ self.old.reserved }
    {
        let index = self.others.len() as u32;
        self.size += size;
        self.others.push_reserved(other);
        self.entries.push_reserved(Kept::Other(index));
    }
}

/// Adds the terms at the end and returns `true` if they are all numbers. If not, adds none and returns `false`. The call takes no
/// memory.
#[inline(always)]
fn push_numbers(terms: &[Term], into: &mut Vec<i64>) -> bool
    requires { vec_len into.old + length terms.now ≤ vec_capacity into.old }
    ensures pushed { IsTrue result
        → number_terms into.new.items ≡ number_terms into.old.items ++ terms.now }
    ensures same { result ≡ false → into.new.items ≡ into.old.items }
    ensures capacity { vec_capacity into.new ≡ vec_capacity into.old }
{
    let first = into.len();
    for term in terms {
        match term {
            Term::Int(number) => into.push_reserved(*number),
            Term::Str(_) | Term::Appl(_, _) | Term::List(_) => {
                into.truncate(first);
                return false;
            }
        }
    }
    true
}

/// Removes all terms from a list.
fn clear(terms: &mut Terms)
    ensures { terms.new ≡ [] }
{
    while let Some(_term) = terms.pop() {}
}

/// Moves the terms to the end of `into`, in their order. The call takes no memory.
fn move_terms(terms: &mut Terms, into: &mut Vec<Term>)
    requires { vec_len into.old + length terms.old ≤ vec_capacity into.old }
    ensures moved { into.new.items ≡ into.old.items ++ terms.old }
    ensures emptied { terms.new ≡ [] }
{
    let first = into.len();
    pour(terms, into);
    turn(into.as_mut_slice(), first);
}

/// Reverses the order of the terms from index `from` on.
fn turn(terms: &mut [Term], from: usize)
    requires { from ≤ length terms.old }
    ensures { terms.new ≡ take from terms.old ++ reverse (drop from terms.old) }
{
    terms[from..].reverse();
}

/// Moves the terms to the end of `into`, the last term first.
fn pour(terms: &mut Terms, into: &mut Vec<Term>)
    requires { vec_len into.old + length terms.old ≤ vec_capacity into.old }
    ensures poured { into.new.items ≡ into.old.items ++ reverse terms.old }
    ensures emptied { terms.new ≡ [] }
{
    while let Some(term) = terms.pop() {
        into.push_reserved(term);
    }
}

/// Returns the size of an entry, or `usize::MAX` if the size is larger.
fn size_of(entry: &Entry) -> usize
    ensures { result ≡ min (entry_size entry.now) MAX }
{
    match entry {
        Entry::Did(label) => total_size(label.terms.as_slice()),
        Entry::Quiet => 0,
        Entry::Fed(input, _) => input_size(input),
        Entry::Gave(_, out) => out_size(out),
    }
}

/// Returns the size of an input, or `usize::MAX` if the size is larger.
pub fn input_size(input: &Input) -> usize
    ensures { result ≡ min (input_size input.now) MAX }
{
    match input {
        Input::Line(_, line) => tool_line_size(line),
        Input::Tick | Input::NoTicks | Input::Gone(_) | Input::Cut(_) => 0,
    }
}

fn tool_line_size(line: &ToolLine) -> usize
    ensures { result ≡ min (tool_line_size line.now) MAX }
{
    match line {
        ToolLine::Value(term) => size(term),
        ToolLine::Event(terms) => total_size(terms.as_slice()),
        ToolLine::Connect(name) => name.as_bytes().len().saturating_add(1),
        ToolLine::Disconnect | ToolLine::Bad => 0,
    }
}

/// Returns the size of an output, or `usize::MAX` if the size is larger.
pub fn out_size(out: &Out) -> usize
    ensures { result ≡ min (out_size out.now) MAX }
{
    match out {
        Out::Start(command) => command.as_bytes().len().saturating_add(1),
        Out::Line(term) => size(term),
        Out::End => 0,
    }
}
