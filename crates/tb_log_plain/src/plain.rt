//! Writes a log for people, line by line.

use crate::names::{Names, put_at, put_process};
use crate::write::{put, put_number, put_terms};
use std::alloc::Global;
use tb_body::{Act, Program};
use tb_log::{Entry, Input, Label, LabelKind, Out, Place, Reply, ToolLine, Why, kind_word};
use tb_log_read::{LineBuffers, read_entry_in};
use tb_terms::{NoMemory, Term, push_quoted, write_term};

/// The index of a body that isn't known: no line so far states which body the process has.
const UNKNOWN: u32 = u32::MAX;

/// The reader of a growing log of a program with these names. It stores the body of each process and the time.
#[derive(Drop)]
pub struct Plain<'a> {
    alloc: Global,
    program: &'a Program,
    names: &'a Names,
    /// The index of the body of each process. The process with number n is at position n - 1.
    bodies: Vec<u32>,
    /// The number of ticks that the bus took.
    ticks: u64,
    buffers: LineBuffers,
}

impl<'a> Plain<'a> {
    /// Returns the reader of a log from its first line on.
    pub fn new(
        alloc: Global,
        program: &'a Program,
        names: &'a Names,
    ) -> Result<Plain<'a>, NoMemory> {
        let mut bodies = Vec::new(alloc);
        for root in program.roots.as_slice() {
            bodies.push(root.process)?;
        }
        Ok(Plain {
            alloc,
            program,
            names,
            bodies,
            ticks: 0,
            buffers: LineBuffers::new(alloc),
        })
    }

    /// Appends the text for one line of the log, which includes its newline. Nothing is appended for a `quiet` entry or a tick. A
    /// line that isn't an entry's is appended unchanged, after a question mark and a space.
    pub fn line(&mut self, line: &[u8], into: &mut Vec<u8>) -> Result<(), NoMemory> {
        match read_entry_in(self.alloc, line, &mut self.buffers)? {
            Some(numbered) => {
                self.entry(&numbered.entry, into)?;
                self.buffers.give_back(numbered.entry);
                Ok(())
            }
            None => {
                put(b"? ", into)?;
                put(line, into)
            }
        }
    }

    fn entry(&mut self, entry: &Entry, into: &mut Vec<u8>) -> Result<(), NoMemory> {
        match entry {
            Entry::Quiet => Ok(()),
            Entry::Did(label) if label.kind == LabelKind::Printf => put_printed(label, into),
            Entry::Did(label) => {
                self.did(label, into)?;
                self.keep(label)
            }
            Entry::Fed(Input::Tick, reply) => {
                self.tick(*reply);
                Ok(())
            }
            Entry::Fed(input, reply) => {
                self.time(into)?;
                put_fed(input, *reply, into)
            }
            Entry::Gave(lane, out) => {
                self.time(into)?;
                put_gave(*lane, out, into)
            }
        }
    }

    /// Counts a tick if the bus took it.
    fn tick(&mut self, reply: Reply) {
        if reply == Reply::Took {
            self.ticks = self.ticks.saturating_add(1);
        }
    }

    /// Appends the number of ticks so far in brackets, as at the start of each line.
    fn time(&self, into: &mut Vec<u8>) -> Result<(), NoMemory> {
        put(b"[", into)?;
        put_number(self.ticks, into)?;
        put(b"] ", into)
    }

    /// Returns the body of a process, or `UNKNOWN`.
    fn body_of(&self, number: u32) -> u32 {
        let place = (number as usize).saturating_sub(1);
        match self.bodies.get(place) {
            Some(body) => *body,
            None => UNKNOWN,
        }
    }

    fn place(&self, place: Place, into: &mut Vec<u8>) -> Result<(), NoMemory> {
        put_at(
            self.names,
            place.proc,
            self.body_of(place.proc),
            place.atom,
            into,
        )
    }

    /// Appends the line of a step.
    fn did(&self, label: &Label, into: &mut Vec<u8>) -> Result<(), NoMemory> {
        self.time(into)?;
        match label.kind {
            LabelKind::Finish => put(b"no process is left: the bus shuts down\n", into),
            LabelKind::Halt => put(b"nothing can happen any more: the bus shuts down\n", into),
            LabelKind::Msg => self.message(label, into),
            LabelKind::Create => self.creation(label, into),
            _ => self.step(label, into),
        }
    }

    fn message(&self, label: &Label, into: &mut Vec<u8>) -> Result<(), NoMemory> {
        self.place(label.from, into)?;
        put(b" sends ", into)?;
        put_terms(label.terms.as_slice(), into)?;
        put(b" to ", into)?;
        self.place(label.to, into)?;
        put(b"\n", into)
    }

    fn creation(&self, label: &Label, into: &mut Vec<u8>) -> Result<(), NoMemory> {
        self.place(label.from, into)?;
        put(b" creates ", into)?;
        match created(label) {
            Some(number) => put_process(self.names, number, self.created_body(label), into)?,
            None => put(b"a process", into)?,
        }
        put(b"\n", into)
    }

    fn step(&self, label: &Label, into: &mut Vec<u8>) -> Result<(), NoMemory> {
        self.place(label.from, into)?;
        put(b": ", into)?;
        put(word_of(label.kind), into)?;
        if !label.terms.is_empty() {
            put(b" ", into)?;
            put_terms(label.terms.as_slice(), into)?;
        }
        put(b"\n", into)
    }

    /// Stores the body of the process that a step creates.
    fn keep(&mut self, label: &Label) -> Result<(), NoMemory> {
        if label.kind == LabelKind::Create {
            let body = self.created_body(label);
            self.bodies.push(body)?;
        }
        Ok(())
    }

    /// Returns the body of the process that the step's atom creates, or `UNKNOWN`.
    fn created_body(&self, label: &Label) -> u32 {
        let body = self.body_of(label.from.proc);
        let Some(body) = self.program.bodies.get(body as usize) else {
            return UNKNOWN;
        };
        match body.atoms.get((label.from.atom as usize).saturating_sub(1)) {
            Some(atom) => match &atom.act {
                Act::Create { process, .. } => *process,
                _ => UNKNOWN,
            },
            None => UNKNOWN,
        }
    }
}

/// Returns the number of the process that a step creates, if its first term is such a number.
fn created(label: &Label) -> Option<u32> {
    match label.terms.get(0) {
        Some(Term::Int(number)) => {
            if *number >= 0 && *number <= 4_294_967_295 {
                Some(*number as u32)
            } else {
                None
            }
        }
        _ => None,
    }
}

fn word_of(kind: LabelKind) -> &'static [u8] {
    match kind {
        LabelKind::Set => b":=",
        _ => kind_word(kind),
    }
}

/// Appends the printed text, unchanged. If it doesn't end in a newline, appends one.
fn put_printed(label: &Label, into: &mut Vec<u8>) -> Result<(), NoMemory> {
    let Some(Term::Str(text)) = label.terms.get(0) else {
        return Ok(());
    };
    let text = text.as_bytes();
    put(text, into)?;
    match text.last() {
        Some(b'\n') => Ok(()),
        _ => put(b"\n", into),
    }
}

/// Appends the line of an input. If the bus dropped the input, the line begins with the reason.
fn put_fed(input: &Input, reply: Reply, into: &mut Vec<u8>) -> Result<(), NoMemory> {
    if let Reply::Dropped(why) = reply {
        put(b"dropped, since ", into)?;
        put(why_text(why), into)?;
        put(b": ", into)?;
    }
    put_input(input, into)?;
    put(b"\n", into)
}

fn why_text(why: Why) -> &'static [u8] {
    match why {
        Why::Unasked => b"no evaluation is open, or its value has come",
        Why::NotLive => b"the lane has no tool, or its tool has ended or is leaving",
        Why::Named => b"the lane has a tool already",
        Why::Stranger => b"the script has no such tool",
        Why::Bad => b"it is no line of a tool",
        Why::Down => b"the bus has shut down",
    }
}

fn put_input(input: &Input, into: &mut Vec<u8>) -> Result<(), NoMemory> {
    match input {
        Input::Tick => put(b"a tick", into),
        Input::NoTicks => put(b"no more ticks come", into),
        Input::Line(lane, line) => {
            put_lane(b"lane ", *lane, b" says ", into)?;
            put_tool_line(line, into)
        }
        Input::Gone(lane) => put_lane(b"the tool of lane ", *lane, b" has ended", into),
        Input::Cut(lane) => put_lane(b"a write to the tool of lane ", *lane, b" failed", into),
    }
}

fn put_lane(before: &[u8], lane: u8, behind: &[u8], into: &mut Vec<u8>) -> Result<(), NoMemory> {
    put(before, into)?;
    put_number(u64::from(lane), into)?;
    put(behind, into)
}

fn put_tool_line(line: &ToolLine, into: &mut Vec<u8>) -> Result<(), NoMemory> {
    match line {
        ToolLine::Value(term) => {
            put(b"snd-value(", into)?;
            write_term(term, into)?;
            put(b")", into)
        }
        ToolLine::Event(terms) => {
            put(b"snd-event(", into)?;
            put_terms(terms.as_slice(), into)?;
            put(b")", into)
        }
        ToolLine::Connect(name) => {
            put(b"snd-connect(", into)?;
            put(name.as_bytes(), into)?;
            put(b")", into)
        }
        ToolLine::Disconnect => put(b"snd-disconnect", into),
        ToolLine::Bad => put(b"?", into),
    }
}

/// Appends the line of an output on a lane.
fn put_gave(lane: u8, out: &Out, into: &mut Vec<u8>) -> Result<(), NoMemory> {
    match out {
        Out::Start(command) => {
            put_lane(b"lane ", lane, b" starts ", into)?;
            push_quoted(command.as_bytes(), into)?;
        }
        Out::Line(term) => {
            put_lane(b"lane ", lane, b" is sent ", into)?;
            write_term(term, into)?;
        }
        Out::End => put_lane(b"lane ", lane, b" is closed", into)?,
    }
    put(b"\n", into)
}
