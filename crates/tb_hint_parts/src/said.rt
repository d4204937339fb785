//! A message that is built piece by piece.

use crate::lines::push_marked;
use crate::scan::{push_parameters, push_type};
use crate::source::{Source, between};
use itoa::Buffer;
use std::alloc::Global;
use tb_fault_place::write_place;
use tb_source_map::{Mark, mark_at};
use tb_terms::NoMemory;

/// A message about a script: a sentence, and the lines after it. If memory runs out at a piece, the message lacks this piece, and `joined`
/// returns `NoMemory`.
#[derive(Drop)]
pub struct Said<'a> {
    /// The allocator of the message.
    pub alloc: Global,
    /// The script that the message is about.
    pub source: Source<'a>,
    sentence: Vec<u8>,
    /// The lines after the sentence and its mark. Each follows a newline.
    pub(crate) rest: Vec<u8>,
    /// Whether memory ran out at a piece.
    lacks: bool,
}

impl<'a> Said<'a> {
    /// Returns an empty message.
    pub fn new(alloc: Global, source: Source<'a>) -> Said<'a> {
        Said {
            alloc,
            source,
            sentence: Vec::new(alloc),
            rest: Vec::new(alloc),
            lacks: false,
        }
    }

    /// Adds the template to the sentence. Each `%` of the template is replaced by the next of the parts.
    pub fn say(&mut self, template: &str, parts: &[&[u8]]) {
        if fill(template, parts, &mut self.sentence).is_err() {
            self.lack();
        }
    }

    /// Adds to the sentence the type that the declaration at this token gives its name.
    pub fn say_type(&mut self, declared: usize) {
        let source = self.source;
        if push_type(&source, declared, &mut self.sentence).is_err() {
            self.lack();
        }
    }

    /// Adds a number to the sentence.
    pub fn say_number(&mut self, number: usize) {
        let mut buffer = Buffer::new();
        self.say("%", &[buffer.format(number).as_bytes()]);
    }

    /// Adds a number to the sentence, with a comma before each group of three digits.
    pub fn say_grouped(&mut self, number: usize) {
        let mut buffer = Buffer::new();
        let digits = buffer.format(number).as_bytes();
        for position in 0..digits.len() {
            if position > 0 && digits.len().saturating_sub(position) % 3 == 0 {
                self.say(",", &[]);
            }
            self.say(
                "%",
                &[between(digits, position, position.saturating_add(1))],
            );
        }
    }

    /// Adds a number and this noun to the sentence, with an `s` unless the number is 1.
    pub fn say_count(&mut self, number: usize, noun: &str) {
        self.say_number(number);
        self.say(" %", &[noun.as_bytes()]);
        if number != 1 {
            self.say("s", &[]);
        }
    }

    /// Adds a line of help. Each `%` of the template is replaced by the next of the parts.
    pub fn help(&mut self, template: &str, parts: &[&[u8]]) {
        if push_help(template, parts, &mut self.rest).is_err() {
            self.lack();
        }
    }

    /// Adds a line of help that shows a call of the process whose name is at this token, with its parameters.
    pub fn help_call(&mut self, definition: usize) {
        let source = self.source;
        if push_call(&source, definition, &mut self.rest).is_err() {
            self.lack();
        }
    }

    /// Adds a line of help that ends with these words.
    pub fn help_words(&mut self, begin: &str, words: &[&'static str]) {
        if push_words(begin, words, &mut self.rest).is_err() {
            self.lack();
        }
    }

    /// Adds a note at a token, with its place and its line of the script. Each `%` of the template is replaced by the next of the parts.
    pub fn note(&mut self, token: usize, template: &str, parts: &[&[u8]]) {
        let source = self.source;
        if push_note(&source, token, template, parts, &mut self.rest).is_err() {
            self.lack();
        }
    }

    /// Records that memory ran out at a piece, so that `joined` returns `NoMemory`.
    pub fn lack(&mut self) {
        self.lacks = true;
    }

    /// Returns whether there is a note or a line of help.
    pub fn has_more(&self) -> bool {
        !self.rest.is_empty()
    }

    /// Returns the sentence, the line of the script with its mark, and the other lines. If memory ran out at an earlier piece, this call
    /// returns `NoMemory`, too.
    pub fn joined(&self, mark: Option<Mark>) -> Result<Vec<u8>, NoMemory> {
        if self.lacks {
            return Err(NoMemory);
        }
        let mut lines = Vec::from_slice(self.alloc, self.sentence.as_slice())?;
        if let Some(mark) = mark {
            push_marked(self.source.text, mark, &mut lines)?;
        }
        lines.extend_from_slice(self.rest.as_slice())?;
        Ok(lines)
    }
}

fn push_help(template: &str, parts: &[&[u8]], into: &mut Vec<u8>) -> Result<(), NoMemory> {
    into.extend_from_slice(b"\nhelp: ")?;
    fill(template, parts, into)
}

fn push_call(source: &Source, definition: usize, into: &mut Vec<u8>) -> Result<(), NoMemory> {
    push_help("write `%", &[source.word(definition)], into)?;
    push_parameters(source, definition, into)?;
    into.push(b'`')?;
    Ok(())
}

fn push_words(begin: &str, words: &[&'static str], into: &mut Vec<u8>) -> Result<(), NoMemory> {
    push_help(begin, &[], into)?;
    for (position, word) in words.iter().enumerate() {
        into.extend_from_slice(joint(position, words.len(), " and ").as_bytes())?;
        fill("`%`", &[word.as_bytes()], into)?;
    }
    Ok(())
}

/// Returns the separator before the word at this position of a list: a comma, or `last` before the last word. There is none before the
/// first word.
pub fn joint(position: usize, count: usize, last: &'static str) -> &'static str {
    if position == 0 {
        ""
    } else if position < count.saturating_sub(1) {
        ", "
    } else {
        last
    }
}

fn push_note(
    source: &Source,
    token: usize,
    template: &str,
    parts: &[&[u8]],
    into: &mut Vec<u8>,
) -> Result<(), NoMemory> {
    let mark = mark_at(source.tokens, token);
    into.push(b'\n')?;
    write_place(source.name, source.text, &Some(mark), into)?;
    into.extend_from_slice(b"note: ")?;
    fill(template, parts, into)?;
    push_marked(source.text, mark, into)
}

/// Adds the template. Each `%` of the template is replaced by the next of the parts.
fn fill(template: &str, parts: &[&[u8]], into: &mut Vec<u8>) -> Result<(), NoMemory> {
    let mut next: usize = 0;
    for byte in template.as_bytes() {
        if *byte == b'%' {
            into.extend_from_slice(part_at(parts, next))?;
            next = next.saturating_add(1);
        } else {
            into.push(*byte)?;
        }
    }
    Ok(())
}

fn part_at<'a>(parts: &[&'a [u8]], position: usize) -> &'a [u8] {
    match parts.get(position) {
        Some(part) => *part,
        None => b"",
    }
}
