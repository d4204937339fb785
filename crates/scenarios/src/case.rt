//! A case, read line by line.

use crate::live::{Live, parted, what_of};
use crate::playing::ROOM;
use std::alloc::{AllocError, Global};
use tb_cases::meant;

/// A file with its name.
#[derive(Drop)]
pub(crate) struct Named {
    pub(crate) name: String,
    pub(crate) bytes: Vec<u8>,
}

/// The number of the call of the files, and of each sink, that must fail, from 1. With 0, no call fails.
#[derive(Clone, Copy)]
pub(crate) struct Fails {
    pub(crate) files: u64,
    pub(crate) out: u64,
    pub(crate) err: u64,
}

/// The destination of lines of text.
#[derive(Clone, Copy)]
enum Block {
    Nothing,
    File,
    Out,
    Err,
    /// The expected lines of a run.
    Wanted,
}

/// The arguments, the files, and the failing calls of a case, and its expected result.
#[derive(Drop)]
pub(crate) struct Case {
    pub(crate) name: String,
    pub(crate) words: Vec<String>,
    pub(crate) files: Vec<Named>,
    pub(crate) fails: Fails,
    /// The capacity of `out`, in bytes.
    pub(crate) room: usize,
    /// The capacity of `err`, in bytes.
    pub(crate) err_room: usize,
    pub(crate) live: Live,
    pub(crate) out: Vec<u8>,
    /// Whether the case states the expected bytes on `out`.
    pub(crate) says_out: bool,
    /// Whether the expected bytes are only the end of `out`.
    pub(crate) is_end: bool,
    pub(crate) err: Vec<u8>,
    pub(crate) status: u8,
    /// Whether the case is neither simulated with rewriters nor verified.
    pub(crate) is_once: bool,
    /// The expected result of `read_words` for the arguments, if the case states it.
    pub(crate) asks: Option<String>,
    block: Block,
}

impl Case {
    pub(crate) fn new(alloc: Global, name: &str) -> Result<Case, AllocError> {
        Ok(Case {
            name: String::from_str(alloc, name)?,
            words: Vec::new(alloc),
            files: Vec::new(alloc),
            fails: Fails {
                files: 0,
                out: 0,
                err: 0,
            },
            room: ROOM,
            err_room: ROOM,
            live: Live::new(alloc),
            out: Vec::new(alloc),
            says_out: false,
            is_end: false,
            err: Vec::new(alloc),
            status: 0,
            is_once: false,
            asks: None,
            block: Block::Nothing,
        })
    }

    /// Reads a line of the case. Returns whether the line is valid.
    pub(crate) fn take_line(&mut self, alloc: Global, line: &str) -> Result<bool, AllocError> {
        let (word, rest) = parted(line);
        match word {
            "|" => Ok(self.put(rest.as_bytes())? && self.put(b"\n")?),
            "\\" => self.put_meant(alloc, rest),
            "words" => self.add_words(alloc, rest),
            "word" => self.add_word(alloc, rest),
            "file" => self.add_file(alloc, rest),
            "asks" => {
                self.asks = text_meant(alloc, rest)?;
                Ok(self.asks.is_some())
            }
            "fails" => self.take_fails(rest),
            "cue" => self.live.take_cue(alloc, rest),
            "order" | "time" | "lane" | "took" => self.take_wanted(alloc, word, rest),
            _ => Ok(self.take_want(word, rest)),
        }
    }

    /// Appends bytes to the text of the current block. Returns whether there is a block.
    fn put(&mut self, bytes: &[u8]) -> Result<bool, AllocError> {
        match self.block {
            Block::Nothing => return Ok(false),
            Block::File => match self.files.last_mut() {
                Some(file) => file.bytes.extend_from_slice(bytes)?,
                None => return Ok(false),
            },
            Block::Out => self.out.extend_from_slice(bytes)?,
            Block::Err => self.err.extend_from_slice(bytes)?,
            Block::Wanted => match self.live.wanted.last_mut() {
                Some(wanted) => wanted.lines.extend_from_slice(bytes)?,
                None => return Ok(false),
            },
        }
        Ok(true)
    }

    fn put_meant(&mut self, alloc: Global, text: &str) -> Result<bool, AllocError> {
        match meant(alloc, text)? {
            Some(bytes) => self.put(bytes.as_slice()),
            None => Ok(false),
        }
    }

    /// Adds the arguments of a line, split on whitespace.
    fn add_words(&mut self, alloc: Global, text: &str) -> Result<bool, AllocError> {
        for word in text.split_whitespace() {
            self.words.push(String::from_str(alloc, word)?)?;
        }
        Ok(true)
    }

    /// Adds one argument, which can have escapes.
    fn add_word(&mut self, alloc: Global, text: &str) -> Result<bool, AllocError> {
        match text_meant(alloc, text)? {
            Some(word) => self.words.push(word)?,
            None => return Ok(false),
        }
        Ok(true)
    }

    fn add_file(&mut self, alloc: Global, text: &str) -> Result<bool, AllocError> {
        let bytes = Vec::new(alloc);
        match text_meant(alloc, text)? {
            Some(name) => self.files.push(Named { name, bytes })?,
            None => return Ok(false),
        }
        self.block = Block::File;
        Ok(true)
    }

    /// Begins a block of expected lines of a run. Returns whether there is such a kind of block.
    fn take_wanted(&mut self, alloc: Global, word: &str, rest: &str) -> Result<bool, AllocError> {
        match what_of(word, rest) {
            Some(what) => self.live.want(alloc, what)?,
            None => return Ok(false),
        }
        self.block = Block::Wanted;
        Ok(true)
    }

    /// Reads a line that states an expectation or a limit, an empty line, or a comment. Returns whether the line is valid.
    fn take_want(&mut self, word: &str, rest: &str) -> bool {
        match word {
            "out" => self.take_out(),
            "end" => {
                self.is_end = true;
                self.take_out();
            }
            "err" => self.block = Block::Err,
            "once" => self.is_once = true,
            "status" => return self.take_status(rest),
            "room" => return self.take_room(rest),
            "ticks" => return self.live.take_ticks(rest),
            _ => return word.is_empty() || word.starts_with('#'),
        }
        true
    }

    fn take_out(&mut self) {
        self.says_out = true;
        self.block = Block::Out;
    }

    fn take_status(&mut self, text: &str) -> bool {
        match text.parse::<u8>() {
            Ok(status) => {
                self.status = status;
                true
            }
            Err(_) => false,
        }
    }

    /// Reads a capacity in bytes, such as `10` for `out` or `err 10` for `err`.
    fn take_room(&mut self, text: &str) -> bool {
        let (thing, rest) = parted(text);
        let (is_err, number) = if thing == "err" {
            (true, rest)
        } else {
            (false, text)
        };
        let Ok(room) = number.parse::<usize>() else {
            return false;
        };
        if is_err {
            self.err_room = room;
        } else {
            self.room = room;
        }
        true
    }

    /// Reads which call must fail, such as `out 2`.
    fn take_fails(&mut self, text: &str) -> Result<bool, AllocError> {
        let (thing, rest) = parted(text);
        match (thing, rest.parse::<u64>()) {
            ("files", Ok(call)) => self.fails.files = call,
            ("out", Ok(call)) => self.fails.out = call,
            ("err", Ok(call)) => self.fails.err = call,
            _ => return self.live.take_fails(thing, rest),
        }
        Ok(true)
    }

    /// Returns whether the first argument is `run`.
    pub(crate) fn is_run(&self) -> bool {
        match self.words.first() {
            Some(word) => word.as_str() == "run",
            None => false,
        }
    }

    /// Returns the content of the first file with this name.
    pub(crate) fn held(&self, name: &str) -> Option<&[u8]> {
        for file in &self.files {
            if file.name.as_str() == name {
                return Some(file.bytes.as_slice());
            }
        }
        None
    }
}

/// Returns the text that a text with escapes represents, if it is UTF-8.
fn text_meant(alloc: Global, text: &str) -> Result<Option<String>, AllocError> {
    match meant(alloc, text)? {
        Some(bytes) => utf8_text(alloc, bytes.as_slice()),
        None => Ok(None),
    }
}

fn utf8_text(alloc: Global, bytes: &[u8]) -> Result<Option<String>, AllocError> {
    match str::from_utf8(bytes) {
        Ok(text) => Ok(Some(String::from_str(alloc, text)?)),
        Err(_) => Ok(None),
    }
}
