//! Reads an entry from the words of its line.
ghost use Rattle.std.specs.Prelude.{◌≡◌, false, IfOk};
ghost use Rattle.tb_log_read.specs.Helpers.Cutting.{behind, without_last};
ghost use Rattle.tb_log_read.specs.Helpers.Unescaping.{unescaped_from};
ghost use Rattle.tb_log_read.specs.Helpers.Words.{words_of, other_of, step_of, labelled, drop_of, gave_of, input_of, tool_line_of, named_line, out_of, line_of, start_of};

use crate::buffers::LineBuffers;
use crate::cut::{cut, without_last};
use crate::number::{number8, place_of};
use crate::terms::{read_label_terms, read_one, read_terms};
use crate::unescape::unescape;
use crate::word::{is_word, kind_of, why_of};
use std::alloc::Global;
use tb_log::{Entry, Input, Label, LabelKind, Out, Place, Reply, ToolLine};
use tb_terms::{Items, Name, NoMemory, Term, Terms, Text};

/// No atom.
const NOWHERE: Place = Place { proc: 0, atom: 0 };

/// Returns the entry whose line has these words. If no entry has these words, the call can also return an entry, which has another
/// line.
pub(crate) fn read_words(
    alloc: Global,
    bytes: &[u8],
    buffers: &mut LineBuffers,
) -> Result<Option<Entry>, NoMemory>
    ensures { IfOk result (λ found. found ≡ words_of bytes.now) }
{
    let (word, rest) = cut(b' ', bytes);
    match kind_of(word) {
        Some(kind) => read_step(alloc, kind, rest, buffers),
        None => read_other(alloc, word, rest),
    }
}

fn read_other(alloc: Global, word: &[u8], rest: &[u8]) -> Result<Option<Entry>, NoMemory>
    ensures { IfOk result (λ found. found ≡ other_of word.now rest.now) }
{
    if is_word(word, b"quiet") {
        return Ok(Some(Entry::Quiet));
    }
    if is_word(word, b"drop") {
        return read_drop(alloc, rest);
    }
    if is_word(word, b"out") {
        return read_gave(alloc, rest);
    }
    match read_input(alloc, word, rest)? {
        Some(input) => Ok(Some(Entry::Fed(input, Reply::Took))),
        None => Ok(None),
    }
}

fn read_step(
    alloc: Global,
    kind: LabelKind,
    bytes: &[u8],
    buffers: &mut LineBuffers,
) -> Result<Option<Entry>, NoMemory>
    ensures { IfOk result (λ found. found ≡ step_of kind bytes.now) }
{
    match kind {
        LabelKind::Msg => {
            let (from, rest) = cut(b' ', bytes);
            let (to, terms) = cut(b' ', rest);
            let terms = read_label_terms(alloc, terms, buffers)?;
            Ok(labelled(kind, place_of(from), place_of(to), terms))
        }
        LabelKind::Finish | LabelKind::Halt => {
            Ok(labelled(kind, NOWHERE, NOWHERE, Some(Items::new(alloc))))
        }
        _ => {
            let (from, terms) = cut(b' ', bytes);
            let terms = read_label_terms(alloc, terms, buffers)?;
            Ok(labelled(kind, place_of(from), NOWHERE, terms))
        }
    }
}

fn labelled(kind: LabelKind, from: Place, to: Place, terms: Option<Terms>) -> Option<Entry>
    ensures { result ≡ labelled kind from to terms }
{
    match terms {
        Some(terms) => Some(Entry::Did(Label {
            kind,
            from,
            to,
            terms,
        })),
        None => None,
    }
}

fn read_drop(alloc: Global, bytes: &[u8]) -> Result<Option<Entry>, NoMemory>
    ensures { IfOk result (λ found. found ≡ drop_of bytes.now) }
{
    let (why, words) = cut(b' ', bytes);
    let (word, rest) = cut(b' ', words);
    let Some(why) = why_of(why) else {
        return Ok(None);
    };
    match read_input(alloc, word, rest)? {
        Some(input) => Ok(Some(Entry::Fed(input, Reply::Dropped(why)))),
        None => Ok(None),
    }
}

fn read_input(alloc: Global, word: &[u8], rest: &[u8]) -> Result<Option<Input>, NoMemory>
    ensures { IfOk result (λ found. found ≡ input_of word.now rest.now) }
{
    if is_word(word, b"tick") {
        return Ok(Some(Input::Tick));
    }
    if is_word(word, b"noticks") {
        return Ok(Some(Input::NoTicks));
    }
    if is_word(word, b"line") {
        let (lane, line) = cut(b' ', rest);
        return match read_tool_line(alloc, line)? {
            Some(line) => Ok(Some(Input::Line(number8(lane), line))),
            None => Ok(None),
        };
    }
    if is_word(word, b"gone") {
        return Ok(Some(Input::Gone(number8(rest))));
    }
    if is_word(word, b"cut") {
        return Ok(Some(Input::Cut(number8(rest))));
    }
    Ok(None)
}

fn read_tool_line(alloc: Global, bytes: &[u8]) -> Result<Option<ToolLine>, NoMemory>
    ensures { IfOk result (λ found. found ≡ tool_line_of bytes.now) }
{
    let (name, inner) = cut(b'(', bytes);
    named_line(alloc, name, without_last(inner))
}

fn named_line(alloc: Global, name: &[u8], inner: &[u8]) -> Result<Option<ToolLine>, NoMemory>
    ensures { IfOk result (λ found. found ≡ named_line name.now inner.now) }
{
    if is_word(name, b"snd-value") {
        return match read_one(alloc, inner)? {
            Some(term) => Ok(Some(ToolLine::Value(term))),
            None => Ok(None),
        };
    }
    if is_word(name, b"snd-event") {
        return match read_terms(alloc, inner)? {
            Some(terms) => Ok(Some(ToolLine::Event(terms))),
            None => Ok(None),
        };
    }
    if is_word(name, b"snd-connect") {
        return match Name::from_bytes(alloc, inner)? {
            Some(name) => Ok(Some(ToolLine::Connect(name))),
            None => Ok(None),
        };
    }
    if is_word(name, b"snd-disconnect") {
        return Ok(Some(ToolLine::Disconnect));
    }
    if is_word(name, b"?") {
        return Ok(Some(ToolLine::Bad));
    }
    Ok(None)
}

fn read_gave(alloc: Global, bytes: &[u8]) -> Result<Option<Entry>, NoMemory>
    ensures { IfOk result (λ found. found ≡ gave_of bytes.now) }
{
    let (lane, out) = cut(b' ', bytes);
    match read_out(alloc, out)? {
        Some(out) => Ok(Some(Entry::Gave(number8(lane), out))),
        None => Ok(None),
    }
}

fn read_out(alloc: Global, bytes: &[u8]) -> Result<Option<Out>, NoMemory>
    ensures { IfOk result (λ found. found ≡ out_of bytes.now) }
{
    let (word, _rest) = cut(b' ', bytes);
    if is_word(word, b"start") {
        return read_start(alloc, bytes);
    }
    if is_word(bytes, b"end") {
        return Ok(Some(Out::End));
    }
    let (name, inner) = cut(b'(', bytes);
    let terms = read_terms(alloc, without_last(inner))?;
    line_of(alloc, name, terms)
}

fn read_start(alloc: Global, bytes: &[u8]) -> Result<Option<Out>, NoMemory>
    ensures { IfOk result
        (λ found. found ≡ start_of (unescaped_from false (without_last (behind 34 bytes.now)))) }
{
    let (_word, quoted) = cut(b'"', bytes);
    let command = unescape(alloc, without_last(quoted))?;
    match Text::from_vec(command) {
        Some(command) => Ok(Some(Out::Start(command))),
        None => Ok(None),
    }
}

fn line_of(alloc: Global, name: &[u8], terms: Option<Terms>) -> Result<Option<Out>, NoMemory>
    ensures { IfOk result (λ found. found ≡ line_of name.now terms) }
{
    let Some(terms) = terms else {
        return Ok(None);
    };
    match Name::from_bytes(alloc, name)? {
        Some(name) => Ok(Some(Out::Line(Term::Appl(name, terms)))),
        None => Ok(None),
    }
}
