//! The text of a term.
ghost use Rattle.std.specs.Prelude.{◌≡◌, ◌+◌, ◌<◌, ◌≤◌, ◌++◌, [], ◌∷◌, OnOk, OnErr, length, map, vec_len, vec_capacity};
ghost use Rattle.std.specs.List.{flat_map};
ghost use Rattle.std.specs.Fmt.{signed_decimal};
ghost use Rattle.tb_terms.specs.Texts.{term_text, terms_text, quoted, escaped, escape_letter, appl_text, list_text, joined};
ghost use Rattle.tb_terms.specs.Helpers.Prefixes.{KeepsPrefix, comma_before};

use crate::{NoMemory, Term, Terms};
use itoa::Buffer;

/// Writes the text of a term at the end of `into`.
pub fn write_term(term: &Term, into: &mut Vec<u8>) -> Result<(), NoMemory>
    ensures ok { OnOk result (into.new.items ≡ into.old.items ++ term_text term.now) }
    ensures err { OnErr result (into.new.items ≡ into.old.items) }
    ensures full { OnErr result
        (vec_capacity into.old < vec_len into.old + length (term_text term.now)) }
    ensures capacity { vec_capacity into.old ≤ vec_capacity into.new }
{
    let kept = into.len();
    match push_term(term, into) {
        Ok(()) => Ok(()),
        Err(fault) => {
            into.truncate(kept);
            Err(fault)
        }
    }
}

/// Writes the texts of terms at the end of `into`, joined by commas.
pub fn write_terms(terms: &Terms, into: &mut Vec<u8>) -> Result<(), NoMemory>
    ensures ok { OnOk result (into.new.items ≡ into.old.items ++ terms_text terms.now) }
    ensures err { OnErr result (into.new.items ≡ into.old.items) }
    ensures full { OnErr result
        (vec_capacity into.old < vec_len into.old + length (terms_text terms.now)) }
    ensures capacity { vec_capacity into.old ≤ vec_capacity into.new }
{
    let kept = into.len();
    match push_joined(terms.as_slice(), into) {
        Ok(()) => Ok(()),
        Err(fault) => {
            into.truncate(kept);
            Err(fault)
        }
    }
}

#[cycle(push)]
fn push_term(term: &Term, into: &mut Vec<u8>) -> Result<(), NoMemory>
    ensures ok { OnOk result (into.new.items ≡ into.old.items ++ term_text term.now) }
    ensures err { OnErr result (KeepsPrefix into.old.items into.new.items) }
    ensures full { OnErr result
        (vec_capacity into.old < vec_len into.old + length (term_text term.now)) }
    ensures len { OnOk result (vec_len into.new ≡ vec_len into.old + length (term_text term.now)) }
    ensures capacity { vec_capacity into.old ≤ vec_capacity into.new }
{
    match term {
        Term::Int(number) => push_number(*number, into),
        Term::Str(text) => push_quoted(text.as_bytes(), into),
        Term::Appl(name, parts) => push_appl(name.as_bytes(), parts.as_slice(), into),
        Term::List(parts) => push_list(parts.as_slice(), into),
    }
}

#[cycle(push)]
fn push_appl(name: &[u8], parts: &[Term], into: &mut Vec<u8>) -> Result<(), NoMemory>
    ensures ok { OnOk result
        (into.new.items ≡ into.old.items ++ appl_text name.now (map term_text parts.now)) }
    ensures err { OnErr result (KeepsPrefix into.old.items into.new.items) }
    ensures full { OnErr result (vec_capacity into.old
        < vec_len into.old + length (appl_text name.now (map term_text parts.now))) }
    ensures len { OnOk result (vec_len into.new
        ≡ vec_len into.old + length (appl_text name.now (map term_text parts.now))) }
    ensures capacity { vec_capacity into.old ≤ vec_capacity into.new }
{
    into.extend_from_slice(name)?;
    if parts.is_empty() {
        return Ok(());
    }
    into.push(b'(')?;
    push_joined(parts, into)?;
    into.push(b')')?;
    Ok(())
}

#[cycle(push)]
fn push_list(parts: &[Term], into: &mut Vec<u8>) -> Result<(), NoMemory>
    ensures ok { OnOk result
        (into.new.items ≡ into.old.items ++ list_text (map term_text parts.now)) }
    ensures err { OnErr result (KeepsPrefix into.old.items into.new.items) }
    ensures full { OnErr result
        (vec_capacity into.old < vec_len into.old + length (list_text (map term_text parts.now))) }
    ensures len { OnOk result
        (vec_len into.new ≡ vec_len into.old + length (list_text (map term_text parts.now))) }
    ensures capacity { vec_capacity into.old ≤ vec_capacity into.new }
{
    into.push(b'[')?;
    push_joined(parts, into)?;
    into.push(b']')?;
    Ok(())
}

#[cycle(push)]
fn push_joined(terms: &[Term], into: &mut Vec<u8>) -> Result<(), NoMemory>
    ensures ok { OnOk result (into.new.items ≡ into.old.items ++ joined (map term_text terms.now)) }
    ensures err { OnErr result (KeepsPrefix into.old.items into.new.items) }
    ensures full { OnErr result
        (vec_capacity into.old < vec_len into.old + length (joined (map term_text terms.now))) }
    ensures len { OnOk result
        (vec_len into.new ≡ vec_len into.old + length (joined (map term_text terms.now))) }
    ensures capacity { vec_capacity into.old ≤ vec_capacity into.new }
{
    for (position, term) in terms.iter().enumerate() {
        push_comma(position, into)?;
        push_term(term, into)?;
    }
    Ok(())
}

/// Writes the comma before the text at this position of a list. There is no comma before the first text.
fn push_comma(position: usize, into: &mut Vec<u8>) -> Result<(), NoMemory>
    ensures ok { OnOk result (into.new.items ≡ into.old.items ++ comma_before position) }
    ensures err { OnErr result (into.new.items ≡ into.old.items) }
    ensures full { OnErr result
        (vec_capacity into.old < vec_len into.old + length (comma_before position)) }
    ensures len { OnOk result
        (vec_len into.new ≡ vec_len into.old + length (comma_before position)) }
    ensures capacity { vec_capacity into.old ≤ vec_capacity into.new }
{
    if position > 0 {
        into.push(b',')?;
    }
    Ok(())
}

/// Writes a number in decimal. A number from 0 to 9 is pushed as one byte.
#[tactic(auto, using(std::proofs::lemmas::Fmt::decimal_digit))]
fn push_number(number: i64, into: &mut Vec<u8>) -> Result<(), NoMemory>
    ensures ok { OnOk result (into.new.items ≡ into.old.items ++ signed_decimal number) }
    ensures err { OnErr result (into.new.items ≡ into.old.items) }
    ensures full { OnErr result
        (vec_capacity into.old < vec_len into.old + length (signed_decimal number)) }
    ensures len { OnOk result
        (vec_len into.new ≡ vec_len into.old + length (signed_decimal number)) }
    ensures capacity { vec_capacity into.old ≤ vec_capacity into.new }
{
    if 0 <= number && number < 10 {
        into.push(b'0' + number as u8)?;
        return Ok(());
    }
    let mut buffer = Buffer::new();
    into.extend_from_slice(buffer.format(number).as_bytes())?;
    Ok(())
}

/// Writes a string at the end of `into`, in quotes. If memory runs out, a part of the string may be written.
pub fn push_quoted(text: &[u8], into: &mut Vec<u8>) -> Result<(), NoMemory>
    ensures ok { OnOk result (into.new.items ≡ into.old.items ++ quoted text.now) }
    ensures err { OnErr result (KeepsPrefix into.old.items into.new.items) }
    ensures full { OnErr result
        (vec_capacity into.old < vec_len into.old + length (quoted text.now)) }
    ensures len { OnOk result (vec_len into.new ≡ vec_len into.old + length (quoted text.now)) }
    ensures capacity { vec_capacity into.old ≤ vec_capacity into.new }
{
    into.push(b'"')?;
    push_escaped(text, into)?;
    into.push(b'"')?;
    Ok(())
}

fn push_escaped(text: &[u8], into: &mut Vec<u8>) -> Result<(), NoMemory>
    ensures ok { OnOk result (into.new.items ≡ into.old.items ++ flat_map escaped text.now) }
    ensures err { OnErr result (KeepsPrefix into.old.items into.new.items) }
    ensures full { OnErr result
        (vec_capacity into.old < vec_len into.old + length (flat_map escaped text.now)) }
    ensures len { OnOk result
        (vec_len into.new ≡ vec_len into.old + length (flat_map escaped text.now)) }
    ensures capacity { vec_capacity into.old ≤ vec_capacity into.new }
{
    for byte in text {
        push_byte(*byte, into)?;
    }
    Ok(())
}

fn push_byte(byte: u8, into: &mut Vec<u8>) -> Result<(), NoMemory>
    ensures ok { OnOk result (into.new.items ≡ into.old.items ++ escaped byte) }
    ensures err { OnErr result (KeepsPrefix into.old.items into.new.items) }
    ensures full { OnErr result (vec_capacity into.old < vec_len into.old + length (escaped byte)) }
    ensures len { OnOk result (vec_len into.new ≡ vec_len into.old + length (escaped byte)) }
    ensures capacity { vec_capacity into.old ≤ vec_capacity into.new }
{
    match letter_of(byte) {
        Some(letter) => {
            into.push(b'\\')?;
            into.push(letter)?;
            Ok(())
        }
        None => {
            into.push(byte)?;
            Ok(())
        }
    }
}

fn letter_of(byte: u8) -> Option<u8>
    ensures { result ≡ escape_letter byte }
{
    match byte {
        b'\\' => Some(b'\\'),
        b'"' => Some(b'"'),
        b'\n' => Some(b'n'),
        b'\r' => Some(b'r'),
        b'\t' => Some(b't'),
        _ => None,
    }
}
