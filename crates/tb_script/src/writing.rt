//! Appends the text of an error to bytes.

ghost use Rattle.std.specs.Prelude.{◌≡◌, ◌++◌, ◌∷◌, OnOk, OnErr, decimal};
ghost use Rattle.std.specs.List.{flat_map, join_with_byte};
ghost use Rattle.tb_message.specs.Messages.{message_text, rest_text};
ghost use Rattle.tb_terms.specs.Helpers.Prefixes.{KeepsPrefix};
ghost use Rattle.tb_script.specs.Lines.{script_line};

use crate::ScriptFault;
use itoa::Buffer;
use tb_message::{Message, Rest};
use tb_terms::{Ident, NoMemory};

/// Appends the text of an error's line, the same as [`ScriptFault::message`], for a caller that collects bytes. If memory runs out,
/// the bytes remain unchanged.
pub fn write_fault(fault: &ScriptFault, into: &mut Vec<u8>) -> Result<(), NoMemory>
    ensures ok { OnOk result (into.new.items ≡ into.old.items ++ script_line fault.now) }
    ensures err { OnErr result (into.new.items ≡ into.old.items) }
{
    let kept = into.len();
    match push_line(&fault.message(), into) {
        Ok(()) => Ok(()),
        Err(NoMemory) => {
            into.truncate(kept);
            Err(NoMemory)
        }
    }
}

fn push_line(line: &Message, into: &mut Vec<u8>) -> Result<(), NoMemory>
    ensures ok { OnOk result (into.new.items ≡ into.old.items ++ message_text line.now) }
    ensures err { OnErr result (KeepsPrefix into.old.items into.new.items) }
{
    into.extend_from_slice(line.words)?;
    push_rest(&line.rest, into)
}

/// Appends the rest of the line, after its words.
fn push_rest(rest: &Rest, into: &mut Vec<u8>) -> Result<(), NoMemory>
    ensures ok { OnOk result (into.new.items ≡ into.old.items ++ rest_text rest.now) }
    ensures err { OnErr result (KeepsPrefix into.old.items into.new.items) }
{
    match *rest {
        Rest::Nothing => Ok(()),
        Rest::Number(number) => push_number(number, into),
        Rest::Names(names) => push_names(names, into),
    }
}

fn push_number(number: usize, into: &mut Vec<u8>) -> Result<(), NoMemory>
    ensures ok { OnOk result (into.new.items ≡ into.old.items ++ decimal number) }
    ensures err { OnErr result (into.new.items ≡ into.old.items) }
{
    let mut buffer = Buffer::new();
    into.extend_from_slice(buffer.format(number).as_bytes())?;
    Ok(())
}

/// Appends names, joined by commas.
fn push_names(names: &[Ident], into: &mut Vec<u8>) -> Result<(), NoMemory>
    ensures ok { OnOk result (into.new.items ≡ into.old.items ++ join_with_byte 44 names.now) }
    ensures err { OnErr result (KeepsPrefix into.old.items into.new.items) }
{
    let Some((first, others)) = names.split_first() else {
        return Ok(());
    };
    push_text(first.as_bytes(), into)?;
    push_more_names(others, into)
}

/// Appends a comma and the name, for each name.
fn push_more_names(names: &[Ident], into: &mut Vec<u8>) -> Result<(), NoMemory>
    ensures ok { OnOk result
        (into.new.items ≡ into.old.items ++ flat_map (λ name. 44 ∷ name) names.now) }
    ensures err { OnErr result (KeepsPrefix into.old.items into.new.items) }
{
    for name in names {
        push_name(name, into)?;
    }
    Ok(())
}

fn push_name(name: &Ident, into: &mut Vec<u8>) -> Result<(), NoMemory>
    ensures ok { OnOk result (into.new.items ≡ into.old.items ++ 44 ∷ name.now) }
    ensures err { OnErr result (KeepsPrefix into.old.items into.new.items) }
{
    into.push(b',')?;
    into.extend_from_slice(name.as_bytes())?;
    Ok(())
}

fn push_text(text: &[u8], into: &mut Vec<u8>) -> Result<(), NoMemory>
    ensures ok { OnOk result (into.new.items ≡ into.old.items ++ text.now) }
    ensures err { OnErr result (into.new.items ≡ into.old.items) }
{
    into.extend_from_slice(text)?;
    Ok(())
}
