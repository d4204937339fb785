//! How the text of a pattern is written, and the text of an interface.
ghost use Rattle.std.specs.Prelude.{◌≡◌, ◌++◌, ◌∷◌, [], OnOk, OnErr, codes, map};
ghost use Rattle.tb_terms.specs.Helpers.Prefixes.{KeepsPrefix, comma_before};
ghost use Rattle.tb_terms.specs.Texts.{appl_text, joined, list_text};
ghost use Rattle.tb_iface.specs.PatternTexts.{command_words, interface_text, pattern_lines, pattern_text, placeholder_text, sort_text};

use crate::Interface;
use tb_terms::{Name, NoMemory, Pattern, Sort, Text, push_quoted, write_term};

/// Appends the text of a pattern, in the syntax of terms. A hole is its type in angle brackets.
pub fn write_pattern(pattern: &Pattern, into: &mut Vec<u8>) -> Result<(), NoMemory>
    ensures ok { OnOk result (into.new.items ≡ into.old.items ++ pattern_text pattern.now) }
    ensures err { OnErr result (into.new.items ≡ into.old.items) }
{
    let kept = into.len();
    match push_pattern(pattern, into) {
        Ok(()) => Ok(()),
        Err(fault) => {
            into.truncate(kept);
            Err(fault)
        }
    }
}

/// Appends the text of the interface of the tool of this name: a line for the tool, then a line for each pattern.
pub fn write_interface(
    tool: &Name,
    interface: &Interface,
    into: &mut Vec<u8>,
) -> Result<(), NoMemory>
    ensures ok { OnOk result
        (into.new.items ≡ into.old.items ++ interface_text tool.now interface.now) }
    ensures err { OnErr result (into.new.items ≡ into.old.items) }
{
    let kept = into.len();
    match push_interface(tool, interface, into) {
        Ok(()) => Ok(()),
        Err(fault) => {
            into.truncate(kept);
            Err(fault)
        }
    }
}

#[cycle(push)]
fn push_pattern(pattern: &Pattern, into: &mut Vec<u8>) -> Result<(), NoMemory>
    ensures ok { OnOk result (into.new.items ≡ into.old.items ++ pattern_text pattern.now) }
    ensures err { OnErr result (KeepsPrefix into.old.items into.new.items) }
{
    match pattern {
        Pattern::Fixed(term) => write_term(term, into),
        Pattern::Hole(sort) => push_placeholder(sort, into),
        Pattern::Result(_, sort) => push_placeholder(sort, into),
        Pattern::Appl(name, parts) => push_appl(name.as_bytes(), parts.as_slice(), into),
        Pattern::List(parts) => push_list(parts.as_slice(), into),
    }
}

#[cycle(push)]
fn push_appl(name: &[u8], parts: &[Pattern], into: &mut Vec<u8>) -> Result<(), NoMemory>
    ensures ok { OnOk result
        (into.new.items ≡ into.old.items ++ appl_text name.now (map pattern_text parts.now)) }
    ensures err { OnErr result (KeepsPrefix into.old.items into.new.items) }
{
    into.extend_from_slice(name)?;
    if parts.is_empty() {
        return Ok(());
    }
    into.push(b'(')?;
    push_joined(parts, into)?;
    into.push(b')')?;
    Ok(())
}

#[cycle(push)]
fn push_list(parts: &[Pattern], into: &mut Vec<u8>) -> Result<(), NoMemory>
    ensures ok { OnOk result
        (into.new.items ≡ into.old.items ++ list_text (map pattern_text parts.now)) }
    ensures err { OnErr result (KeepsPrefix into.old.items into.new.items) }
{
    into.push(b'[')?;
    push_joined(parts, into)?;
    into.push(b']')?;
    Ok(())
}

#[cycle(push)]
fn push_joined(patterns: &[Pattern], into: &mut Vec<u8>) -> Result<(), NoMemory>
    ensures ok { OnOk result
        (into.new.items ≡ into.old.items ++ joined (map pattern_text patterns.now)) }
    ensures err { OnErr result (KeepsPrefix into.old.items into.new.items) }
{
    for (position, pattern) in patterns.iter().enumerate() {
        push_comma(position, into)?;
        push_pattern(pattern, into)?;
    }
    Ok(())
}

/// Appends the comma before the part at this position of a list, unless this part is the first.
fn push_comma(position: usize, into: &mut Vec<u8>) -> Result<(), NoMemory>
    ensures ok { OnOk result (into.new.items ≡ into.old.items ++ comma_before position) }
    ensures err { OnErr result (into.new.items ≡ into.old.items) }
{
    if position > 0 {
        into.push(b',')?;
    }
    Ok(())
}

fn push_placeholder(sort: &Sort, into: &mut Vec<u8>) -> Result<(), NoMemory>
    ensures ok { OnOk result (into.new.items ≡ into.old.items ++ placeholder_text sort.now) }
    ensures err { OnErr result (KeepsPrefix into.old.items into.new.items) }
{
    into.push(b'<')?;
    push_type(sort, into)?;
    into.push(b'>')?;
    Ok(())
}

#[cycle(types)]
fn push_type(sort: &Sort, into: &mut Vec<u8>) -> Result<(), NoMemory>
    ensures ok { OnOk result (into.new.items ≡ into.old.items ++ sort_text sort.now) }
    ensures err { OnErr result (KeepsPrefix into.old.items into.new.items) }
{
    match sort {
        Sort::Bool => push_bytes(b"bool", into),
        Sort::Int => push_bytes(b"int", into),
        Sort::Str => push_bytes(b"str", into),
        Sort::List(members) => push_list_type(members.get(), into),
        Sort::Any => push_bytes(b"term", into),
        Sort::Tool(name) => push_bytes(name.as_bytes(), into),
    }
}

/// Appends the type of lists whose members have this type.
#[cycle(types)]
fn push_list_type(members: &Sort, into: &mut Vec<u8>) -> Result<(), NoMemory>
    ensures ok { OnOk result
        (into.new.items ≡ into.old.items ++ sort_text (Sort.List members.now)) }
    ensures err { OnErr result (KeepsPrefix into.old.items into.new.items) }
{
    push_bytes(b"list", into)?;
    if matches!(members, Sort::Any) {
        return Ok(());
    }
    into.push(b'(')?;
    push_type(members, into)?;
    into.push(b')')?;
    Ok(())
}

fn push_bytes(bytes: &[u8], into: &mut Vec<u8>) -> Result<(), NoMemory>
    ensures ok { OnOk result (into.new.items ≡ into.old.items ++ bytes.now) }
    ensures err { OnErr result (into.new.items ≡ into.old.items) }
{
    into.extend_from_slice(bytes)?;
    Ok(())
}

fn push_interface(tool: &Name, interface: &Interface, into: &mut Vec<u8>) -> Result<(), NoMemory>
    ensures ok { OnOk result
        (into.new.items ≡ into.old.items ++ interface_text tool.now interface.now) }
    ensures err { OnErr result (KeepsPrefix into.old.items into.new.items) }
{
    push_tool(tool, &interface.command, into)?;
    push_lines(b"to ", interface.to.as_slice(), into)?;
    push_lines(b"from ", interface.from.as_slice(), into)
}

/// Appends the first line of an interface: the tool's name, and its command if it has one.
fn push_tool(tool: &Name, command: &Option<Text>, into: &mut Vec<u8>) -> Result<(), NoMemory>
    ensures ok { OnOk result (into.new.items
        ≡ into.old.items ++ codes "tool " ++ tool.now ++ command_words command.now ++ 10 ∷ []) }
    ensures err { OnErr result (KeepsPrefix into.old.items into.new.items) }
{
    push_bytes(b"tool ", into)?;
    push_bytes(tool.as_bytes(), into)?;
    if let Some(command) = command {
        into.push(b' ')?;
        push_quoted(command.as_bytes(), into)?;
    }
    into.push(b'\n')?;
    Ok(())
}

/// Appends a line for each pattern: this word and the text of the pattern.
fn push_lines(word: &[u8], patterns: &[Pattern], into: &mut Vec<u8>) -> Result<(), NoMemory>
    ensures ok { OnOk result
        (into.new.items ≡ into.old.items ++ pattern_lines word.now patterns.now) }
    ensures err { OnErr result (KeepsPrefix into.old.items into.new.items) }
{
    for pattern in patterns {
        push_line(word, pattern, into)?;
    }
    Ok(())
}

fn push_line(word: &[u8], pattern: &Pattern, into: &mut Vec<u8>) -> Result<(), NoMemory>
    ensures ok { OnOk result
        (into.new.items ≡ into.old.items ++ word.now ++ pattern_text pattern.now ++ 10 ∷ []) }
    ensures err { OnErr result (KeepsPrefix into.old.items into.new.items) }
{
    push_bytes(word, into)?;
    push_pattern(pattern, into)?;
    into.push(b'\n')?;
    Ok(())
}
