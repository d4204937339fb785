//! Writes a line to a sink, part by part. This takes no memory.
ghost use Rattle.std.specs.Prelude.{◌≡◌, ◌++◌, ◌∷◌, [], ◌≤◌, OnOk, OnErr, decimal};
ghost use Rattle.std.specs.List.{flat_map, join_with_byte};
ghost use Rattle.tb_edge.specs.Faults.{Rose};
ghost use Rattle.tb_edge.specs.Sinks.{Writes, WritesPrefix};
ghost use Rattle.tb_message.specs.Messages.{message_text, rest_text};

use itoa::Buffer;
use tb_edge::{Failed, Sink};
use tb_message::{Message, Rest};
use tb_terms::Ident;

/// Writes the prefix, the text of the line and a newline. If the sink fails, it has taken a prefix of these bytes.
pub fn put_line<E: Sink>(prefix: &[u8], line: &Message, err: &mut E) -> Result<(), Failed>
    ensures ok { OnOk result
        (Writes (E.taken err.old) (E.taken err.new)
        (prefix.now ++ message_text line.now ++ 10 ∷ [])) }
    ensures prefix { OnErr result (WritesPrefix (E.taken err.old) (E.taken err.new)
        (prefix.now ++ message_text line.now ++ 10 ∷ [])) }
    ensures rose { OnErr result (Rose (E.faults err.old) (E.faults err.new)) }
    ensures calm { OnOk result (E.faults err.new ≡ E.faults err.old) }
    ensures never_falls { E.faults err.old ≤ E.faults err.new }
{
    match put_text(prefix, line, err) {
        Ok(()) => err.put(b"\n"),
        Err(Failed) => Err(Failed),
    }
}

/// Writes the prefix and the text of the line.
fn put_text<E: Sink>(prefix: &[u8], line: &Message, err: &mut E) -> Result<(), Failed>
    ensures ok { OnOk result
        (Writes (E.taken err.old) (E.taken err.new) (prefix.now ++ message_text line.now)) }
    ensures prefix { OnErr result
        (WritesPrefix (E.taken err.old) (E.taken err.new) (prefix.now ++ message_text line.now)) }
    ensures rose { OnErr result (Rose (E.faults err.old) (E.faults err.new)) }
    ensures calm { OnOk result (E.faults err.new ≡ E.faults err.old) }
    ensures never_falls { E.faults err.old ≤ E.faults err.new }
{
    match err.put(prefix) {
        Ok(()) => put_words(line, err),
        Err(Failed) => Err(Failed),
    }
}

fn put_words<E: Sink>(line: &Message, err: &mut E) -> Result<(), Failed>
    ensures ok { OnOk result (Writes (E.taken err.old) (E.taken err.new) (message_text line.now)) }
    ensures prefix { OnErr result
        (WritesPrefix (E.taken err.old) (E.taken err.new) (message_text line.now)) }
    ensures rose { OnErr result (Rose (E.faults err.old) (E.faults err.new)) }
    ensures calm { OnOk result (E.faults err.new ≡ E.faults err.old) }
    ensures never_falls { E.faults err.old ≤ E.faults err.new }
{
    match err.put(line.words) {
        Ok(()) => put_rest(&line.rest, err),
        Err(Failed) => Err(Failed),
    }
}

/// Writes the rest of the line, after its words.
fn put_rest<E: Sink>(rest: &Rest, err: &mut E) -> Result<(), Failed>
    ensures ok { OnOk result (Writes (E.taken err.old) (E.taken err.new) (rest_text rest.now)) }
    ensures prefix { OnErr result
        (WritesPrefix (E.taken err.old) (E.taken err.new) (rest_text rest.now)) }
    ensures rose { OnErr result (Rose (E.faults err.old) (E.faults err.new)) }
    ensures calm { OnOk result (E.faults err.new ≡ E.faults err.old) }
    ensures never_falls { E.faults err.old ≤ E.faults err.new }
{
    match *rest {
        Rest::Nothing => err.put(b""),
        Rest::Number(number) => put_number(number, err),
        Rest::Names(names) => put_names(names, err),
    }
}

fn put_number<E: Sink>(number: usize, err: &mut E) -> Result<(), Failed>
    ensures ok { OnOk result (Writes (E.taken err.old) (E.taken err.new) (decimal number)) }
    ensures prefix { OnErr result
        (WritesPrefix (E.taken err.old) (E.taken err.new) (decimal number)) }
    ensures rose { OnErr result (Rose (E.faults err.old) (E.faults err.new)) }
    ensures calm { OnOk result (E.faults err.new ≡ E.faults err.old) }
    ensures never_falls { E.faults err.old ≤ E.faults err.new }
{
    let mut buffer = Buffer::new();
    err.put(buffer.format(number).as_bytes())
}

/// Writes names, joined by commas.
fn put_names<E: Sink>(names: &[Ident], err: &mut E) -> Result<(), Failed>
    ensures ok { OnOk result
        (Writes (E.taken err.old) (E.taken err.new) (join_with_byte 44 names.now)) }
    ensures prefix { OnErr result
        (WritesPrefix (E.taken err.old) (E.taken err.new) (join_with_byte 44 names.now)) }
    ensures rose { OnErr result (Rose (E.faults err.old) (E.faults err.new)) }
    ensures calm { OnOk result (E.faults err.new ≡ E.faults err.old) }
    ensures never_falls { E.faults err.old ≤ E.faults err.new }
{
    let Some((first, others)) = names.split_first() else {
        return Ok(());
    };
    match err.put(first.as_bytes()) {
        Ok(()) => put_more_names(others, err),
        Err(Failed) => Err(Failed),
    }
}

/// Writes a comma and the name, for each name.
fn put_more_names<E: Sink>(names: &[Ident], err: &mut E) -> Result<(), Failed>
    ensures ok { OnOk result
        (Writes (E.taken err.old) (E.taken err.new) (flat_map (λ name. 44 ∷ name) names.now)) }
    ensures prefix { OnErr result (WritesPrefix (E.taken err.old) (E.taken err.new)
        (flat_map (λ name. 44 ∷ name) names.now)) }
    ensures rose { OnErr result (Rose (E.faults err.old) (E.faults err.new)) }
    ensures calm { OnOk result (E.faults err.new ≡ E.faults err.old) }
    ensures never_falls { E.faults err.old ≤ E.faults err.new }
{
    for name in names {
        match put_both(b",", name.as_bytes(), err) {
            Ok(()) => {}
            Err(Failed) => return Err(Failed),
        }
    }
    Ok(())
}

/// Writes the first text and then the second one.
fn put_both<E: Sink>(first: &[u8], second: &[u8], err: &mut E) -> Result<(), Failed>
    ensures ok { OnOk result
        (Writes (E.taken err.old) (E.taken err.new) (first.now ++ second.now)) }
    ensures prefix { OnErr result
        (WritesPrefix (E.taken err.old) (E.taken err.new) (first.now ++ second.now)) }
    ensures rose { OnErr result (Rose (E.faults err.old) (E.faults err.new)) }
    ensures calm { OnOk result (E.faults err.new ≡ E.faults err.old) }
    ensures never_falls { E.faults err.old ≤ E.faults err.new }
{
    match err.put(first) {
        Ok(()) => err.put(second),
        Err(Failed) => Err(Failed),
    }
}
