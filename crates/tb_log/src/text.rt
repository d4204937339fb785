//! Writes the line of each entry.
ghost use Rattle.std.specs.Prelude.{◌≡◌, ◌++◌, [], ◌∷◌, OnOk, OnErr, codes, decimal};
ghost use Rattle.std.specs.List.{flat_map};
ghost use Rattle.tb_terms.specs.Texts.{term_text};
ghost use Rattle.tb_terms.specs.declared.term.Term.TheVariants.{Int};
ghost use Rattle.tb_terms.specs.Helpers.Prefixes.{KeepsPrefix};
ghost use Rattle.tb_log.specs.LogText.{entry_text, entry_words, kind_word, label_words, term_words, arguments_text, fed_words, input_words, tool_line_words, out_words, why_word};
ghost use Rattle.tb_log.specs.Seens.{entry_seen, number_terms, terms_seen};
ghost use Rattle.tb_log.specs.Helpers.StepText.{shown_places, shown_terms};

use crate::entry::{Entry, Input, LabelKind, Out, Reply, ToolLine, Why};
use crate::seen::{Seen, SeenLabel, SeenTerms};
use crate::step_line::{LINE_BYTES, put_head, put_line};
use itoa::Buffer;
use tb_terms::{NoMemory, Term, Terms, push_quoted, write_term, write_terms};

/// Appends the line of an entry with this number. If memory runs out, the bytes remain unchanged.
pub fn write_entry(number: u64, entry: &Entry, into: &mut Vec<u8>) -> Result<(), NoMemory>
    ensures ok { OnOk result (into.new.items ≡ into.old.items ++ entry_text number entry.now) }
    ensures err { OnErr result (into.new.items ≡ into.old.items) }
{
    write_seen(number, &Seen::of(entry), into)
}

/// Appends the line of a borrowed entry with this number. If memory runs out, the bytes remain unchanged.
pub fn write_seen(number: u64, seen: &Seen, into: &mut Vec<u8>) -> Result<(), NoMemory>
    ensures ok { OnOk result
        (into.new.items ≡ into.old.items ++ entry_text number (entry_seen seen.now)) }
    ensures err { OnErr result (into.new.items ≡ into.old.items) }
{
    if let Seen::Did(label) = *seen {
        let mut line = [0; LINE_BYTES];
        if let Some(start) = put_line(number, &label, &mut line) {
            return push_text(&line[start..], into);
        }
    }
    write_any(number, seen, into)
}

/// Appends the line of any entry, part by part. If memory runs out, the bytes remain unchanged.
#[inline(never)]
fn write_any(number: u64, seen: &Seen, into: &mut Vec<u8>) -> Result<(), NoMemory>
    ensures ok { OnOk result
        (into.new.items ≡ into.old.items ++ entry_text number (entry_seen seen.now)) }
    ensures err { OnErr result (into.new.items ≡ into.old.items) }
{
    let kept = into.len();
    match push_entry(number, seen, into) {
        Ok(()) => Ok(()),
        Err(fault) => {
            into.truncate(kept);
            Err(fault)
        }
    }
}

fn push_entry(number: u64, seen: &Seen, into: &mut Vec<u8>) -> Result<(), NoMemory>
    ensures ok { OnOk result
        (into.new.items ≡ into.old.items ++ entry_text number (entry_seen seen.now)) }
    ensures err { OnErr result (KeepsPrefix into.old.items into.new.items) }
{
    push_number(number, into)?;
    into.push(b' ')?;
    push_words(seen, into)?;
    into.push(b'\n')?;
    Ok(())
}

fn push_words(seen: &Seen, into: &mut Vec<u8>) -> Result<(), NoMemory>
    ensures ok { OnOk result
        (into.new.items ≡ into.old.items ++ entry_words (entry_seen seen.now)) }
    ensures err { OnErr result (KeepsPrefix into.old.items into.new.items) }
{
    match *seen {
        Seen::Did(label) => push_label(&label, into),
        Seen::Quiet => push_text(b"quiet", into),
        Seen::Fed(input, reply) => push_fed(reply, input, into),
        Seen::Gave(lane, out) => push_gave(lane, out, into),
    }
}

#[tactic(auto, using(crate::proofs::StepLemmas::words_in_parts))]
fn push_label(label: &SeenLabel, into: &mut Vec<u8>) -> Result<(), NoMemory>
    ensures ok { OnOk result (into.new.items ≡ into.old.items
        ++ label_words label.now.kind label.now.from label.now.to (terms_seen label.now.terms)) }
    ensures err { OnErr result (KeepsPrefix into.old.items into.new.items) }
{
    push_head(label, into)?;
    push_shown_terms(label, into)
}

/// Appends the word and the places of a step.
fn push_head(label: &SeenLabel, into: &mut Vec<u8>) -> Result<(), NoMemory>
    ensures ok { OnOk result (into.new.items ≡ into.old.items
        ++ (kind_word label.now.kind ++ shown_places label.now.kind label.now.from label.now.to)) }
    ensures err { OnErr result (into.new.items ≡ into.old.items) }
{
    let mut line = [0; LINE_BYTES];
    let start = put_head(label, &mut line, LINE_BYTES);
    push_text(&line[start..], into)
}

fn push_shown_terms(label: &SeenLabel, into: &mut Vec<u8>) -> Result<(), NoMemory>
    ensures ok { OnOk result (into.new.items
        ≡ into.old.items ++ term_words (shown_terms label.now.kind (terms_seen label.now.terms))) }
    ensures err { OnErr result (KeepsPrefix into.old.items into.new.items) }
{
    match label.kind {
        LabelKind::Finish | LabelKind::Halt => Ok(()),
        _ => push_terms(label.terms, into),
    }
}

/// Returns the word with which the line of a step of this kind begins.
pub fn kind_word(kind: LabelKind) -> &'static [u8]
    ensures { result.now ≡ kind_word kind }
{
    match kind {
        LabelKind::Msg => b"msg",
        LabelKind::Set => b"set",
        LabelKind::Tau => b"tau",
        LabelKind::Printf => b"printf",
        LabelKind::SndNote => b"snd-note",
        LabelKind::RecNote => b"rec-note",
        LabelKind::NoNote => b"no-note",
        LabelKind::Subscribe => b"subscribe",
        LabelKind::Unsubscribe => b"unsubscribe",
        LabelKind::Create => b"create",
        LabelKind::Execute => b"execute",
        LabelKind::RecConnect => b"rec-connect",
        LabelKind::RecDisconnect => b"rec-disconnect",
        LabelKind::SndEval => b"snd-eval",
        LabelKind::RecValue => b"rec-value",
        LabelKind::SndDo => b"snd-do",
        LabelKind::RecEvent => b"rec-event",
        LabelKind::SndAckEvent => b"snd-ack-event",
        LabelKind::SndTerminate => b"snd-terminate",
        LabelKind::Shutdown => b"shutdown",
        LabelKind::Finish => b"finish",
        LabelKind::Halt => b"halt",
    }
}

fn push_terms(terms: SeenTerms, into: &mut Vec<u8>) -> Result<(), NoMemory>
    ensures ok { OnOk result
        (into.new.items ≡ into.old.items ++ term_words (terms_seen terms.entry)) }
    ensures err { OnErr result (KeepsPrefix into.old.items into.new.items) }
{
    match terms {
        SeenTerms::Terms(terms) => push_all(terms, into),
        SeenTerms::Numbers(numbers) => push_numbers(numbers, into),
    }
}

fn push_all(terms: &[Term], into: &mut Vec<u8>) -> Result<(), NoMemory>
    ensures ok { OnOk result (into.new.items ≡ into.old.items ++ term_words terms.now) }
    ensures err { OnErr result (KeepsPrefix into.old.items into.new.items) }
{
    match terms.split_first() {
        None => Ok(()),
        Some((first, others)) => {
            into.push(b' ')?;
            write_term(first, into)?;
            push_others(others, into)
        }
    }
}

/// Appends a comma and the term, for each term.
fn push_others(terms: &[Term], into: &mut Vec<u8>) -> Result<(), NoMemory>
    ensures ok { OnOk result
        (into.new.items ≡ into.old.items ++ flat_map (λ term. 44 ∷ term_text term) terms.now) }
    ensures err { OnErr result (KeepsPrefix into.old.items into.new.items) }
{
    for term in terms {
        into.push(b',')?;
        write_term(term, into)?;
    }
    Ok(())
}

fn push_numbers(numbers: &[i64], into: &mut Vec<u8>) -> Result<(), NoMemory>
    ensures ok { OnOk result
        (into.new.items ≡ into.old.items ++ term_words (number_terms numbers.now)) }
    ensures err { OnErr result (KeepsPrefix into.old.items into.new.items) }
{
    match numbers.split_first() {
        None => Ok(()),
        Some((first, others)) => {
            into.push(b' ')?;
            write_term(&Term::Int(*first), into)?;
            push_other_numbers(others, into)
        }
    }
}

/// Appends a comma and the number, for each number.
fn push_other_numbers(numbers: &[i64], into: &mut Vec<u8>) -> Result<(), NoMemory>
    ensures ok { OnOk result (into.new.items
        ≡ into.old.items ++ flat_map (λ number. 44 ∷ term_text (Int number)) numbers.now) }
    ensures err { OnErr result (KeepsPrefix into.old.items into.new.items) }
{
    for number in numbers {
        into.push(b',')?;
        write_term(&Term::Int(*number), into)?;
    }
    Ok(())
}

fn push_fed(reply: Reply, input: &Input, into: &mut Vec<u8>) -> Result<(), NoMemory>
    ensures ok { OnOk result (into.new.items ≡ into.old.items ++ fed_words reply input.now) }
    ensures err { OnErr result (KeepsPrefix into.old.items into.new.items) }
{
    match reply {
        Reply::Took => push_input(input, into),
        Reply::Dropped(why) => {
            push_drop(why, into)?;
            push_input(input, into)
        }
    }
}

fn push_drop(why: Why, into: &mut Vec<u8>) -> Result<(), NoMemory>
    ensures ok { OnOk result
        (into.new.items ≡ into.old.items ++ (codes "drop " ++ why_word why ++ 32 ∷ [])) }
    ensures err { OnErr result (KeepsPrefix into.old.items into.new.items) }
{
    push_text(b"drop ", into)?;
    push_why(why, into)?;
    into.push(b' ')?;
    Ok(())
}

fn push_why(why: Why, into: &mut Vec<u8>) -> Result<(), NoMemory>
    ensures ok { OnOk result (into.new.items ≡ into.old.items ++ why_word why) }
    ensures err { OnErr result (into.new.items ≡ into.old.items) }
{
    push_text(why_word(why), into)
}

/// Returns the word of the reason why an input was dropped.
pub fn why_word(why: Why) -> &'static [u8]
    ensures { result.now ≡ why_word why }
{
    match why {
        Why::Unasked => b"unasked",
        Why::NotLive => b"not-live",
        Why::Named => b"named",
        Why::Stranger => b"stranger",
        Why::Bad => b"bad",
        Why::Down => b"down",
    }
}

fn push_input(input: &Input, into: &mut Vec<u8>) -> Result<(), NoMemory>
    ensures ok { OnOk result (into.new.items ≡ into.old.items ++ input_words input.now) }
    ensures err { OnErr result (KeepsPrefix into.old.items into.new.items) }
{
    match input {
        Input::Tick => push_text(b"tick", into),
        Input::NoTicks => push_text(b"noticks", into),
        Input::Line(lane, line) => {
            push_lane(b"line ", *lane, into)?;
            into.push(b' ')?;
            push_tool_line(line, into)
        }
        Input::Gone(lane) => push_lane(b"gone ", *lane, into),
        Input::Cut(lane) => push_lane(b"cut ", *lane, into),
    }
}

/// Appends the word, which ends in a space, and the number of the lane.
fn push_lane(word: &[u8], lane: u8, into: &mut Vec<u8>) -> Result<(), NoMemory>
    ensures ok { OnOk result (into.new.items ≡ into.old.items ++ (word.now ++ decimal lane)) }
    ensures err { OnErr result (KeepsPrefix into.old.items into.new.items) }
{
    push_text(word, into)?;
    push_number(u64::from(lane), into)
}

fn push_tool_line(line: &ToolLine, into: &mut Vec<u8>) -> Result<(), NoMemory>
    ensures ok { OnOk result (into.new.items ≡ into.old.items ++ tool_line_words line.now) }
    ensures err { OnErr result (KeepsPrefix into.old.items into.new.items) }
{
    match line {
        ToolLine::Value(term) => {
            push_text(b"snd-value(", into)?;
            write_term(term, into)?;
            push_text(b")", into)
        }
        ToolLine::Event(terms) => push_event(terms, into),
        ToolLine::Connect(name) => push_of(b"snd-connect", name.as_bytes(), into),
        ToolLine::Disconnect => push_text(b"snd-disconnect", into),
        ToolLine::Bad => push_text(b"?", into),
    }
}

fn push_event(terms: &Terms, into: &mut Vec<u8>) -> Result<(), NoMemory>
    ensures ok { OnOk result
        (into.new.items ≡ into.old.items ++ (codes "snd-event" ++ arguments_text terms.now)) }
    ensures err { OnErr result (KeepsPrefix into.old.items into.new.items) }
{
    push_text(b"snd-event", into)?;
    push_arguments(terms, into)
}

/// Appends the terms in parentheses, or nothing if there are no terms.
fn push_arguments(terms: &Terms, into: &mut Vec<u8>) -> Result<(), NoMemory>
    ensures ok { OnOk result (into.new.items ≡ into.old.items ++ arguments_text terms.now) }
    ensures err { OnErr result (KeepsPrefix into.old.items into.new.items) }
{
    if terms.is_empty() {
        return Ok(());
    }
    into.push(b'(')?;
    write_terms(terms, into)?;
    into.push(b')')?;
    Ok(())
}

/// Appends the word, and `inner` in parentheses.
fn push_of(word: &[u8], inner: &[u8], into: &mut Vec<u8>) -> Result<(), NoMemory>
    ensures ok { OnOk result
        (into.new.items ≡ into.old.items ++ (word.now ++ 40 ∷ inner.now ++ 41 ∷ [])) }
    ensures err { OnErr result (KeepsPrefix into.old.items into.new.items) }
{
    push_text(word, into)?;
    into.push(b'(')?;
    push_text(inner, into)?;
    into.push(b')')?;
    Ok(())
}

fn push_gave(lane: u8, out: &Out, into: &mut Vec<u8>) -> Result<(), NoMemory>
    ensures ok { OnOk result (into.new.items
        ≡ into.old.items ++ (codes "out " ++ decimal lane ++ 32 ∷ out_words out.now)) }
    ensures err { OnErr result (KeepsPrefix into.old.items into.new.items) }
{
    push_lane(b"out ", lane, into)?;
    into.push(b' ')?;
    push_out(out, into)
}

fn push_out(out: &Out, into: &mut Vec<u8>) -> Result<(), NoMemory>
    ensures ok { OnOk result (into.new.items ≡ into.old.items ++ out_words out.now) }
    ensures err { OnErr result (KeepsPrefix into.old.items into.new.items) }
{
    match out {
        Out::Start(command) => {
            push_text(b"start ", into)?;
            push_quoted(command.as_bytes(), into)
        }
        Out::Line(term) => write_term(term, into),
        Out::End => push_text(b"end", into),
    }
}

/// Appends a number in decimal. A number of one digit is written as one byte, without a buffer.
#[tactic(auto, using(std::proofs::lemmas::Fmt::decimal_digit))]
fn push_number(number: u64, into: &mut Vec<u8>) -> Result<(), NoMemory>
    ensures ok { OnOk result (into.new.items ≡ into.old.items ++ decimal number) }
    ensures err { OnErr result (into.new.items ≡ into.old.items) }
{
    if number < 10 {
        into.push(b'0' + number as u8)?;
        return Ok(());
    }
    let mut buffer = Buffer::new();
    into.extend_from_slice(buffer.format(number).as_bytes())?;
    Ok(())
}

fn push_text(text: &[u8], into: &mut Vec<u8>) -> Result<(), NoMemory>
    ensures ok { OnOk result (into.new.items ≡ into.old.items ++ text.now) }
    ensures err { OnErr result (into.new.items ≡ into.old.items) }
{
    into.extend_from_slice(text)?;
    Ok(())
}
