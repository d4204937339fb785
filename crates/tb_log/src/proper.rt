//! Functions that show that each entry of a log is well-formed. They walk an entry and change nothing.
ghost use Rattle.std.specs.Prelude.{IsTrue};
ghost use Rattle.std.specs.List.{list_all};
ghost use Rattle.tb_terms.specs.Names.{is_string};
ghost use Rattle.tb_terms.specs.Proper.{is_proper};
ghost use Rattle.tb_log.specs.Seens.{entry_seen, number_terms, terms_seen};
ghost use Rattle.tb_log.specs.Proper.{is_proper_entry, is_proper_input, is_proper_tool_line, is_proper_out, is_proper_place};

use crate::entry::{Entry, Input, Out, Place, ToolLine};
use crate::log::Log;
use crate::seen::{Seen, SeenTerms};
use tb_terms::{Term, Text, show_proper};

/// States that each entry of a log is well-formed. The call walks the log and changes nothing. Its contract is for proofs about
/// entries whose parts the proof doesn't see.
pub fn show_proper_log(log: &Log)
    ensures { IsTrue (list_all is_proper_entry log.now.entries) }
{
    for at in 0..log.len() {
        show_seen(&log.at(at));
    }
}

/// States that an entry is well-formed. The call walks the entry and changes nothing.
pub fn show_proper_entry(entry: &Entry)
    ensures { IsTrue (is_proper_entry entry.now) }
{
    show_seen(&Seen::of(entry));
}

fn show_seen(seen: &Seen)
    ensures { IsTrue (is_proper_entry (entry_seen seen.now)) }
{
    match *seen {
        Seen::Did(label) => {
            show_place(label.from);
            show_place(label.to);
            show_seen_terms(label.terms);
        }
        Seen::Quiet => {}
        Seen::Fed(input, _) => show_input(input),
        Seen::Gave(lane, out) => {
            let _lane = lane;
            show_out(out);
        }
    }
}

fn show_place(place: Place)
    ensures { IsTrue (is_proper_place place) }
{
    let _proc = place.proc;
    let _atom = place.atom;
}

fn show_seen_terms(terms: SeenTerms)
    ensures { IsTrue (list_all is_proper (terms_seen terms.entry)) }
{
    match terms {
        SeenTerms::Terms(terms) => show_terms(terms),
        SeenTerms::Numbers(numbers) => show_numbers(numbers),
    }
}

fn show_numbers(numbers: &[i64])
    ensures { IsTrue (list_all is_proper (number_terms numbers.now)) }
{
    for number in numbers {
        show_proper(&Term::Int(*number));
    }
}

fn show_terms(terms: &[Term])
    ensures { IsTrue (list_all is_proper terms.now) }
{
    for term in terms {
        show_proper(term);
    }
}

fn show_input(input: &Input)
    ensures { IsTrue (is_proper_input input.now) }
{
    match input {
        Input::Tick | Input::NoTicks => {}
        Input::Line(lane, line) => {
            let _lane = *lane;
            show_tool_line(line);
        }
        Input::Gone(lane) | Input::Cut(lane) => {
            let _lane = *lane;
        }
    }
}

fn show_tool_line(line: &ToolLine)
    ensures { IsTrue (is_proper_tool_line line.now) }
{
    match line {
        ToolLine::Value(term) => show_proper(term),
        ToolLine::Event(terms) => show_terms(terms.as_slice()),
        ToolLine::Connect(name) => {
            let _name = name.as_bytes();
        }
        ToolLine::Disconnect | ToolLine::Bad => {}
    }
}

fn show_out(out: &Out)
    ensures { IsTrue (is_proper_out out.now) }
{
    match out {
        Out::Start(command) => show_text(command),
        Out::Line(term) => show_proper(term),
        Out::End => {}
    }
}

fn show_text(text: &Text)
    ensures { IsTrue (is_string text.now) }
{
    let _text = text.as_str();
}
