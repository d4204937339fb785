//! The text of an output, and the call that sends an output to a write end.
ghost use Rattle.std.specs.Prelude.{◌≡◌, ◌+◌, ◌^◌, ◌<◌, ◌≤◌, ◌++◌, [], ◌∷◌, true, false, OnOk, OnErr, vec_len, vec_capacity};
ghost use Rattle.tb_edge.specs.Ends.{and_taken};
ghost use Rattle.tb_edge.specs.Faults.{Rose};
ghost use Rattle.tb_terms.specs.Texts.{term_text};
ghost use Rattle.tb_terms.specs.declared.term.Term.{out-Term};
ghost use Rattle.tb_log.specs.Shapes.{IsForTool, IsOutInShape};
ghost use Rattle.tb_tool_line.specs.Sending.{IsLineInShape, line_text, most_line_text, taken_of};

use tb_edge::Outlet;
use tb_log::Out;
use tb_terms::{Term, show_proper, write_term};

/// The most bytes of the text of a line in shape.
pub const MOST_LINE_TEXT: usize = 1_376_320;

/// Why an output wasn't sent.
#[derive(Clone, Copy, Debug, PartialEq, Eq)]
pub enum SendFault {
    /// A call of the write end failed: the write end took nothing, and its count of failures rose.
    Cut,
}

/// Appends the text of a line for a tool, without a newline. Takes no memory.
pub fn write_out(out: &Out, into: &mut Vec<u8>)
    requires shape { IsLineInShape out.now }
    requires room { vec_len into.old + most_line_text ≤ vec_capacity into.old }
    ensures text { into.new.items ≡ into.old.items ++ line_text out.now }
    ensures capacity { vec_capacity into.old ≤ vec_capacity into.new }
{
    match out {
        Out::Line(term) => write_line(term, into),
        Out::Start(_) | Out::End => unreachable!(),
    }
}

fn write_line(term: &Term, into: &mut Vec<u8>)
    requires shape { IsForTool (out-Term term.now) }
    requires room { vec_len into.old + most_line_text ≤ vec_capacity into.old }
    ensures text { into.new.items ≡ into.old.items ++ term_text term.now }
    ensures capacity { vec_capacity into.old ≤ vec_capacity into.new }
{
    show_proper(term);
    match write_term(term, into) {
        Ok(()) => {}
        Err(_) => unreachable!(),
    }
}

/// Sends an output to the write end by one call: `begin` with the command of a start, `line` with the text of a line, or `end`.
/// Returns `Cut` if `begin` or `line` fails: then the write end has taken nothing. An end never fails. The buffer is for the text of a
/// line, and is empty after the call. Takes no memory.
pub fn send_out<O: Outlet>(outlet: &mut O, out: &Out, buffer: &mut Vec<u8>) -> Result<(), SendFault>
    requires shape { IsOutInShape out.now }
    requires empty { buffer.old.items ≡ [] }
    requires room { most_line_text ≤ vec_capacity buffer.old }
    ensures ok { OnOk result
        (O.told outlet.new ≡ and_taken (O.told outlet.old) (taken_of out.now ∷ [])) }
    ensures err { OnErr result (O.told outlet.new ≡ O.told outlet.old) }
    ensures rose { OnErr result (Rose (O.faults outlet.old) (O.faults outlet.new)) }
    ensures never_falls { O.faults outlet.old ≤ O.faults outlet.new }
    ensures fits { O.faults outlet.old < 2 ^ 64 → O.faults outlet.new < 2 ^ 64 }
    ensures empty { buffer.new.items ≡ [] }
    ensures room { vec_capacity buffer.old ≤ vec_capacity buffer.new }
{
    match out {
        Out::Start(command) => cut_if(outlet.begin(command.as_str()).is_err()),
        Out::Line(_) => {
            write_out(out, buffer);
            let put = outlet.line(buffer.as_slice());
            buffer.clear();
            cut_if(put.is_err())
        }
        Out::End => {
            outlet.end();
            Ok(())
        }
    }
}

fn cut_if(failed: bool) -> Result<(), SendFault>
    ensures ok { OnOk result (failed ≡ false) }
    ensures err { OnErr result (failed ≡ true) }
{
    if failed { Err(SendFault::Cut) } else { Ok(()) }
}
