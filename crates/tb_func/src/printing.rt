//! The text that `printf` prints.
ghost use Rattle.std.specs.Prelude.{◌≡◌, false, IsTrue, IfOk, option_map};
ghost use Rattle.std.specs.List.{list_all};
ghost use Rattle.std.specs.Vec.{vec_items};
ghost use Rattle.tb_terms.specs.Names.{is_string};
ghost use Rattle.tb_terms.specs.Proper.{is_proper};
ghost use Rattle.tb_terms.specs.declared.term.Term.TheVariants as term;
ghost use Rattle.tb_func.specs.Limits.{limited};
ghost use Rattle.tb_func.specs.Printing.{printf_of, printed, format_text};

use crate::limits::limited;
use crate::printer::Printer;
use std::alloc::Global;
use tb_terms::{NoMemory, Term, Terms, Text, show_proper};

/// Returns the text that `printf` prints, as a string, or `None` if there is none. The first argument is the format.
pub fn printf_text(alloc: Global, args: &Terms) -> Result<Option<Term>, NoMemory>
    ensures { IfOk result (λ v. v ≡ printf_of args.now) }
{
    match args.as_slice() {
        [Term::Str(format), others @ ..] => format_text(alloc, format, others),
        _ => Ok(None),
    }
}

fn format_text(alloc: Global, format: &Text, args: &[Term]) -> Result<Option<Term>, NoMemory>
    ensures { IfOk result (λ v. v ≡ format_text format.now args.now) }
{
    let format = format.as_str();
    show_all_proper(args);
    match printed(alloc, format.as_bytes(), args)? {
        Some(bytes) => Ok(string_term(bytes)),
        None => Ok(None),
    }
}

/// States that these terms are proper. Changes nothing, as `show_proper`.
fn show_all_proper(terms: &[Term])
    ensures { IsTrue (list_all is_proper terms.now) }
{
    for term in terms {
        show_proper(term);
    }
}

fn string_term(bytes: Vec<u8>) -> Option<Term>
    requires { IsTrue (is_string bytes.items) }
    ensures { result ≡ limited (term.Str bytes.items) }
{
    match Text::from_vec(bytes) {
        Some(text) => limited(Term::Str(text)),
        None => unreachable!(),
    }
}

fn printed(alloc: Global, format: &[u8], args: &[Term]) -> Result<Option<Vec<u8>>, NoMemory>
    ensures { IfOk result
        (λ v. option_map (λ text. vec_items text) v ≡ printed false format.now args.now) }
{
    let mut printer = Printer::new(alloc);
    for byte in format {
        if !printer.take(*byte, args)? {
            return Ok(None);
        }
    }
    Ok(printer.finish(args))
}
