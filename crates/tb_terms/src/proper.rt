//! A theorem: each term is proper.
ghost use Rattle.std.specs.Prelude.{map, IsTrue};
ghost use Rattle.std.specs.List.{list_all};
ghost use Rattle.tb_terms.specs.Proper.{is_proper, has_64_bits};
ghost use Rattle.tb_terms.specs.Names.{is_string};

use crate::{Term, Text};

/// States that the term is proper: its numbers have 64 bits, and its strings and names are well-formed. The call walks the term and
/// changes nothing. A proof uses this contract for a term whose parts it doesn't see.
#[cycle(proper)]
pub fn show_proper(term: &Term)
    ensures { IsTrue (is_proper term.now) }
{
    match term {
        Term::Int(number) => show_number(*number),
        Term::Str(text) => show_text(text),
        Term::Appl(name, parts) => {
            let _name = name.as_bytes();
            show_all(parts.as_slice());
        }
        Term::List(parts) => show_all(parts.as_slice()),
    }
}

#[cycle(proper)]
fn show_all(terms: &[Term])
    ensures { IsTrue (list_all (λ part. part) (map is_proper terms.now)) }
{
    for term in terms {
        show_proper(term);
    }
}

fn show_number(number: i64)
    ensures { IsTrue (has_64_bits number) }
{
    let _value = number;
}

fn show_text(text: &Text)
    ensures { IsTrue (is_string text.now) }
{
    let _text = text.as_str();
}
