//! Functions that show proofs the invariants of a token's parts. The calls change nothing.

ghost use Rattle.std.specs.Prelude.{IsTrue};
ghost use Rattle.std.specs.List.{list_all};
ghost use Rattle.tb_terms.specs.Proper.{has_64_bits};
ghost use Rattle.tb_terms.specs.Names.{is_string};
ghost use Rattle.tb_syntax.specs.Helpers.ProperKinds.{is_proper_kind};

use tb_lex::TokenKind;
use tb_terms::Text;

/// Shows that each token is well-formed: its number, string, or name meets the invariant of its type.
pub(crate) fn show_proper(kinds: &[TokenKind])
    ensures { IsTrue (list_all is_proper_kind kinds.now) }
{
    for kind in kinds {
        show_kind(kind);
    }
}

fn show_kind(kind: &TokenKind)
    ensures { IsTrue (is_proper_kind kind.now) }
{
    match kind {
        TokenKind::Int(number) => show_number(*number),
        TokenKind::Str(text) => show_text(text),
        TokenKind::Lower(name) => {
            let _name = name.as_bytes();
        }
        TokenKind::Upper(ident) => {
            let _ident = ident.as_bytes();
        }
        TokenKind::Symbol(_) => {}
    }
}

fn show_number(number: i64)
    ensures { IsTrue (has_64_bits number) }
{
    let _value = number;
}

fn show_text(text: &Text)
    ensures { IsTrue (is_string text.now) }
{
    let _text = text.as_str();
}
