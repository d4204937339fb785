//! The tokens of types.

ghost use Rattle.std.specs.Prelude.{◌≡◌, ◌++◌, ◌∷◌, [], IsTrue, OnOk, codes, if◌then◌else◌};
ghost use Rattle.tb_terms.specs.declared.sort.Sort.{out-Sort};
ghost use Rattle.tb_lex.specs.declared.kind.TokenKind.TheVariants.{Lower, Upper, Symbol as Sign};
ghost use Rattle.tb_syntax.specs.Spelling.{word, in_parens};
ghost use Rattle.tb_syntax.specs.Helpers.Canonical.{sort_tokens, list_tokens, is_any, hole_word};

use crate::push::{push_name, push_symbol, push_word};
use tb_lex::{Symbol, TokenKind};
use tb_terms::{Items, NoMemory, Sort};

#[cycle(sorts)]
#[tactic(auto, using(crate::proofs::SortTokens::tokens_of_bool, crate::proofs::SortTokens::tokens_of_int, crate::proofs::SortTokens::tokens_of_str, crate::proofs::SortTokens::tokens_of_any, crate::proofs::SortTokens::tokens_of_tool, crate::proofs::SortTokens::tokens_of_list))]
pub(crate) fn push_sort<'a>(sort: &'a Sort, into: &mut Items<TokenKind<'a>>) -> Result<(), NoMemory>
    ensures { OnOk result (into.new ≡ into.old ++ sort_tokens sort.now) }
{
    match sort {
        Sort::Bool => {
            push_word(b"bool", into)?;
            Ok(())
        }
        Sort::Int => {
            push_word(b"int", into)?;
            Ok(())
        }
        Sort::Str => {
            push_word(b"str", into)?;
            Ok(())
        }
        Sort::List(members) => {
            push_list(members.get(), into)?;
            Ok(())
        }
        Sort::Any => {
            push_word(b"term", into)?;
            Ok(())
        }
        Sort::Tool(name) => {
            push_name(name, into)?;
            Ok(())
        }
    }
}

/// Adds the tokens of a list type. The type of lists of any terms is `list` alone.
#[cycle(sorts)]
fn push_list<'a>(members: &'a Sort, into: &mut Items<TokenKind<'a>>) -> Result<(), NoMemory>
    ensures { OnOk result (into.new
        ≡ into.old ++ list_tokens (is_any (out-Sort members.now)) (sort_tokens members.now)) }
{
    push_word(b"list", into)?;
    if is_any(members) {
        return Ok(());
    }
    push_symbol(Symbol::LeftParen, into)?;
    push_sort(members, into)?;
    push_symbol(Symbol::RightParen, into)?;
    Ok(())
}

fn is_any(sort: &Sort) -> bool
    ensures { result ≡ is_any (out-Sort sort.now) }
{
    matches!(sort, Sort::Any)
}

/// Adds the word of a type in a placeholder.
pub(crate) fn push_hole_word<'a>(
    sort: &'a Sort,
    into: &mut Items<TokenKind<'a>>,
) -> Result<(), NoMemory>
    ensures { OnOk result (into.new ≡ into.old ++ Lower (hole_word (out-Sort sort.now)) ∷ []) }
{
    match sort {
        Sort::Bool => {
            push_word(b"bool", into)?;
            Ok(())
        }
        Sort::Int => {
            push_word(b"int", into)?;
            Ok(())
        }
        Sort::Str => {
            push_word(b"str", into)?;
            Ok(())
        }
        Sort::List(_) => {
            push_word(b"list", into)?;
            Ok(())
        }
        Sort::Any => {
            push_word(b"term", into)?;
            Ok(())
        }
        Sort::Tool(name) => {
            push_name(name, into)?;
            Ok(())
        }
    }
}
