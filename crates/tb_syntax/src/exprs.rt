//! The tokens of expressions.

ghost use Rattle.std.specs.Prelude.{◌≡◌, ◌++◌, ◌∷◌, [], OnOk, map};
ghost use Rattle.tb_lex.specs.declared.kind.TokenKind.TheVariants.{Lower, Upper, Symbol as Sign};
ghost use Rattle.tb_lex.specs.declared.symbol.Symbol.TheVariants.{Question};
ghost use Rattle.tb_syntax.specs.Helpers.Canonical.{kind_tokens, expr_tokens, parted, optional, hole_tokens, list_expr_tokens};

use crate::push::{push_comma, push_ident, push_name, push_symbol};
use crate::sorts::push_hole_word;
use crate::{Ast, AstKind};
use std::alloc::Global;
use tb_lex::{Symbol, TokenKind};
use tb_terms::{Ident, Items, Name, NoMemory, Sort};

#[cycle(exprs)]
pub(crate) fn push_expr<'a>(
    alloc: Global,
    expr: &'a Ast,
    into: &mut Items<TokenKind<'a>>,
) -> Result<(), NoMemory>
    ensures { OnOk result (into.new ≡ into.old ++ expr_tokens expr.now) }
{
    push_kind(alloc, &expr.kind, into)?;
    Ok(())
}

#[cycle(exprs)]
#[tactic(auto, using(crate::proofs::KindTokens::tokens_of_appl))]
fn push_kind<'a>(
    alloc: Global,
    kind: &'a AstKind,
    into: &mut Items<TokenKind<'a>>,
) -> Result<(), NoMemory>
    ensures { OnOk result (into.new ≡ into.old ++ kind_tokens kind.now) }
{
    match kind {
        AstKind::Int(number) => {
            into.push(TokenKind::Int(*number))?;
            Ok(())
        }
        AstKind::Str(text) => {
            into.push(TokenKind::Str(text.copy(alloc)?))?;
            Ok(())
        }
        AstKind::Appl(name, parts) => {
            push_appl(alloc, name, parts.as_slice(), into)?;
            Ok(())
        }
        AstKind::Var(name) => {
            push_ident(name, into)?;
            Ok(())
        }
        AstKind::Result(name) => {
            push_result(name, into)?;
            Ok(())
        }
        AstKind::Hole(sort) => {
            push_hole(sort, into)?;
            Ok(())
        }
        AstKind::List(parts) => {
            push_list(alloc, parts.as_slice(), into)?;
            Ok(())
        }
    }
}

#[cycle(exprs)]
pub(crate) fn push_appl<'a>(
    alloc: Global,
    name: &'a Name,
    parts: &'a [Ast],
    into: &mut Items<TokenKind<'a>>,
) -> Result<(), NoMemory>
    ensures { OnOk result
        (into.new ≡ into.old ++ Lower name.now ∷ optional (map expr_tokens parts.now)) }
{
    push_name(name, into)?;
    push_arguments(alloc, parts, into)?;
    Ok(())
}

fn push_result<'a>(name: &'a Ident, into: &mut Items<TokenKind<'a>>) -> Result<(), NoMemory>
    ensures { OnOk result (into.new ≡ into.old ++ Upper name.now ∷ Sign Question ∷ []) }
{
    push_ident(name, into)?;
    push_symbol(Symbol::Question, into)?;
    Ok(())
}

fn push_hole<'a>(sort: &'a Sort, into: &mut Items<TokenKind<'a>>) -> Result<(), NoMemory>
    ensures { OnOk result (into.new ≡ into.old ++ hole_tokens sort.now) }
{
    push_symbol(Symbol::Less, into)?;
    push_hole_word(sort, into)?;
    push_symbol(Symbol::Greater, into)?;
    Ok(())
}

/// Adds arguments in parentheses, or nothing if there are none.
#[cycle(exprs)]
pub(crate) fn push_arguments<'a>(
    alloc: Global,
    parts: &'a [Ast],
    into: &mut Items<TokenKind<'a>>,
) -> Result<(), NoMemory>
    ensures { OnOk result (into.new ≡ into.old ++ optional (map expr_tokens parts.now)) }
{
    if parts.is_empty() {
        return Ok(());
    }
    push_symbol(Symbol::LeftParen, into)?;
    push_parted(alloc, parts, into)?;
    push_symbol(Symbol::RightParen, into)?;
    Ok(())
}

#[cycle(exprs)]
fn push_list<'a>(
    alloc: Global,
    parts: &'a [Ast],
    into: &mut Items<TokenKind<'a>>,
) -> Result<(), NoMemory>
    ensures { OnOk result (into.new ≡ into.old ++ list_expr_tokens (map expr_tokens parts.now)) }
{
    push_symbol(Symbol::LeftBracket, into)?;
    push_parted(alloc, parts, into)?;
    push_symbol(Symbol::RightBracket, into)?;
    Ok(())
}

#[cycle(exprs)]
fn push_parted<'a>(
    alloc: Global,
    parts: &'a [Ast],
    into: &mut Items<TokenKind<'a>>,
) -> Result<(), NoMemory>
    ensures { OnOk result (into.new ≡ into.old ++ parted (map expr_tokens parts.now)) }
{
    for (position, part) in parts.iter().enumerate() {
        push_comma(position, into)?;
        push_expr(alloc, part, into)?;
    }
    Ok(())
}
