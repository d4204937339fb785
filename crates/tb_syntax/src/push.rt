//! Functions that add one token to a list.

ghost use Rattle.std.specs.Prelude.{◌≡◌, ◌++◌, ◌∷◌, [], IsTrue, OnOk};
ghost use Rattle.tb_terms.specs.Names.{is_name};
ghost use Rattle.tb_lex.specs.declared.kind.TokenKind.TheVariants.{Lower, Upper, Symbol as Sign};
ghost use Rattle.tb_syntax.specs.Helpers.Canonical.{comma_before};

use tb_lex::{LowerWord, Symbol, TokenKind, UpperWord};
use tb_terms::{Ident, Items, Name, NoMemory};

pub(crate) fn push_symbol(symbol: Symbol, into: &mut Items<TokenKind>) -> Result<(), NoMemory>
    ensures { OnOk result (into.new ≡ into.old ++ Sign symbol ∷ []) }
{
    into.push(TokenKind::Symbol(symbol))?;
    Ok(())
}

pub(crate) fn push_word<'a>(word: &'a [u8], into: &mut Items<TokenKind<'a>>) -> Result<(), NoMemory>
    requires { IsTrue (is_name word.now) }
    ensures { OnOk result (into.new ≡ into.old ++ Lower word.now ∷ []) }
{
    into.push(TokenKind::Lower(LowerWord::new(word)))?;
    Ok(())
}

pub(crate) fn push_name<'a>(name: &'a Name, into: &mut Items<TokenKind<'a>>) -> Result<(), NoMemory>
    ensures { OnOk result (into.new ≡ into.old ++ Lower name.now ∷ []) }
{
    into.push(TokenKind::Lower(LowerWord::new(name.as_bytes())))?;
    Ok(())
}

pub(crate) fn push_ident<'a>(
    ident: &'a Ident,
    into: &mut Items<TokenKind<'a>>,
) -> Result<(), NoMemory>
    ensures { OnOk result (into.new ≡ into.old ++ Upper ident.now ∷ []) }
{
    into.push(TokenKind::Upper(UpperWord::new(ident.as_bytes())))?;
    Ok(())
}

/// Adds the comma before the element at this position of a list. The first element has none.
pub(crate) fn push_comma(position: usize, into: &mut Items<TokenKind>) -> Result<(), NoMemory>
    ensures { OnOk result (into.new ≡ into.old ++ comma_before position) }
{
    if position > 0 {
        push_symbol(Symbol::Comma, into)?;
    }
    Ok(())
}
