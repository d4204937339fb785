//! A reader of tokens from the left.

ghost use Rattle.std.specs.Prelude.{◌≡◌, ◌∷◌, [], MatchOption};
ghost use Rattle.std.specs.Bool.{MatchBool};
ghost use Rattle.tb_syntax.specs.Spelling.{kinds_of};
ghost use Rattle.tb_parse.specs.Helpers.Parsing.{begins, expect, is_sign, is_word, is_time, upper, lower, text, free_name};
ghost use Rattle.tb_parse.specs.Helpers.Reading.{Meets, runs, eaten, next};

use crate::ParseFault;
use std::alloc::Global;
use std::marker::Model;
use tb_lex::{Symbol, Token, TokenKind};
use tb_syntax::{is_reserved, is_time_word};
use tb_terms::{Ident, Name, Text};

/// A reader of tokens from the left. Contracts see the position of the next token, and the kinds of the tokens from there.
#[derive(Drop)]
pub(crate) struct Reader<'a, 't> {
    rest: &'a [Token<'t>],
    at: usize,
}

impl<'a, 't> Model for Reader<'a, 't> {
    ghost use Rattle.tb_parse.specs.Helpers.Reading.{Ahead};

    ghost Value = { Ahead };

    ghost use Rattle.std.specs.Prelude.{◌+◌, ◌<◌, ◌^◌, length};
    ghost use Rattle.tb_syntax.specs.Spelling.{kinds_of};

    ghost view = { λ reader. record { at = reader.at; kinds = kinds_of reader.rest.now } };

    ghost invariant = { λ reader. reader.at + length reader.rest.now < 2 ^ 64 };
}

impl<'a, 't> Reader<'a, 't> {
    pub(crate) fn new(tokens: &'a [Token<'t>]) -> Reader<'a, 't>
        ensures { result ≡ record { at = 0; kinds = kinds_of tokens.now } }
    {
        Reader {
            rest: tokens,
            at: 0,
        }
    }

    /// Returns the position of the next token, or the number of tokens at the end.
    pub(crate) fn position(&self) -> usize
        ensures { result ≡ self.now.at }
    {
        self.at
    }

    /// Returns whether no token is left.
    pub(crate) fn is_done(&self) -> bool
        ensures { MatchBool result (self.now.kinds ≡ []) (self.now.kinds ≡ [] → ⊥) }
    {
        self.rest.is_empty()
    }

    /// Takes the next token, or returns none at the end.
    pub(crate) fn take(&mut self) -> Option<&'a TokenKind<'t>>
        ensures { MatchOption result ((self.old.kinds ≡ []) × (self.new ≡ self.old))
            (λ kind. (self.old.kinds ≡ kind.now ∷ self.new.kinds) × (self.new ≡ next self.old)) }
    {
        match self.rest {
            [] => None,
            [first, rest @ ..] => {
                self.rest = rest;
                self.at += 1;
                Some(&first.kind)
            }
        }
    }

    pub(crate) fn is_sign(&self, sign: Symbol) -> bool
        ensures { result ≡ begins (is_sign sign) self.now.kinds }
    {
        match self.rest.first() {
            Some(token) => is_sign(sign, &token.kind),
            None => false,
        }
    }

    pub(crate) fn is_word(&self, word: &[u8]) -> bool
        ensures { result ≡ begins (is_word word.now) self.now.kinds }
    {
        match self.rest.first() {
            Some(token) => is_word(word, &token.kind),
            None => false,
        }
    }

    /// Returns whether a time condition comes next.
    pub(crate) fn is_time(&self) -> bool
        ensures { result ≡ begins is_time self.now.kinds }
    {
        match self.rest.first() {
            Some(token) => is_time(&token.kind),
            None => false,
        }
    }

    /// Takes this symbol if it comes next. Returns whether it did.
    pub(crate) fn eat_sign(&mut self, sign: Symbol) -> bool
        ensures found { result ≡ begins (is_sign sign) self.old.kinds }
        ensures behind { self.new ≡ eaten (is_sign sign) self.old }
    {
        let found = self.is_sign(sign);
        if found {
            self.take();
        }
        found
    }

    /// Takes this word if it comes next. Returns whether it did.
    pub(crate) fn eat_word(&mut self, word: &[u8]) -> bool
        ensures found { result ≡ begins (is_word word.now) self.old.kinds }
        ensures behind { self.new ≡ eaten (is_word word.now) self.old }
    {
        let found = self.is_word(word);
        if found {
            self.take();
        }
        found
    }

    /// Takes this symbol. If another token or the end comes next, the error is `Syntax` there.
    pub(crate) fn skip_sign(&mut self, sign: Symbol) -> Result<(), ParseFault>
        ensures { Meets (runs (expect (is_sign sign) tt) self.old) result self.new }
    {
        if self.eat_sign(sign) {
            Ok(())
        } else {
            Err(ParseFault::Syntax(self.at))
        }
    }

    /// Takes this word. If another token or the end comes next, the error is `Syntax` there.
    pub(crate) fn skip_word(&mut self, word: &[u8]) -> Result<(), ParseFault>
        ensures { Meets (runs (expect (is_word word.now) tt) self.old) result self.new }
    {
        if self.eat_word(word) {
            Ok(())
        } else {
            Err(ParseFault::Syntax(self.at))
        }
    }

    pub(crate) fn upper(&mut self, alloc: Global) -> Result<Ident, ParseFault>
        ensures { Meets (runs upper self.old) result self.new }
    {
        let at = self.at;
        match self.take() {
            Some(TokenKind::Upper(name)) => Ok(name.copy(alloc)?),
            _ => Err(ParseFault::Syntax(at)),
        }
    }

    pub(crate) fn lower(&mut self, alloc: Global) -> Result<Name, ParseFault>
        ensures { Meets (runs lower self.old) result self.new }
    {
        let at = self.at;
        match self.take() {
            Some(TokenKind::Lower(name)) => Ok(name.copy(alloc)?),
            _ => Err(ParseFault::Syntax(at)),
        }
    }

    pub(crate) fn text(&mut self, alloc: Global) -> Result<Text, ParseFault>
        ensures { Meets (runs text self.old) result self.new }
    {
        let at = self.at;
        match self.take() {
            Some(TokenKind::Str(text)) => Ok(text.copy(alloc)?),
            _ => Err(ParseFault::Syntax(at)),
        }
    }

    /// Takes a lower name that isn't reserved. Otherwise, the error is `Syntax` at its position.
    #[tactic(auto, unfolding(crate::specs::Helpers::Parsing::free_name))]
    pub(crate) fn free_name(&mut self, alloc: Global) -> Result<Name, ParseFault>
        ensures { Meets (runs free_name self.old) result self.new }
    {
        let at = self.at;
        let name = self.lower(alloc)?;
        if is_reserved(name.as_bytes()) {
            return Err(ParseFault::Syntax(at));
        }
        Ok(name)
    }
}

fn is_sign(sign: Symbol, kind: &TokenKind) -> bool
    ensures { result ≡ is_sign sign kind.now }
{
    match kind {
        TokenKind::Symbol(other) => sign == *other,
        _ => false,
    }
}

fn is_word(word: &[u8], kind: &TokenKind) -> bool
    ensures { result ≡ is_word word.now kind.now }
{
    match kind {
        TokenKind::Lower(name) => name.as_bytes() == word,
        _ => false,
    }
}

fn is_time(kind: &TokenKind) -> bool
    ensures { result ≡ is_time kind.now }
{
    match kind {
        TokenKind::Lower(name) => is_time_word(name.as_bytes()),
        _ => false,
    }
}
