//! The kinds of token that can come next.
ghost use Rattle.std.specs.Prelude.{◌≡◌, OnOk, OnErr};
ghost use Rattle.tb_read.specs.Scanning.{start, allows, after, may_end, is_begin, may_continue};

use crate::kind::Kind;
use crate::stack::Stack;
use crate::token::Token;
use std::alloc::Global;
use tb_terms::NoMemory;

/// What the next token can be.
#[derive(Clone, Copy, PartialEq, Eq)]
pub(crate) enum Expect {
    /// The first token of a term.
    Term,
    /// The first token of a term, or the closing bracket of an empty list.
    First,
    /// After a term: a comma or the closing bracket. If no bracket is open, no token can follow.
    Further,
    /// After a name: as `Further`, or the left parenthesis before the arguments.
    Named,
}

#[derive(Clone, Copy, PartialEq, Eq)]
pub(crate) enum Bracket {
    Paren,
    Square,
}

/// The open brackets, and what is expected next.
#[derive(Drop)]
pub(crate) struct Shape {
    expect: Expect,
    brackets: Stack<Bracket>,
}

impl Shape {
    pub(crate) fn new(alloc: Global) -> Shape
        ensures { result ≡ start }
    {
        Shape {
            expect: Expect::Term,
            brackets: Stack::new(alloc),
        }
    }

    /// Returns whether the next token can be of this kind.
    pub(crate) fn allows(&self, kind: Kind) -> bool
        ensures { result ≡ allows self.now kind }
    {
        match self.expect {
            Expect::Term => is_begin(kind),
            Expect::First => is_begin(kind) || kind == Kind::RightBracket,
            Expect::Further => self.may_continue(kind),
            Expect::Named => kind == Kind::LeftParen || self.may_continue(kind),
        }
    }

    fn may_continue(&self, kind: Kind) -> bool
        ensures { result ≡ may_continue self.now.brackets kind }
    {
        match self.brackets.top() {
            None => false,
            Some(Bracket::Paren) => matches!(kind, Kind::Comma | Kind::RightParen),
            Some(Bracket::Square) => matches!(kind, Kind::Comma | Kind::RightBracket),
        }
    }

    /// Returns whether the source can end here.
    pub(crate) fn may_end(&self) -> bool
        ensures { result ≡ may_end self.now.expect self.now.brackets }
    {
        self.brackets.top().is_none() && matches!(self.expect, Expect::Further | Expect::Named)
    }

    pub(crate) fn take(&mut self, token: &Token) -> Result<(), NoMemory>
        ensures ok { OnOk result (self.new ≡ after self.old token.now) }
        ensures err { OnErr result (self.new ≡ self.old) }
    {
        match token {
            Token::Int(_) | Token::Str(_) => self.expect = Expect::Further,
            Token::Name(_) => self.expect = Expect::Named,
            Token::Comma => self.expect = Expect::Term,
            Token::LeftParen => {
                self.brackets.push(Bracket::Paren)?;
                self.expect = Expect::Term;
            }
            Token::LeftBracket => {
                self.brackets.push(Bracket::Square)?;
                self.expect = Expect::First;
            }
            Token::RightParen | Token::RightBracket => {
                let _closed = self.brackets.pop();
                self.expect = Expect::Further;
            }
        }
        Ok(())
    }
}

fn is_begin(kind: Kind) -> bool
    ensures { result ≡ is_begin kind }
{
    matches!(kind, Kind::Int | Kind::Str | Kind::Name | Kind::LeftBracket)
}
