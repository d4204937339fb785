//! The building of a term from its tokens.
ghost use Rattle.std.specs.Prelude.{◌≡◌, ◌++◌, IfOk, OnOk};
ghost use Rattle.std.specs.Option.{option_to_list};
ghost use Rattle.tb_read.specs.Helpers.Building.{build_step, built_from, nothing, name_of, opens, closed, with_part, whole};

use crate::stack::Stack;
use crate::token::Token;
use std::alloc::Global;
use tb_terms::{Items, Name, NoMemory, Term, Terms};

/// An open bracket, with the name before it and the parts after it so far.
#[derive(Drop)]
pub(crate) struct Frame {
    head: Option<Name>,
    parts: Terms,
}

/// A term that is being built: the last finished term, and the open brackets.
#[derive(Drop)]
pub(crate) struct Builder {
    done: Option<Term>,
    frames: Stack<Frame>,
}

/// Returns what the tokens build, or `None`. The tokens of a successful scan build one term.
pub(crate) fn build(alloc: Global, mut tokens: Vec<Token>) -> Result<Option<Term>, NoMemory>
    ensures { IfOk result (λ done. done ≡ (built_from nothing tokens.items).done) }
{
    let mut builder = Builder {
        done: None,
        frames: Stack::new(alloc),
    };
    tokens.reverse();
    while let Some(token) = tokens.pop() {
        builder.take(alloc, token)?;
    }
    Ok(builder.done)
}

impl Builder {
    fn take(&mut self, alloc: Global, token: Token) -> Result<(), NoMemory>
        ensures { OnOk result (self.new ≡ build_step self.old token) }
    {
        match token {
            Token::Int(number) => {
                self.done = Some(Term::Int(number));
                Ok(())
            }
            Token::Str(text) => {
                self.done = Some(Term::Str(text));
                Ok(())
            }
            Token::Name(name) => {
                self.done = Some(Term::Appl(name, Items::new(alloc)));
                Ok(())
            }
            Token::LeftBracket => self.open(alloc, None),
            Token::LeftParen => {
                let head = name_of(self.done.take());
                self.open(alloc, head)
            }
            Token::Comma => self.add_part(),
            Token::RightParen | Token::RightBracket => self.close(),
        }
    }

    fn open(&mut self, alloc: Global, head: Option<Name>) -> Result<(), NoMemory>
        ensures { OnOk result (self.new ≡ opens head self.old.frames) }
    {
        self.done = None;
        self.frames.push(Frame {
            head,
            parts: Items::new(alloc),
        })
    }

    fn add_part(&mut self) -> Result<(), NoMemory>
        ensures { OnOk result
            (self.new ≡ record { done = None; frames = with_part self.old.done self.old.frames }) }
    {
        let done = self.done.take();
        let Some(mut frame) = self.frames.pop() else {
            return Ok(());
        };
        push_part(&mut frame.parts, done)?;
        self.frames.push(frame)
    }

    fn close(&mut self) -> Result<(), NoMemory>
        ensures { OnOk result (self.new ≡ closed self.old.done self.old.frames) }
    {
        let Some(frame) = self.frames.pop() else {
            return Ok(());
        };
        let Frame { head, mut parts } = frame;
        push_part(&mut parts, self.done.take())?;
        self.done = Some(whole(head, parts));
        Ok(())
    }
}

fn push_part(parts: &mut Terms, done: Option<Term>) -> Result<(), NoMemory>
    ensures { OnOk result (parts.new ≡ parts.old ++ option_to_list done) }
{
    if let Some(term) = done {
        parts.push(term)?;
    }
    Ok(())
}

fn whole(head: Option<Name>, parts: Terms) -> Term
    ensures { result ≡ whole head parts }
{
    match head {
        Some(name) => Term::Appl(name, parts),
        None => Term::List(parts),
    }
}

fn name_of(done: Option<Term>) -> Option<Name>
    ensures { result ≡ name_of done }
{
    match done {
        Some(Term::Appl(name, _parts)) => Some(name),
        _ => None,
    }
}
