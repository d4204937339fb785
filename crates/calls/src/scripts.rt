//! Calls of the libraries of scripts.

use crate::fault::Fault;
use crate::texts::{number, one, said, two, yes_or_no};
use std::alloc::Global;
use tb_body::Body;
use tb_expand::{ExpandFault, expand};
use tb_lex::{Symbol, Token, TokenKind, Tokens, lex};
use tb_parse::{ParseFault, parse};
use tb_syntax::{Script, is_atom_word, is_reserved, is_sort_word, is_time_word, print_script};
use tb_terms::NoMemory;
use tb_types::check;

pub(crate) fn answer(
    alloc: Global,
    name: &str,
    args: &[Vec<u8>],
) -> Result<Option<Vec<u8>>, Fault> {
    let found = match name {
        "lex" => lexed(alloc, args),
        "parse" => parsed(alloc, args),
        "print_script" => print_of(alloc, args),
        "print_alike" => are_alike(alloc, args),
        "print_again" => is_kept(alloc, args),
        "stops_right" => stops_right(alloc, args),
        "expand" => expanded(alloc, args),
        "word" => word(alloc, args),
        _ => return Ok(None),
    };
    Ok(Some(found?))
}

fn symbol_text(symbol: Symbol) -> &'static [u8] {
    match symbol {
        Symbol::LeftParen => b"(",
        Symbol::RightParen => b")",
        Symbol::LeftBracket => b"[",
        Symbol::RightBracket => b"]",
        Symbol::LeftBrace => b"{",
        Symbol::RightBrace => b"}",
        Symbol::Comma => b",",
        Symbol::Point => b".",
        Symbol::Colon => b":",
        Symbol::Assign => b":=",
        Symbol::Equals => b"=",
        Symbol::Question => b"?",
        Symbol::Plus => b"+",
        Symbol::Star => b"*",
        Symbol::Bars => b"||",
        Symbol::Angles => b">>",
        Symbol::Less => b"<",
        Symbol::Greater => b">",
    }
}

/// Writes a token: its kind, its content, and the positions at which it begins and ends.
fn write_token(alloc: Global, token: &Token, into: &mut Vec<u8>) -> Result<(), Fault> {
    write_kind(alloc, &token.kind, into)?;
    let text = format!(in alloc; " {} {}", token.from, token.to)?;
    Ok(into.extend_from_slice(text.as_bytes())?)
}

fn write_kind(alloc: Global, kind: &TokenKind, into: &mut Vec<u8>) -> Result<(), Fault> {
    match kind {
        TokenKind::Int(number) => {
            let text = format!(in alloc; "int {number}")?;
            into.extend_from_slice(text.as_bytes())?;
        }
        TokenKind::Str(text) => {
            into.extend_from_slice(b"string ")?;
            into.extend_from_slice(text.as_bytes())?;
        }
        TokenKind::Lower(name) => {
            into.extend_from_slice(b"lower ")?;
            into.extend_from_slice(name.as_bytes())?;
        }
        TokenKind::Upper(name) => {
            into.extend_from_slice(b"upper ")?;
            into.extend_from_slice(name.as_bytes())?;
        }
        TokenKind::Symbol(symbol) => into.extend_from_slice(symbol_text(*symbol))?,
    }
    Ok(())
}

/// Returns the tokens of a text, or their number if there are more than 100.
fn lexed(alloc: Global, args: &[Vec<u8>]) -> Result<Vec<u8>, Fault> {
    match lex(alloc, one(args)?) {
        Ok(tokens) => some_tokens(alloc, &tokens),
        Err(fault) => {
            let text = format!(in alloc; "{fault}")?;
            said(alloc, text.as_str())
        }
    }
}

fn some_tokens(alloc: Global, tokens: &Tokens) -> Result<Vec<u8>, Fault> {
    if tokens.len() > 100 {
        let text = format!(in alloc; "{} tokens", tokens.len())?;
        return said(alloc, text.as_str());
    }
    tokens_text(alloc, tokens)
}

fn tokens_text(alloc: Global, tokens: &Tokens) -> Result<Vec<u8>, Fault> {
    let mut text = Vec::new(alloc);
    for (position, token) in tokens.as_slice().iter().enumerate() {
        if position > 0 {
            text.extend_from_slice(b", ")?;
        }
        write_token(alloc, token, &mut text)?;
    }
    Ok(text)
}

fn fault_of(alloc: Global, text: &[u8]) -> Result<Option<ParseFault>, Fault> {
    let tokens = lex(alloc, text)?;
    Ok(parse(alloc, &tokens).err())
}

/// Returns `a script` if a text is one, or the syntax error.
fn parsed(alloc: Global, args: &[Vec<u8>]) -> Result<Vec<u8>, Fault> {
    match fault_of(alloc, one(args)?)? {
        None => said(alloc, "a script"),
        Some(fault) => {
            let text = format!(in alloc; "{fault}")?;
            said(alloc, text.as_str())
        }
    }
}

fn print_of(alloc: Global, args: &[Vec<u8>]) -> Result<Vec<u8>, Fault> {
    printed(alloc, one(args)?)
}

/// Returns the print of the script that a text represents.
fn printed(alloc: Global, text: &[u8]) -> Result<Vec<u8>, Fault> {
    let tokens = lex(alloc, text)?;
    print_tokens(alloc, &tokens)
}

fn print_tokens(alloc: Global, tokens: &Tokens) -> Result<Vec<u8>, Fault> {
    match parse(alloc, tokens) {
        Ok(script) => with_memory(print_script(alloc, &script)),
        Err(fault) => Err(Fault::from(fault)),
    }
}

fn with_memory(text: Result<Vec<u8>, NoMemory>) -> Result<Vec<u8>, Fault> {
    Ok(text?)
}

/// Returns whether two texts have the same print.
fn are_alike(alloc: Global, args: &[Vec<u8>]) -> Result<Vec<u8>, Fault> {
    let (text, other) = two(args)?;
    let first = printed(alloc, text)?;
    let second = printed(alloc, other)?;
    yes_or_no(alloc, first.as_slice() == second.as_slice())
}

/// Returns the number of tokens except parentheses, which a print may omit.
fn count(tokens: &Tokens) -> usize {
    let mut count: usize = 0;
    for token in tokens.as_slice() {
        match token.kind {
            TokenKind::Symbol(Symbol::LeftParen | Symbol::RightParen) => {}
            _ => count = count.saturating_add(1),
        }
    }
    count
}

/// Returns whether a text's print parses and has the same print, and has as many tokens as the text, parentheses not counted.
fn is_kept(alloc: Global, args: &[Vec<u8>]) -> Result<Vec<u8>, Fault> {
    let text = one(args)?;
    let once = printed(alloc, text)?;
    let is_kept = keeps(alloc, text, once.as_slice())?;
    yes_or_no(alloc, is_kept)
}

fn keeps(alloc: Global, text: &[u8], once: &[u8]) -> Result<bool, Fault> {
    let twice = printed(alloc, once)?;
    let wanted = count_of(alloc, text)?;
    Ok(once == twice.as_slice() && count_of(alloc, once)? == wanted)
}

fn count_of(alloc: Global, text: &[u8]) -> Result<usize, Fault> {
    let tokens = lex(alloc, text)?;
    Ok(count(&tokens))
}

/// Returns the text before the token at this index.
fn text_before<'a>(text: &'a [u8], tokens: &Tokens, at: usize) -> &'a [u8] {
    match tokens.as_slice().get(at) {
        Some(token) => text.get(..token.from).unwrap_or(text),
        None => text,
    }
}

/// Returns whether a text is a script. For another text, returns whether the tokens before its syntax error begin a script, and together
/// with the token at the error don't.
fn stops_right(alloc: Global, args: &[Vec<u8>]) -> Result<Vec<u8>, Fault> {
    let text = one(args)?;
    let right = match fault_of(alloc, text)? {
        None => true,
        Some(ParseFault::Syntax(at)) => stops_at(alloc, text, at)?,
        Some(_) => false,
    };
    yes_or_no(alloc, right)
}

fn stops_at(alloc: Global, text: &[u8], at: usize) -> Result<bool, Fault> {
    let tokens = lex(alloc, text)?;
    if at >= tokens.len() {
        return Ok(at == tokens.len());
    }
    let (before, with) = (
        text_before(text, &tokens, at),
        text_before(text, &tokens, at + 1),
    );
    splits(alloc, before, with, at)
}

/// Returns whether the first text begins a script and the second one doesn't, because of its token at this index.
fn splits(alloc: Global, before: &[u8], with: &[u8], at: usize) -> Result<bool, Fault> {
    let stop = Some(ParseFault::Syntax(at));
    let first = fault_of(alloc, before)?;
    let begins = first.is_none() || first == stop;
    Ok(begins && fault_of(alloc, with)? == stop)
}

/// Returns the numbers of atoms and slots of the expansion of the process at this position, or the error.
fn expanded(alloc: Global, args: &[Vec<u8>]) -> Result<Vec<u8>, Fault> {
    let (position, text) = two(args)?;
    let at = number(position)?;
    let tokens = lex(alloc, text)?;
    match parse(alloc, &tokens) {
        Ok(script) => expanded_at(alloc, &script, at),
        Err(fault) => Err(Fault::from(fault)),
    }
}

fn expanded_at(alloc: Global, script: &Script, at: u64) -> Result<Vec<u8>, Fault> {
    check(alloc, script)?;
    if at >= script.procs.len() as u64 {
        return Err(Fault::Argument);
    }
    match expand(alloc, script, at as usize) {
        Ok(body) => size_text(alloc, &body),
        Err(fault) => expand_fault(alloc, &fault),
    }
}

fn size_text(alloc: Global, body: &Body) -> Result<Vec<u8>, Fault> {
    let atoms = body.atoms.len();
    let text = format!(in alloc; "{atoms} atoms, {} slots", body.sorts.len())?;
    said(alloc, text.as_str())
}

fn expand_fault(alloc: Global, fault: &ExpandFault) -> Result<Vec<u8>, Fault> {
    match fault {
        ExpandFault::Recursion(names) => {
            let mut text = said(alloc, "recursion")?;
            for name in names.as_slice() {
                text.push(b' ')?;
                text.extend_from_slice(name.as_bytes())?;
            }
            Ok(text)
        }
        ExpandFault::TooLarge(_) => said(alloc, "too large"),
        ExpandFault::NoMemory => Err(Fault::NoMemory),
    }
}

/// Returns the meaning of a word in scripts.
fn word(alloc: Global, args: &[Vec<u8>]) -> Result<Vec<u8>, Fault> {
    let bytes = one(args)?;
    let mut text = Vec::new(alloc);
    for (holds, kind) in [
        (is_reserved(bytes), "reserved "),
        (is_atom_word(bytes), "atom "),
        (is_time_word(bytes), "time "),
        (is_sort_word(bytes), "sort "),
    ] {
        if holds {
            text.extend_from_slice(kind.as_bytes())?;
        }
    }
    text.extend_from_slice(b"word")?;
    Ok(text)
}
