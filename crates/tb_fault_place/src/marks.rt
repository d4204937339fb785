//! Finds the bytes of the place of an error.
ghost use Rattle.std.specs.Prelude.{◌≡◌, IfOk, option_map};
ghost use Rattle.tb_source_map.specs.Marks.{mark_at};
ghost use Rattle.tb_fault_place.specs.Standing.{AtToken, InScript, StandsAt, check_token, expand_token, lex_mark, parse_token, root_token};

use crate::calls::{cycle_token, definition_token};
use sqlite_items::at;
use std::alloc::Global;
use tb_body::MOST_ROOTS;
use tb_expand::ExpandFault;
use tb_lex::{LexFault, Token, lex};
use tb_parse::{ParseFault, parse};
use tb_script::ScriptFault;
use tb_source_map::{Mark, mark_at};
use tb_syntax::Script;
use tb_terms::NoMemory;
use tb_types::CheckFault;

/// Returns the bytes of the place of this error of the source, or `None` if the error has no place in the source.
pub(crate) fn mark_of(
    alloc: Global,
    text: &[u8],
    fault: &ScriptFault,
) -> Result<Option<Mark>, NoMemory>
    ensures { IfOk result (StandsAt text.now fault.now) }
{
    match fault {
        ScriptFault::Lex(fault) => Ok(lex_mark(*fault)),
        ScriptFault::Parse(fault) => Ok(token_mark(alloc, text, parse_token(*fault))?),
        ScriptFault::Check(fault) => Ok(token_mark(alloc, text, check_token(*fault))?),
        ScriptFault::Expand(fault) => Ok(expand_mark(alloc, text, fault)?),
        ScriptFault::Roots(_) => Ok(root_mark(alloc, text)?),
        ScriptFault::TooLong(_) => Ok(None),
        ScriptFault::NotBuilt(_) => Ok(None),
        ScriptFault::NoMemory => Err(NoMemory),
    }
}

fn lex_mark(fault: LexFault) -> Option<Mark>
    ensures { result ≡ lex_mark fault }
{
    match fault {
        LexFault::BadByte(at) => Some(Mark { from: at, to: at }),
        LexFault::OpenString(at) => Some(Mark { from: at, to: at }),
        LexFault::Real(at) => Some(Mark { from: at, to: at }),
        LexFault::IntRange(at) => Some(Mark { from: at, to: at }),
        LexFault::TooMany => None,
        LexFault::NoMemory => None,
    }
}

fn parse_token(fault: ParseFault) -> Option<usize>
    ensures { result ≡ parse_token fault }
{
    match fault {
        ParseFault::Syntax(token) => Some(token),
        ParseFault::TooDeep(token) => Some(token),
        ParseFault::NoMemory => None,
    }
}

fn check_token(fault: CheckFault) -> Option<usize>
    ensures { result ≡ check_token fault }
{
    match fault {
        CheckFault::Twice(token) => Some(token),
        CheckFault::NoProcess(token) => Some(token),
        CheckFault::NoTool(token) => Some(token),
        CheckFault::NoFunction(token) => Some(token),
        CheckFault::Arity(token) => Some(token),
        CheckFault::Undeclared(token) => Some(token),
        CheckFault::ResultInSend(token) => Some(token),
        CheckFault::NotResult(token) => Some(token),
        CheckFault::TypeClash(token) => Some(token),
        CheckFault::NoMemory => None,
    }
}

/// Returns the bytes of this token of the source, or `None` if no token is given.
fn token_mark(alloc: Global, text: &[u8], token: Option<usize>) -> Result<Option<Mark>, NoMemory>
    ensures { IfOk result (AtToken text.now token) }
{
    let Ok(tokens) = lex(alloc, text) else {
        return Err(NoMemory);
    };
    Ok(mark_of_token(tokens.as_slice(), token))
}

fn mark_of_token(tokens: &[Token], token: Option<usize>) -> Option<Mark>
    ensures { result ≡ option_map (mark_at tokens.now) token }
{
    match token {
        None => None,
        Some(token) => Some(mark_at(tokens, token)),
    }
}

/// Returns the bytes of the token where the expansions of the script have this error.
fn expand_mark(alloc: Global, text: &[u8], fault: &ExpandFault) -> Result<Option<Mark>, NoMemory>
    ensures { IfOk result (InScript text.now (expand_token fault.now)) }
{
    let Ok(tokens) = lex(alloc, text) else {
        return Err(NoMemory);
    };
    let Ok(script) = parse(alloc, &tokens) else {
        return Err(NoMemory);
    };
    Ok(mark_of_token(tokens.as_slice(), expand_token(&script, fault)))
}

/// Returns the bytes of the first root of the script that is one too many.
fn root_mark(alloc: Global, text: &[u8]) -> Result<Option<Mark>, NoMemory>
    ensures { IfOk result (InScript text.now root_token) }
{
    let Ok(tokens) = lex(alloc, text) else {
        return Err(NoMemory);
    };
    let Ok(script) = parse(alloc, &tokens) else {
        return Err(NoMemory);
    };
    Ok(mark_of_token(tokens.as_slice(), root_token(&script)))
}

fn expand_token(script: &Script, fault: &ExpandFault) -> Option<usize>
    ensures { result ≡ expand_token fault.now script.now }
{
    match fault {
        ExpandFault::Recursion(names) => cycle_token(script, names.as_slice()),
        ExpandFault::TooLarge(name) => definition_token(script, name.as_bytes()),
        ExpandFault::NoMemory => None,
    }
}

/// Returns the token of the first root that is one too many.
fn root_token(script: &Script) -> Option<usize>
    ensures { result ≡ root_token script.now }
{
    match at(script.roots.as_slice(), MOST_ROOTS) {
        None => None,
        Some(root) => Some(root.token),
    }
}
