//! Parses a source as a script.
ghost use Rattle.std.specs.Prelude.{ℕ, List};
ghost use Rattle.tb_script.specs.Helpers.Making.{HasOnlyTokens, HasReadScript};

use crate::ScriptFault;
use std::alloc::Global;
use tb_lex::{LexFault, Tokens, lex};
use tb_parse::{ParseFault, parse};
use tb_syntax::Script;

/// Returns the script that the source parses as, within the limits.
pub(crate) fn read_script(alloc: Global, bytes: &[u8]) -> Result<Script, ScriptFault>
    ensures { HasReadScript bytes.now result }
{
    match lex(alloc, bytes) {
        Ok(tokens) => parse_tokens(alloc, &tokens),
        Err(LexFault::NoMemory) => Err(ScriptFault::NoMemory),
        Err(fault) => Err(ScriptFault::Lex(fault)),
    }
}

fn parse_tokens(alloc: Global, tokens: &Tokens) -> Result<Script, ScriptFault>
    ensures { (text : List ℕ) → HasOnlyTokens text tokens.now → HasReadScript text result }
{
    match parse(alloc, tokens) {
        Ok(script) => Ok(script),
        Err(ParseFault::NoMemory) => Err(ScriptFault::NoMemory),
        Err(fault) => Err(ScriptFault::Parse(fault)),
    }
}
