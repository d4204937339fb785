//! Parses tokens.

ghost use Rattle.std.specs.Prelude.{◌≡◌, ◌≢◌, ◌⊎◌, IfOk, IfErr, Ok, Err};
ghost use Rattle.tb_syntax.specs.Spelling.{kinds_of};
ghost use Rattle.tb_syntax.specs.declared.script.Script.{Script};
ghost use Rattle.tb_parse.specs.Faults.{IsScriptOf, HasFault};
ghost use Rattle.tb_parse.specs.declared.fault.ParseFault.{ParseFault};

use crate::ParseFault;
use crate::brackets::too_deep;
use crate::definitions::script;
use crate::reader::Reader;
use std::alloc::Global;
use tb_lex::{Token, Tokens};
use tb_syntax::Script;

/// Returns the script that the tokens spell, if it is within the limits, or the error of the tokens.
pub fn parse(alloc: Global, tokens: &Tokens) -> Result<Script, ParseFault>
    ensures found { IfOk result (IsScriptOf (kinds_of tokens.now)) }

    // If the tokens are a script within the limits, the call fails only if it runs out of memory.
    ensures only { (script : Script) → IsScriptOf (kinds_of tokens.now) script
        → (result ≡ Ok script) ⊎ (result ≡ Err ParseFault.NoMemory) }
    ensures fault { IfErr result (HasFault (kinds_of tokens.now)) }

    // If the tokens have an error other than `NoMemory`, the call returns this error or `NoMemory`.
    ensures exact { (f : ParseFault) → HasFault (kinds_of tokens.now) f → f ≢ ParseFault.NoMemory
        → (result ≡ Err f) ⊎ (result ≡ Err ParseFault.NoMemory) }
{
    read(alloc, tokens.as_slice())
}

fn read(alloc: Global, tokens: &[Token]) -> Result<Script, ParseFault>
    ensures found { IfOk result (IsScriptOf (kinds_of tokens.now)) }
    ensures fault { IfErr result (HasFault (kinds_of tokens.now)) }
{
    if let Some(position) = too_deep(tokens) {
        return Err(ParseFault::TooDeep(position));
    }
    let mut reader = Reader::new(tokens);
    script(alloc, &mut reader, tokens.len())
}
