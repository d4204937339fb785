//! The names of errors.
ghost use Rattle.std.specs.Prelude.{◌≡◌};
ghost use Rattle.tb_fault_place.specs.FaultNames.{check_name, expand_name, fault_name, lex_name, parse_name};

use tb_expand::ExpandFault;
use tb_lex::LexFault;
use tb_parse::ParseFault;
use tb_script::ScriptFault;
use tb_types::CheckFault;

/// Returns the name of an error, as in the line of `toolbus check`. Out of memory has the empty name.
pub fn fault_name(fault: &ScriptFault) -> &'static str
    ensures { result.now ≡ fault_name fault.now }
{
    match fault {
        ScriptFault::Lex(fault) => lex_name(*fault),
        ScriptFault::Parse(fault) => parse_name(*fault),
        ScriptFault::Check(fault) => check_name(*fault),
        ScriptFault::Expand(fault) => expand_name(fault),
        ScriptFault::Roots(_) => "too many processes",
        ScriptFault::TooLong(_) => "too long",
        ScriptFault::NotBuilt(_) => "not built",
        ScriptFault::NoMemory => "",
    }
}

fn lex_name(fault: LexFault) -> &'static str
    ensures { result.now ≡ lex_name fault }
{
    match fault {
        LexFault::BadByte(_) => "byte",
        LexFault::OpenString(_) => "open string",
        LexFault::Real(_) => "real",
        LexFault::IntRange(_) => "integer",
        LexFault::TooMany => "too many tokens",
        LexFault::NoMemory => "",
    }
}

fn parse_name(fault: ParseFault) -> &'static str
    ensures { result.now ≡ parse_name fault }
{
    match fault {
        ParseFault::Syntax(_) => "syntax",
        ParseFault::TooDeep(_) => "too deep",
        ParseFault::NoMemory => "",
    }
}

fn check_name(fault: CheckFault) -> &'static str
    ensures { result.now ≡ check_name fault }
{
    match fault {
        CheckFault::Twice(_) => "twice",
        CheckFault::NoProcess(_) => "no process",
        CheckFault::NoTool(_) => "no tool",
        CheckFault::NoFunction(_) => "no function",
        CheckFault::Arity(_) => "arity",
        CheckFault::Undeclared(_) => "undeclared",
        CheckFault::ResultInSend(_) => "result in send",
        CheckFault::NotResult(_) => "not result",
        CheckFault::TypeClash(_) => "type clash",
        CheckFault::NoMemory => "",
    }
}

fn expand_name(fault: &ExpandFault) -> &'static str
    ensures { result.now ≡ expand_name fault.now }
{
    match fault {
        ExpandFault::Recursion(_) => "recursion",
        ExpandFault::TooLarge(_) => "too large",
        ExpandFault::NoMemory => "",
    }
}
