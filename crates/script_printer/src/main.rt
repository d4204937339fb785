//! Prints a script in its standard form. `script_printer FILE` reads the file and prints the script to the standard output. If the file
//! isn't a script, the status is 1.
#![tactic(auto)]

ghost use Rattle.std.specs.Prelude.{IfSome, List};
ghost use Rattle.tb_lex.specs.Tokens.{Lexes};
ghost use Rattle.tb_lex.specs.declared.token.Token.{Token};
ghost use Rattle.tb_syntax.specs.Printing.{IsPrintOf};
ghost use Rattle.tb_syntax.specs.Spelling.{Spells, kinds_of};
ghost use Rattle.tb_syntax.specs.declared.script.Script.{Script};

use std::alloc::Global;
use std::io::Write;
use std::process::ExitCode;
use std::{env, fs, io};
use tb_lex::lex;
use tb_parse::parse;
use tb_syntax::print_script;

fn main(rt: HostRuntime) -> ExitCode {
    match print_file(&rt) {
        Ok(true) => ExitCode::from(0),
        Ok(false) => ExitCode::from(1),
        Err(_) => ExitCode::from(3),
    }
}

/// Prints the script of the file that the first argument names. Returns whether the script was printed.
fn print_file(rt: &HostRuntime) -> io::Result<bool> {
    let Some(path) = env::args(rt)?.nth(1) else {
        return Ok(false);
    };
    let bytes = fs::read(rt, path.as_str())?;
    let Some(text) = printed(rt.alloc(), bytes.as_slice()) else {
        return Ok(false);
    };
    rt.stdout().write_all(text.as_slice())?;
    Ok(true)
}

/// Returns the print of the script that the bytes represent, or `None` if a call fails.
fn printed(alloc: Global, bytes: &[u8]) -> Option<Vec<u8>>
    ensures { IfSome result (λ text. (tokens : List Token) × (script : Script)
        × Lexes bytes.now tokens × Spells script (kinds_of tokens) × IsPrintOf script text.items) }
{
    let tokens = lex(alloc, bytes).ok()?;
    let script = parse(alloc, &tokens).ok()?;
    print_script(alloc, &script).ok()
}
