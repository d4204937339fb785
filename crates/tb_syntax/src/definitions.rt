//! The tokens of a script and of its definitions.

ghost use Rattle.std.specs.Prelude.{◌≡◌, ◌++◌, OnOk, IfOk, map, option_map};
ghost use Rattle.std.specs.List.{flat_map};
ghost use Rattle.tb_syntax.specs.Spelling.{mark, command_tokens};
ghost use Rattle.tb_syntax.specs.Helpers.Canonical.{script_tokens, roots_tokens, tool_tokens, process_tokens, formal_tokens, call_tokens, optional, parted};

use crate::atoms::push_call;
use crate::procs::push_proc;
use crate::push::{push_comma, push_ident, push_name, push_symbol, push_word};
use crate::sorts::push_sort;
use crate::{Call, Formal, Level, ProcDef, Script, ToolDef};
use std::alloc::Global;
use tb_lex::{Symbol, TokenKind};
use tb_terms::{Items, NoMemory, Text};

/// Returns the tokens that are printed for a script: its tools, its processes, and its roots, in this order.
pub(crate) fn tokens_of(alloc: Global, script: &Script) -> Result<Items<TokenKind<'_>>, NoMemory>
    ensures { IfOk result (λ tokens. tokens ≡ script_tokens script.now) }
{
    let mut tokens = Items::new(alloc);
    push_tools(alloc, script.tools.as_slice(), &mut tokens)?;
    push_processes(alloc, script.procs.as_slice(), &mut tokens)?;
    push_roots(alloc, script.roots.as_slice(), &mut tokens)?;
    Ok(tokens)
}

fn push_tools<'a>(
    alloc: Global,
    tools: &'a [ToolDef],
    into: &mut Items<TokenKind<'a>>,
) -> Result<(), NoMemory>
    ensures { OnOk result (into.new ≡ into.old ++ flat_map tool_tokens tools.now) }
{
    for tool in tools {
        push_tool(alloc, tool, into)?;
    }
    Ok(())
}

fn push_tool<'a>(
    alloc: Global,
    tool: &'a ToolDef,
    into: &mut Items<TokenKind<'a>>,
) -> Result<(), NoMemory>
    ensures { OnOk result (into.new ≡ into.old ++ tool_tokens tool.now) }
{
    push_word(b"tool", into)?;
    push_name(&tool.name, into)?;
    push_word(b"is", into)?;
    push_symbol(Symbol::LeftBrace, into)?;
    push_command(alloc, &tool.command, into)?;
    push_symbol(Symbol::RightBrace, into)?;
    Ok(())
}

fn push_command(
    alloc: Global,
    command: &Option<Text>,
    into: &mut Items<TokenKind>,
) -> Result<(), NoMemory>
    ensures { OnOk result (into.new ≡ into.old ++ command_tokens command.now) }
{
    match command {
        None => Ok(()),
        Some(command) => {
            push_word(b"command", into)?;
            push_symbol(Symbol::Equals, into)?;
            into.push(TokenKind::Str(command.copy(alloc)?))?;
            Ok(())
        }
    }
}

fn push_processes<'a>(
    alloc: Global,
    processes: &'a [ProcDef],
    into: &mut Items<TokenKind<'a>>,
) -> Result<(), NoMemory>
    ensures { OnOk result (into.new ≡ into.old ++ flat_map process_tokens processes.now) }
{
    for process in processes {
        push_process(alloc, process, into)?;
    }
    Ok(())
}

fn push_process<'a>(
    alloc: Global,
    process: &'a ProcDef,
    into: &mut Items<TokenKind<'a>>,
) -> Result<(), NoMemory>
    ensures { OnOk result (into.new ≡ into.old ++ process_tokens process.now) }
{
    push_word(b"process", into)?;
    push_ident(&process.name, into)?;
    push_formals(process.formals.as_slice(), into)?;
    push_word(b"is", into)?;
    push_proc(alloc, &process.body, Level::Proc, into)?;
    Ok(())
}

/// Adds parameters in parentheses, or nothing if there are none.
fn push_formals<'a>(formals: &'a [Formal], into: &mut Items<TokenKind<'a>>) -> Result<(), NoMemory>
    ensures { OnOk result (into.new ≡ into.old ++ optional (map formal_tokens formals.now)) }
{
    if formals.is_empty() {
        return Ok(());
    }
    push_symbol(Symbol::LeftParen, into)?;
    push_parted_formals(formals, into)?;
    push_symbol(Symbol::RightParen, into)?;
    Ok(())
}

fn push_parted_formals<'a>(
    formals: &'a [Formal],
    into: &mut Items<TokenKind<'a>>,
) -> Result<(), NoMemory>
    ensures { OnOk result (into.new ≡ into.old ++ parted (map formal_tokens formals.now)) }
{
    for (position, formal) in formals.iter().enumerate() {
        push_comma(position, into)?;
        push_formal(formal, into)?;
    }
    Ok(())
}

fn push_formal<'a>(formal: &'a Formal, into: &mut Items<TokenKind<'a>>) -> Result<(), NoMemory>
    ensures { OnOk result (into.new ≡ into.old ++ formal_tokens formal.now) }
{
    push_ident(&formal.name, into)?;
    push_symbol(Symbol::Colon, into)?;
    push_sort(&formal.sort, into)?;
    push_mark(formal.result, into)?;
    Ok(())
}

/// Adds the `?` that marks a result parameter.
fn push_mark(is_result: bool, into: &mut Items<TokenKind>) -> Result<(), NoMemory>
    ensures { OnOk result (into.new ≡ into.old ++ mark is_result) }
{
    if is_result {
        push_symbol(Symbol::Question, into)?;
    }
    Ok(())
}

fn push_roots<'a>(
    alloc: Global,
    roots: &'a [Call],
    into: &mut Items<TokenKind<'a>>,
) -> Result<(), NoMemory>
    ensures { OnOk result (into.new ≡ into.old ++ roots_tokens roots.now) }
{
    push_word(b"toolbus", into)?;
    push_symbol(Symbol::LeftParen, into)?;
    push_calls(alloc, roots, into)?;
    push_symbol(Symbol::RightParen, into)?;
    Ok(())
}

fn push_calls<'a>(
    alloc: Global,
    calls: &'a [Call],
    into: &mut Items<TokenKind<'a>>,
) -> Result<(), NoMemory>
    ensures { OnOk result (into.new ≡ into.old ++ parted (map call_tokens calls.now)) }
{
    for (position, call) in calls.iter().enumerate() {
        push_comma(position, into)?;
        push_call(alloc, call, into)?;
    }
    Ok(())
}
