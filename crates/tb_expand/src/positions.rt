//! The positions of processes and of tools.

ghost use Rattle.std.specs.Prelude.{◌≡◌, IfOk};
ghost use Rattle.tb_syntax.specs.declared.ast.AstKind.{out-AstKind};
ghost use Rattle.tb_terms.specs.declared.sort.Sort.{out-Sort};
ghost use Rattle.tb_expand.specs.Acts.{process_of, tool_of, tool_of_sort, name_of};

use crate::number::number;
use tb_syntax::{Ast, AstKind};
use tb_terms::{Ident, NoMemory, Sort};
use tb_types::Names;

/// Returns the position of the process with this name, or the number of processes if there is no such process.
#[tactic(auto, using(crate::proofs::Lookups::process_at, crate::proofs::Lookups::no_process))]
pub(crate) fn process_of(names: &Names, name: &Ident) -> Result<u32, NoMemory>
    ensures { IfOk result (λ position. position ≡ process_of names.now.script.now name.now) }
{
    match names.process_position(name.as_bytes()) {
        Some(position) => Ok(number(position)?),
        None => Ok(number(names.script.procs.len())?),
    }
}

/// Returns the position of the tool with this name, or the number of tools if there is no such tool.
#[tactic(auto, using(crate::proofs::Lookups::tool_at, crate::proofs::Lookups::no_tool))]
pub(crate) fn tool_of(names: &Names, name: &[u8]) -> Result<u32, NoMemory>
    ensures { IfOk result (λ position. position ≡ tool_of names.now.script.now name.now) }
{
    match names.tool_position(name) {
        Some(position) => Ok(number(position)?),
        None => Ok(number(names.script.tools.len())?),
    }
}

/// Returns the position of the tool of a type, or 0 if the type isn't the type of a tool.
pub(crate) fn tool_of_sort(names: &Names, sort: &Sort) -> Result<u32, NoMemory>
    ensures { IfOk result (λ position. position ≡ tool_of_sort names.now.script.now sort.now) }
{
    match sort {
        Sort::Tool(name) => Ok(tool_of(names, name.as_bytes())?),
        _ => Ok(0),
    }
}

/// Returns the name of an application, a variable, or a result variable. For other expressions, the name is empty.
pub(crate) fn name_of(e: &Ast) -> &[u8]
    ensures { result.now ≡ name_of e.now }
{
    match &e.kind {
        AstKind::Appl(name, _) => name.as_bytes(),
        AstKind::Var(name) | AstKind::Result(name) => name.as_bytes(),
        _ => &[],
    }
}
