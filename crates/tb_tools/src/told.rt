//! The lines that the bus sends to tools.
ghost use Rattle.std.specs.Prelude.{◌≡◌, [], ◌∷◌, IsTrue, IfOk, codes, replicate};
ghost use Rattle.tb_terms.specs.Names.{is_name};
ghost use Rattle.tb_tools.specs.Acts.{tool_line, last_line};

use crate::handout::KeptOut;
use std::alloc::Global;
use tb_log::Out;
use tb_terms::{Items, Name, NoMemory, Term, Terms};

/// Makes the line to a tool that has this word and one part.
pub(crate) fn line_with(alloc: Global, word: &[u8], part: Term) -> Result<KeptOut, NoMemory>
    requires { IsTrue (is_name word.now) }
    ensures { IfOk result (λ out. out ≡ tool_line word.now (part ∷ [])) }
{
    let mut parts = Items::new(alloc);
    parts.push(part)?;
    let line = Term::Appl(Name::new(alloc, word)?, parts);
    KeptOut::new(alloc, Out::Line(line))
}

/// Makes the last line to a tool.
pub(crate) fn last_line(alloc: Global, reason: Term) -> Result<KeptOut, NoMemory>
    ensures { IfOk result (λ out. out ≡ last_line reason) }
{
    line_with(alloc, b"rec-terminate", reason)
}

/// Makes the last line for each of this number of tools.
pub(crate) fn last_lines(
    alloc: Global,
    reason: &Term,
    count: usize,
) -> Result<Vec<KeptOut>, NoMemory>
    ensures { IfOk result (λ lines. lines.items ≡ replicate count (last_line reason.now)) }
{
    let mut lines = Vec::with_capacity(alloc, count)?;
    for _ in 0..count {
        lines.push(last_line(alloc, reason.copy(alloc)?)?)?;
    }
    Ok(lines)
}
