//! The printed text of a script.

ghost use Rattle.std.specs.Prelude.{IfOk};
ghost use Rattle.tb_syntax.specs.Printing.{IsSpelt, IsPrintOf};

use crate::Script;
use crate::definitions::tokens_of;
use crate::proper::show_proper;
use crate::text::text_of;
use std::alloc::Global;
use tb_terms::NoMemory;

/// Returns the printed text of a script that has a spelling. The tokens of the text spell a script that is equal except for the
/// positions of its tokens. Fails only if memory runs out.
pub fn print_script(alloc: Global, script: &Script) -> Result<Vec<u8>, NoMemory>
    requires { IsSpelt script.now }
    ensures { IfOk result (λ text. IsPrintOf script.now text.items) }
{
    let tokens = tokens_of(alloc, script)?;
    show_proper(tokens.as_slice());
    let text = text_of(alloc, tokens.as_slice())?;
    Ok(text)
}
