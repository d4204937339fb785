//! The line of a tool that some bytes mean.
ghost use Rattle.std.specs.Prelude.{◌≢◌, IfOk, OnOk};
ghost use Rattle.tb_log.specs.Shapes.{IsToolLineInShape};
ghost use Rattle.tb_tool_line.specs.ToolLines.{IsToolLine};

use crate::line::line_of;
use std::alloc::Global;
use tb_edge::MOST_LINE;
use tb_log::ToolLine;
use tb_read::{Limits, TermFault, read_within};
use tb_terms::{MOST_TERM_LEVELS, MOST_TERM_SIZE, NoMemory};

/// Reads a line of a tool. Returns `Bad` for more than 65,536 bytes, and for bytes that are no line. Fails only if memory runs out.
pub fn read_tool_line(alloc: Global, bytes: &[u8]) -> Result<ToolLine, NoMemory>
    ensures line { IfOk result (IsToolLine bytes.now) }
    ensures shape { IfOk result IsToolLineInShape }
{
    if bytes.len() > MOST_LINE {
        return Ok(ToolLine::Bad);
    }
    // The parts have the limits of terms. The name around them adds less than 16 to the size, and 1 to the depth.
    let limits = Limits {
        size: MOST_TERM_SIZE + 16,
        levels: MOST_TERM_LEVELS + 1,
    };
    match read_within(alloc, bytes, limits) {
        Ok(term) => Ok(line_of(term)),
        Err(fault) => {
            out_of_memory(fault)?;
            Ok(ToolLine::Bad)
        }
    }
}

/// Fails if the parser ran out of memory. Any other error is one of the bytes.
fn out_of_memory(fault: TermFault) -> Result<(), NoMemory>
    ensures { OnOk result (fault ≢ TermFault.NoMemory) }
{
    match fault {
        TermFault::NoMemory => Err(NoMemory),
        _ => Ok(()),
    }
}
