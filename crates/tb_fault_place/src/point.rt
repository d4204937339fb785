//! Finds the error of a script and its place.
ghost use Rattle.std.specs.Prelude.{IfOk};
ghost use Rattle.tb_script.specs.Loading.{HasFault};
ghost use Rattle.tb_fault_place.specs.Points.{IsAnswer};

use crate::marks::mark_of;
use std::alloc::Global;
use tb_script::{ScriptFault, accept};
use tb_source_map::Mark;
use tb_terms::NoMemory;

/// The error of a script, and its place.
#[derive(Drop)]
pub struct Point {
    /// The error.
    pub fault: ScriptFault,
    /// The bytes of its place. The first byte is the place itself, and the other bytes are for drawing a mark.
    pub mark: Option<Mark>,
}

/// Returns the error of this source, or `None` if the script is accepted.
pub fn find_fault(alloc: Global, text: &[u8]) -> Result<Option<Point>, NoMemory>
    ensures { IfOk result (IsAnswer text.now) }
{
    match accept(alloc, text) {
        Ok(()) => Ok(None),
        Err(fault) => point_of(alloc, text, fault),
    }
}

fn point_of(alloc: Global, text: &[u8], fault: ScriptFault) -> Result<Option<Point>, NoMemory>
    requires { HasFault text.now fault }
    ensures { IfOk result (IsAnswer text.now) }
{
    match mark_of(alloc, text, &fault) {
        Ok(mark) => Ok(Some(Point { fault, mark })),
        Err(NoMemory) => Err(NoMemory),
    }
}
