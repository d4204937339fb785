//! For benchmarks, counts the log entries of a simulation with walkers of one kind. The program's own walkers are walks.

ghost use Rattle.std.specs.Prelude.{◌≡◌, [], false};

use std::alloc::Global;
use std::fs;
use tb_body::Program;
use tb_core::Core;
use tb_feed::Feed;
use tb_process_steps::{Rewriter, Walker};
use tb_script::load;
use tb_sim::simulate;
use tb_terms::{Items, NoMemory};
use tb_walk::Walk;

/// The capacity of a log, in entries.
const MOST_ENTRIES: u32 = 4_000_000;

/// Returns the number of entries that a simulation of the file's script logs, or nothing if something fails. `kind` is a kind of walkers,
/// and at most `steps` steps are made.
pub(crate) fn counted(rt: &HostRuntime, kind: &str, path: &str, steps: &str) -> Option<usize> {
    let steps = steps.parse::<u64>().ok()?;
    let bytes = fs::read(rt, path).ok()?;
    let program = load(rt.alloc(), bytes.as_slice()).ok()?;
    count_over(rt.alloc(), kind, program, steps)
}

/// Returns the number of entries that a simulation with walkers of this kind logs.
fn count_over(alloc: Global, kind: &str, program: Program, steps: u64) -> Option<usize> {
    match kind {
        "rewriter" => count::<Rewriter>(alloc, program, steps),
        "walk" => count::<Walk>(alloc, program, steps),
        _ => None,
    }
}

fn count<W: Walker>(alloc: Global, program: Program, steps: u64) -> Option<usize> {
    match Core::start(alloc, program, &Items::new(alloc), MOST_ENTRIES) {
        Ok(mut core) => logged::<W>(alloc, &mut core, steps),
        Err(NoMemory) => None,
    }
}

/// Returns the number of entries that the simulation of a core logs, or nothing if memory runs out.
fn logged<W: Walker>(alloc: Global, core: &mut Core<W>, steps: u64) -> Option<usize>
    requires fresh { core.old.log ≡ [] }
    requires running { core.old.stopped ≡ false }
{
    match simulate(core, &Feed::empty(alloc), steps) {
        Ok(_) => Some(core.log().len()),
        Err(NoMemory) => None,
    }
}
