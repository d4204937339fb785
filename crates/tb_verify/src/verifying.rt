//! How a log is verified, line by line.

ghost use Rattle.std.specs.Prelude.{◌≡◌, ◌≤◌, ◌⊎◌, ℕ, [], Ok, Err, length, IfOk, false};
ghost use Rattle.tb_bus.specs.Buses.{origin_of};
ghost use Rattle.tb_core.specs.Cores.{most_entries};
ghost use Rattle.tb_log.specs.Shapes.{lane_count};
ghost use Rattle.tb_verify.specs.Verdicts.{IsCrowdedAt, IsVerdict};
ghost use Rattle.tb_verify.specs.Helpers.Followed.{FollowsLine, IsCrowdedLine, Settles};

use crate::verdict::{Verdict, VerifyFault};
use std::alloc::Global;
use std::mem::forget;
use tb_body::Program;
use tb_core::{Core, CoreFault};
use tb_log_read::{LineBuffers, LogFault, read_line, split_line};
use tb_process_steps::Walker;
use tb_terms::Texts;

/// The greatest number of entries of a log.
const MOST_ENTRIES: u32 = 4_000_000;

/// Returns the verdict on a log: the bytes are the text of a trace of the program, or this is the first line at which they aren't.
/// `connects` has the commands with which the first lanes start. The call reads line by line, and keeps one core. A log has at most
/// 4,000,000 entries, and its terms together have at most the size that a core allows. If an entry that can come next passes these
/// limits, the call returns `Full`. The call doesn't release the memory of the core.
pub fn verify<W: Walker>(
    alloc: Global,
    program: Program,
    connects: &Texts,
    log: &[u8],
) -> Result<Verdict, VerifyFault>
    requires { length connects.now ≤ lane_count }
    ensures verdict { IfOk result
        (IsVerdict (origin_of program connects.now most_entries) log.now) }

    // If the bytes have a verdict, the call returns this verdict or one of these errors.
    ensures only { (verdict : Verdict)
        → IsVerdict (origin_of program connects.now most_entries) log.now verdict
        → (result ≡ Ok verdict)
        ⊎ ((result ≡ Err VerifyFault.Full) ⊎ (result ≡ Err VerifyFault.NoMemory)) }
    ensures full { result ≡ Err VerifyFault.Full → (number : ℕ)
        × IsCrowdedAt (origin_of program connects.now most_entries) log.now number }

    // If the log is crowded at a line, the call returns an error.
    ensures crowded { (number : ℕ)
        → IsCrowdedAt (origin_of program connects.now most_entries) log.now number
        → (result ≡ Err VerifyFault.Full) ⊎ (result ≡ Err VerifyFault.NoMemory) }
{
    let mut core = Core::<W>::start(alloc, program, connects, MOST_ENTRIES)?;
    let verdict = verify_lines(alloc, &mut core, log);

    // Releasing a bus term by term takes long, and the program ends next.
    forget(core);
    verdict
}

/// Verifies a log with a core that was just started.
fn verify_lines<W: Walker>(
    alloc: Global,
    core: &mut Core<W>,
    log: &[u8],
) -> Result<Verdict, VerifyFault>
    requires fresh { core.old.log ≡ [] }
    requires running { core.old.stopped ≡ false }
    requires limit { core.old.origin.limit ≤ most_entries }
    ensures { Settles core.old.origin log.now result }
{
    let mut buffers = LineBuffers::new(alloc);
    let mut rest = log;
    'lines: while !rest.is_empty() {
        let (line, later) = split_line(rest);
        let number = core.log().len() as u64 + 1;
        match follow_line(alloc, core, number, line, &mut buffers) {
            Ok(true) => rest = later,
            Ok(false) => return Ok(Verdict::Line(number)),
            Err(fault) => return Err(fault),
        }
    }
    Ok(Verdict::Trace)
}

/// Follows the entry of the line with this number: the core logs it. Returns `false` if no entry that can come next has this line.
fn follow_line<W: Walker>(
    alloc: Global,
    core: &mut Core<W>,
    number: u64,
    line: &[u8],
    buffers: &mut LineBuffers,
) -> Result<bool, VerifyFault>
    requires { core.old.stopped ≡ false }
    ensures follows { IfOk result
        (λ legal. FollowsLine core.old number line.now legal core.new) }
    ensures full { result ≡ Err VerifyFault.Full → IsCrowdedLine core.old number line.now }
{
    let entry = match read_line(alloc, number, line, buffers) {
        Ok(entry) => entry,
        Err(LogFault::Line(_)) => return Ok(false),
        Err(LogFault::NoMemory) => return Err(VerifyFault::NoMemory),
    };
    match core.follow(&entry) {
        Ok(legal) => {
            buffers.give_back(entry);
            Ok(legal)
        }
        Err(CoreFault::Full) => Err(VerifyFault::Full),
        Err(CoreFault::NoMemory | CoreFault::Stopped) => Err(VerifyFault::NoMemory),
    }
}
