//! How a log is followed to its end, and what the processes then wait for.

ghost use Rattle.std.specs.Prelude.{◌≡◌, ◌≤◌, [], List, length, take, IfOk, IsErrOf, OnOk, false};
ghost use Rattle.tb_bus.specs.Buses.{origin_of, start};
ghost use Rattle.tb_bus.specs.Traces.{IsTrace};
ghost use Rattle.tb_core.specs.Cores.{Follows, IsCrowded, Logs, bus_now, most_entries};
ghost use Rattle.tb_log.specs.LogText.{log_text};
ghost use Rattle.tb_log.specs.Shapes.{lane_count};
ghost use Rattle.tb_log.specs.declared.entry.Entry.{Entry as Seen};
ghost use Rattle.tb_log_read.specs.Lines.{IsLog};
ghost use Rattle.tb_why.specs.Ends.{ExplainsEnd, IsCrowdedText, IsTraceText, takes_down, while_up};
ghost use Rattle.tb_why.specs.Helpers.Followed.{IsCrowdedIn, IsEnd};

use crate::explaining::explain;
use crate::fault::WhyFault;
use crate::looking::stand;
use crate::stall::Waiter;
use crate::standing::Standing;
use std::alloc::Global;
use tb_body::Program;
use tb_core::{Core, CoreFault};
use tb_log::{Entries, Entry, LabelKind};
use tb_log_read::{LogFault, read_log};
use tb_process_steps::Walker;
use tb_terms::{Items, Texts};

/// The greatest number of entries of a log.
const MOST_ENTRIES: u32 = 4_000_000;

/// The end of a log: the offers of each process, and what each process waits for. If the bus shuts down, this is about the bus just
/// before, except for `core`.
#[derive(Drop)]
pub struct Ending<W: Walker> {
    /// The bus to which the whole log leads.
    pub core: Core<W>,
    /// The number of ticks that the bus has seen.
    pub ticks: u64,
    /// The living processes with their offers.
    pub standings: Items<Standing>,
    /// What each living process waits for.
    pub waiters: Items<Waiter>,
}

/// Follows the text of a log of a program, and returns what each process waits for at the end of the log, or just before the bus shuts
/// down. `connects` has the commands with which the first lanes start. If the call returns `NoTrace`, the bytes aren't the text of a
/// trace, and `verify` of `tb_verify` finds the line. If it returns `Full`, an entry that can come next passes the limits of a log.
pub fn why<W: Walker>(
    alloc: Global,
    program: Program,
    connects: &Texts,
    log: &[u8],
) -> Result<Ending<W>, WhyFault>
    requires { length connects.now ≤ lane_count }
    ensures ends { IfOk result (λ ending. ExplainsEnd (origin_of program connects.now most_entries)
        log.now ending.core ending.ticks ending.standings ending.waiters) }
    ensures no_trace { IsErrOf result WhyFault.NoTrace
        → IsTraceText (origin_of program connects.now most_entries) log.now → ⊥ }
    ensures full { IsErrOf result WhyFault.Full
        → IsCrowdedText (origin_of program connects.now most_entries) log.now }
{
    let entries = entries_of(alloc, log)?;
    let core = Core::<W>::start(alloc, program, connects, MOST_ENTRIES)?;
    end_of(alloc, core, entries.as_slice())
}

/// Reads the entries of a log from its text.
fn entries_of(alloc: Global, log: &[u8]) -> Result<Entries, WhyFault>
    ensures found { IfOk result (λ entries. IsLog entries × (log.now ≡ log_text entries)) }
    ensures no_trace { IsErrOf result WhyFault.NoTrace
        → (entries : List Seen) → IsLog entries → log.now ≡ log_text entries → ⊥ }
    ensures full { IsErrOf result WhyFault.Full → ⊥ }
{
    match read_log(alloc, log) {
        Ok(entries) => Ok(entries),
        Err(LogFault::Line(_)) => Err(WhyFault::NoTrace),
        Err(LogFault::NoMemory) => Err(WhyFault::NoMemory),
    }
}

/// Follows a log with a core that was just started. Before the step that shuts the bus down, or at the end of the log, it finds out what
/// each process waits for.
fn end_of<W: Walker>(alloc: Global, core: Core<W>, entries: &[Entry]) -> Result<Ending<W>, WhyFault>
    requires fresh { core.log ≡ [] }
    requires running { core.stopped ≡ false }
    ensures ends { IfOk result (λ ending. IsEnd core.origin entries.now ending.core ending.ticks
        ending.standings ending.waiters) }
    ensures no_trace { IsErrOf result WhyFault.NoTrace
        → IsTrace (start core.origin) entries.now → ⊥ }
    ensures full { IsErrOf result WhyFault.Full → IsCrowdedIn core entries.now }
{
    let mut core = core;
    let (up, down) = entries.split_at(up_len(entries));
    follow(&mut core, up)?;
    let bus = core.bus();
    let ticks = bus.ticks;
    let standings = stand(alloc, bus)?;
    let waiters = explain(alloc, bus, standings.as_slice())?;
    follow(&mut core, down)?;
    Ok(Ending {
        core,
        ticks,
        standings,
        waiters,
    })
}

/// Returns the number of entries before the step that shuts the bus down, or of all entries if there is no such step.
fn up_len(entries: &[Entry]) -> usize
    ensures before { take result entries.now ≡ while_up entries.now }
    ensures within { result ≤ length entries.now }
{
    for (index, entry) in entries.iter().enumerate() {
        if takes_down(entry) {
            return index;
        }
    }
    entries.len()
}

/// Returns whether an entry is a step that shuts the bus down.
fn takes_down(entry: &Entry) -> bool
    ensures { result ≡ takes_down entry.now }
{
    match entry {
        Entry::Did(label) => match label.kind {
            LabelKind::Finish | LabelKind::Halt | LabelKind::Shutdown => true,
            _ => false,
        },
        Entry::Quiet | Entry::Fed(_, _) | Entry::Gave(_, _) => false,
    }
}

/// Follows these entries with a core. Returns `NoTrace` at the first one that can't come next.
fn follow<W: Walker>(core: &mut Core<W>, entries: &[Entry]) -> Result<(), WhyFault>
    requires { core.old.stopped ≡ false }
    ensures logs { OnOk result (Logs core.old core.new entries.now) }
    ensures no_trace { IsErrOf result WhyFault.NoTrace
        → IsTrace (bus_now core.old) entries.now → ⊥ }
    ensures full { IsErrOf result WhyFault.Full → IsCrowdedIn core.old entries.now }
{
    for entry in entries {
        if !follow_one(core, entry)? {
            return Err(WhyFault::NoTrace);
        }
    }
    Ok(())
}

/// Follows an entry with a core. Returns `false` if the entry can't come next.
fn follow_one<W: Walker>(core: &mut Core<W>, entry: &Entry) -> Result<bool, WhyFault>
    requires { core.old.stopped ≡ false }
    ensures follows { IfOk result (λ legal. Follows core.old entry.now legal core.new) }
    ensures no_trace { IsErrOf result WhyFault.NoTrace → ⊥ }
    ensures full { IsErrOf result WhyFault.Full → IsCrowded core.old entry.now }
{
    match core.follow(entry) {
        Ok(legal) => Ok(legal),
        Err(CoreFault::Full) => Err(WhyFault::Full),
        Err(CoreFault::NoMemory | CoreFault::Stopped) => Err(WhyFault::NoMemory),
    }
}
