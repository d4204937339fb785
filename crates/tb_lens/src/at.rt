//! The command `at`: the error of each script, with its place.
ghost use Rattle.std.specs.Prelude.{◌≡◌, ℕ, ◌≤◌, List, [], ◌∷◌, ◌++◌, Option, IfOk, IfErr, map};
ghost use Rattle.tb_edge.specs.Faults.{Rose};
ghost use Rattle.tb_edge.specs.FilesHeld.{AsksSome};
ghost use Rattle.tb_fault_place.specs.Points.{IsPoint, TellsFault};
ghost use Rattle.tb_lens.specs.Loads.{Asks};
ghost use Rattle.tb_lens.specs.Told.{AtFailure, AtOutcome, IsLoaded, IsReason, Says, TellsOf, TellsOfAll, long_point};

use crate::status::{Status, Trouble};
use std::alloc::Global;
use tb_edge::{Failed, Files, FilesFault, Loaded, Sink};
use tb_fault_place::{Point, find_fault};
use tb_hint::message_text;
use tb_script::ScriptFault;
use tb_terms::NoMemory;

/// The greatest number of bytes of a script. A longer file is rejected.
pub(crate) const MOST_BYTES: usize = 1_048_576;

/// Writes the error of each script in the files of these names, with its place. If a file can't be read or memory runs out, the call
/// writes nothing. If the write fails, a part of the text may be written.
#[tactic(auto, using(crate::proofs::Tellings::outcome, crate::proofs::Reasons::reason_anyhow, crate::proofs::Reasons::untold, crate::proofs::Asking::asks_anyhow))]
pub fn tell_at<F: Files, O: Sink>(
    alloc: Global,
    scripts: &[&str],
    files: &mut F,
    out: &mut O,
) -> Result<Status, Trouble>
    ensures ok { IfOk result (AtOutcome (F.held files.old) (map (λ name. name.now) scripts.now)
        (O.taken out.old) (O.taken out.new)) }
    ensures err { IfErr result (AtFailure (F.held files.old) (map (λ name. name.now) scripts.now)
        (O.taken out.old) (O.taken out.new)) }
    ensures asks { Asks (map (λ name. name.now) scripts.now) result
        (F.asked files.old) (F.asked files.new) }
    ensures reason { IfErr result (IsReason F.asked F.faults (map (λ name. name.now) scripts.now)
        files.old files.new (Rose (O.faults out.old) (O.faults out.new))) }
    ensures calm { IfOk result (λ status. O.faults out.new ≡ O.faults out.old) }
{
    let text = tell_all(alloc, scripts, files)?;
    match out.put(text.as_slice()) {
        Ok(()) => Ok(status_of(text.as_slice())),
        Err(Failed) => Err(Trouble::Out),
    }
}

/// Returns the status that belongs to this text: `Found` if an error is reported, or else `Fine`.
fn status_of(text: &[u8]) -> Status
    ensures { Says text.now result }
{
    if text.is_empty() {
        return Status::Fine;
    }
    Status::Found
}

/// Returns the reports on the scripts, in order.
#[tactic(auto, using(crate::proofs::Reasons::reason_of_first, crate::proofs::Reasons::reason_of_others, crate::proofs::Asking::asks_nothing, crate::proofs::Asking::asks_first, crate::proofs::Asking::asks_others, crate::proofs::Asking::asks_each))]
fn tell_all<F: Files>(alloc: Global, scripts: &[&str], files: &mut F) -> Result<Vec<u8>, Trouble>
    ensures tells { IfOk result (λ text. TellsOfAll (F.held files.old)
        (map (λ name. name.now) scripts.now) text.items) }
    ensures asks { IfOk result (λ text. F.asked files.new
        ≡ F.asked files.old ++ map (λ name. name.now) scripts.now) }
    ensures asks_some { IfErr result (λ trouble. AsksSome (map (λ name. name.now) scripts.now)
        (F.asked files.old) (F.asked files.new)) }
    ensures reason { IfErr result (IsReason F.asked F.faults (map (λ name. name.now) scripts.now)
        files.old files.new ⊥) }
{
    match scripts {
        [] => Ok(Vec::new(alloc)),
        [first, others @ ..] => {
            let mut text = tell(alloc, first, files)?;
            let rest = tell_all(alloc, others, files)?;
            text.extend_from_slice(rest.as_slice())?;
            Ok(text)
        }
    }
}

/// Returns the report on the script in the file of this name. The report is empty if the script is accepted.
fn tell<F: Files>(alloc: Global, name: &str, files: &mut F) -> Result<Vec<u8>, Trouble>
    ensures tells { IfOk result (λ text. TellsOf (F.held files.old name.now) name.now text.items) }
    ensures held { F.held files.new ≡ F.held files.old }
    ensures asks { IfOk result (λ text. F.asked files.new ≡ F.asked files.old ++ name.now ∷ []) }
    ensures asks_some { IfErr result (λ trouble. AsksSome (name.now ∷ [])
        (F.asked files.old) (F.asked files.new)) }
    ensures reason { IfErr result
        (IsReason F.asked F.faults (name.now ∷ []) files.old files.new ⊥) }
    ensures never_falls { F.faults files.old ≤ F.faults files.new }
{
    match files.load(alloc, name, MOST_BYTES) {
        Ok(Loaded::Bytes(bytes)) => Ok(tell_bytes(alloc, name, bytes.as_slice())?),
        Ok(Loaded::TooLong(len)) => Ok(tell_long(alloc, name, len)?),
        Err(FilesFault::Failed) => Err(Trouble::File(String::from_str(alloc, name)?)),
        Err(FilesFault::NoMemory) => Err(Trouble::NoMemory),
    }
}

/// Returns the report on a script with these bytes.
fn tell_bytes(alloc: Global, name: &str, bytes: &[u8]) -> Result<Vec<u8>, NoMemory>
    ensures { IfOk result (λ text. (told : Option (List ℕ)) → IsLoaded told bytes.now
        → TellsOf told name.now text.items) }
{
    match find_fault(alloc, bytes) {
        Ok(None) => Ok(Vec::new(alloc)),
        Ok(Some(found)) => tell_point(alloc, name, bytes, &found),
        Err(NoMemory) => Err(NoMemory),
    }
}

/// Returns the report on a script with these bytes, which has this error.
fn tell_point(alloc: Global, name: &str, bytes: &[u8], found: &Point) -> Result<Vec<u8>, NoMemory>
    requires { IsPoint bytes.now found.now }
    ensures { IfOk result (λ text. (told : Option (List ℕ)) → IsLoaded told bytes.now
        → TellsOf told name.now text.items) }
{
    message_text(alloc, name, bytes, found)
}

/// Returns the report on a file that is too long for a script. `len` is the number of its bytes.
fn tell_long(alloc: Global, name: &str, len: usize) -> Result<Vec<u8>, NoMemory>
    ensures { IfOk result (λ text. TellsFault name.now [] (long_point len) text.items) }
{
    let found = Point {
        fault: ScriptFault::TooLong(len),
        mark: None,
    };
    message_text(alloc, name, b"", &found)
}
