//! `verify`: writes `trace` if a log is a trace of a script.
ghost use Rattle.std.specs.Prelude.{◌≡◌, ◌≢◌, ◌≤◌, ℕ, List, [], ◌∷◌, Option, Err, IfErr, OnErr};
ghost use Rattle.std.specs.Prelude.{length};
ghost use Rattle.tb_edge.specs.Faults.{Rose};
ghost use Rattle.tb_log.specs.Shapes.{lane_count};
ghost use Rattle.tb_top.specs.Asking.{AsksBeside};
ghost use Rattle.tb_load.specs.Loading.{HasProgram};
ghost use Rattle.tb_top.specs.Verify.{HasVerdict, IsJudged, VerifyOutcome, VerifyRequest};
ghost use Rattle.tb_top.specs.Helpers.Parts.{AsksFor, IsBehindScript, IsInside, IsVerified};

use crate::fault::Fault;
use crate::loading::{load_log, load_script};
use crate::status::{Bound, LogWrong};
use std::alloc::Global;
use tb_body::Program;
use tb_edge::{Failed, Files, Sink};
use tb_terms::Texts;
use tb_verify::{Verdict, VerifyFault, verify};
use tb_walk::Walk;

/// Writes `trace` if the log in the file `log` is a trace of the script in the file `script`. The bus of the trace starts with
/// each of the given commands connected.
pub fn verify_log<F: Files, O: Sink>(
    alloc: Global,
    script: &str,
    log: &str,
    connects: &Texts,
    files: &mut F,
    out: &mut O,
) -> Result<(), Fault>
    requires { length connects.now ≤ lane_count }
    ensures outcome { VerifyOutcome (F.held files.old)
        (record { script = script.now; log = log.now; connects = connects.now })
        (O.taken out.old) (O.taken out.new) result }
    ensures asks { AsksBeside (F.held files.old script.now) script.now (log.now ∷ [])
        (F.asked files.old) (F.asked files.new) result }
    ensures file_rose { result ≡ Err Fault.File → Rose (F.faults files.old) (F.faults files.new) }
    ensures inside { IfErr result IsInside }
    ensures out_rose { result ≡ Err Fault.Out → Rose (O.faults out.old) (O.faults out.new) }
{
    match load_script(alloc, script, files) {
        Ok(program) => verify_program(alloc, program, log, connects, files, out),
        Err(fault) => Err(fault),
    }
}

/// Writes `trace` if the log in the file with this name is a trace of the program.
fn verify_program<F: Files, O: Sink>(
    alloc: Global,
    program: Program,
    log: &str,
    connects: &Texts,
    files: &mut F,
    out: &mut O,
) -> Result<(), Fault>
    requires { length connects.now ≤ lane_count }
    ensures outcome { (script : List ℕ) → HasProgram (F.held files.old script) program
        → VerifyOutcome (F.held files.old)
        (record { script = script; log = log.now; connects = connects.now })
        (O.taken out.old) (O.taken out.new) result }
    ensures behind { IfErr result IsBehindScript }
    ensures asks { AsksFor (log.now ∷ []) (F.asked files.old) (F.asked files.new) result }
    ensures file_rose { result ≡ Err Fault.File → Rose (F.faults files.old) (F.faults files.new) }
    ensures inside { IfErr result IsInside }
    ensures out_rose { result ≡ Err Fault.Out → Rose (O.faults out.old) (O.faults out.new) }
{
    match load_log(alloc, log, files) {
        Ok(bytes) => verify_bytes(alloc, program, connects, bytes.as_slice(), out),
        Err(fault) => Err(fault),
    }
}

/// Writes `trace` if the log with these bytes is a trace of the program.
fn verify_bytes<O: Sink>(
    alloc: Global,
    program: Program,
    connects: &Texts,
    log: &[u8],
    out: &mut O,
) -> Result<(), Fault>
    requires { length connects.now ≤ lane_count }
    ensures outcome { IsVerified program connects.now log.now
        (O.taken out.old) (O.taken out.new) result }
    ensures behind { IfErr result IsBehindScript }
    ensures not_file { result ≢ Err Fault.File }
    ensures inside { IfErr result IsInside }
    ensures out_rose { result ≡ Err Fault.Out → Rose (O.faults out.old) (O.faults out.new) }
{
    match verify::<Walk>(alloc, program, connects, log) {
        Ok(Verdict::Trace) => put_trace(out),
        Ok(Verdict::Line(number)) => Err(Fault::Log(LogWrong::Line(number))),
        Err(VerifyFault::Full) => Err(Fault::Limit(Bound::Events)),
        Err(VerifyFault::NoMemory) => Err(Fault::NoMemory),
    }
}

/// Writes `trace` and a newline.
fn put_trace<O: Sink>(out: &mut O) -> Result<(), Fault>
    ensures outcome { (held : List ℕ → Option (List ℕ)) (request : VerifyRequest)
        → IsJudged held request (HasVerdict Verdict.Trace)
        → VerifyOutcome held request (O.taken out.old) (O.taken out.new) result }
    ensures behind { IfErr result IsBehindScript }
    ensures not_file { result ≢ Err Fault.File }
    ensures inside { IfErr result IsInside }
    ensures rose { OnErr result (Rose (O.faults out.old) (O.faults out.new)) }
{
    match out.put(b"trace\n") {
        Ok(()) => Ok(()),
        Err(Failed) => Err(Fault::Out),
    }
}
