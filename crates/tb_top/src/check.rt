//! `check`: writes `ok` if a script is accepted.
ghost use Rattle.std.specs.Prelude.{◌≡◌, ◌≢◌, ℕ, List, [], Option, Err, IfErr, OnErr};
ghost use Rattle.tb_edge.specs.Faults.{Rose};
ghost use Rattle.tb_top.specs.Asking.{AsksBeside};
ghost use Rattle.tb_top.specs.Check.{CheckOutcome};
ghost use Rattle.tb_load.specs.Loading.{IsAccepted};
ghost use Rattle.tb_top.specs.Helpers.Parts.{IsBehindScript, IsInside};

use crate::accepting::accept_script;
use crate::fault::Fault;
use std::alloc::Global;
use tb_edge::{Failed, Files, Sink};

/// Writes `ok` if the script in the file of this name is accepted.
pub fn check<F: Files, O: Sink>(
    alloc: Global,
    script: &str,
    files: &mut F,
    out: &mut O,
) -> Result<(), Fault>
    ensures outcome { CheckOutcome (F.held files.old script.now)
        (O.taken out.old) (O.taken out.new) result }
    ensures asks { AsksBeside (F.held files.old script.now) script.now []
        (F.asked files.old) (F.asked files.new) result }
    ensures file_rose { result ≡ Err Fault.File → Rose (F.faults files.old) (F.faults files.new) }
    ensures inside { IfErr result IsInside }
    ensures out_rose { result ≡ Err Fault.Out → Rose (O.faults out.old) (O.faults out.new) }
{
    match accept_script(alloc, script, files) {
        Ok(()) => put_ok(out),
        Err(fault) => Err(fault),
    }
}

/// Writes `ok` and a newline.
fn put_ok<O: Sink>(out: &mut O) -> Result<(), Fault>
    ensures outcome { (told : Option (List ℕ)) → IsAccepted told
        → CheckOutcome told (O.taken out.old) (O.taken out.new) result }
    ensures behind { IfErr result IsBehindScript }
    ensures inside { IfErr result IsInside }
    ensures not_file { result ≢ Err Fault.File }
    ensures rose { OnErr result (Rose (O.faults out.old) (O.faults out.new)) }
{
    match out.put(b"ok\n") {
        Ok(()) => Ok(()),
        Err(Failed) => Err(Fault::Out),
    }
}
