//! Writes the line of an error to standard error.
ghost use Rattle.std.specs.Prelude.{◌≡◌};
ghost use Rattle.tb_edge.specs.Faults.{Rose};
ghost use Rattle.tb_top.specs.Reporting.{Reports};

use crate::fault::Fault;
use crate::status::{Edge, Status};
use tb_edge::{Failed, Sink};
use tb_write::put_line;

/// Writes the line of an error, if there is one. Returns the status with which the program ends.
pub fn report<E: Sink>(answer: Result<(), Fault>, err: &mut E) -> Status
    ensures reports { Reports answer (E.taken err.old) (E.taken err.new) result }
    ensures rose { result ≡ Status.Outside Edge.Err → Rose (E.faults err.old) (E.faults err.new) }
{
    match answer {
        Ok(()) => Status::Ended,
        Err(fault) => report_fault(fault, err),
    }
}

fn report_fault<E: Sink>(fault: Fault, err: &mut E) -> Status
    ensures reports { Reports {A = Unit {0}} (Err fault)
        (E.taken err.old) (E.taken err.new) result }
    ensures rose { result ≡ Status.Outside Edge.Err → Rose (E.faults err.old) (E.faults err.new) }
{
    match put_line(b"toolbus: ", &fault.message(), err) {
        Ok(()) => fault.status(),
        Err(Failed) => Status::Outside(Edge::Err),
    }
}
