//! Writes the line of an error to standard error.
ghost use Rattle.std.specs.Prelude.{◌≡◌};
ghost use Rattle.tb_edge.specs.Faults.{Rose};
ghost use Rattle.tb_pair_top.specs.Reporting.{Reports};

use crate::fault::PairFault;
use crate::status::{PairEdge, PairStatus};
use tb_edge::{Failed, Sink};
use tb_write::put_line;

/// Writes the line of an error, if there is one. Returns the status with which the program ends.
pub fn report<E: Sink>(answer: Result<(), PairFault>, err: &mut E) -> PairStatus
    ensures reports { Reports answer (E.taken err.old) (E.taken err.new) result }
    ensures rose { result ≡ PairStatus.Outside PairEdge.Err
        → Rose (E.faults err.old) (E.faults err.new) }
{
    match answer {
        Ok(()) => PairStatus::Ended,
        Err(fault) => report_fault(fault, err),
    }
}

fn report_fault<E: Sink>(fault: PairFault, err: &mut E) -> PairStatus
    ensures reports { Reports {A = Unit {0}} (Err fault)
        (E.taken err.old) (E.taken err.new) result }
    ensures rose { result ≡ PairStatus.Outside PairEdge.Err
        → Rose (E.faults err.old) (E.faults err.new) }
{
    match put_line(b"toolbus_pair: ", &fault.message(), err) {
        Ok(()) => fault.status(),
        Err(Failed) => PairStatus::Outside(PairEdge::Err),
    }
}
