//! The rights that the first seat of a bus passes on.
ghost use Rattle.std.specs.Prelude.{◌≡◌, [], ◌≤◌, vec_capacity};
ghost use Rattle.tb_lock.specs.Rights.{no_rights, stepper_rights, ticker_rights};
ghost use Rattle.tb_lock.specs.Seats.{first_seat, handed_on, kept_of};
ghost use Rattle.tb_run.specs.Parting.{left_after, parted};
ghost use Rattle.tb_run.specs.Parts.{job_rights, in_of, out_of};

use crate::seats::split_all;
use tb_lock::{Rights, Seat, Shared};
use tb_process_steps::Walker;

/// Makes a seat for each worker, in the order of the jobs. Returns two further seats: one for the tick worker, and one without rights for
/// the job that writes the log.
pub(crate) fn hand_out<W: Walker>(
    shared: &Shared<W>,
    seat: &mut Seat,
    seats: &mut Vec<Seat>,
) -> (Seat, Seat)
    requires first { seat.old ≡ first_seat shared.now seat.old.origin }
    requires none { seats.old.items ≡ [] }
    requires room { 33 ≤ vec_capacity seats.old }
    ensures seats { seats.new.items ≡ parted seat.old job_rights }
    ensures tick { result.0 ≡ handed_on ticker_rights (left_after seat.old job_rights) }
    ensures log { result.1
        ≡ handed_on no_rights (kept_of ticker_rights (left_after seat.old job_rights)) }
    ensures seat { seat.new
        ≡ kept_of no_rights (kept_of ticker_rights (left_after seat.old job_rights)) }
{
    let parts = job_rights();
    split_all(shared, seat, parts.as_slice(), seats);
    let tick = shared.split(seat, Rights::ticker());
    let log = shared.split(seat, Rights::none());
    (tick, log)
}

/// Returns the rights of the jobs: the readers, the writers and the stepper.
#[tactic(auto, unfolding(crate::specs::Parts::job_rights))]
fn job_rights() -> [Rights; 33]
    ensures { result ≡ job_rights }
{
    [
        in_of(1),
        in_of(2),
        in_of(4),
        in_of(8),
        in_of(16),
        in_of(32),
        in_of(64),
        in_of(128),
        in_of(256),
        in_of(512),
        in_of(1024),
        in_of(2048),
        in_of(4096),
        in_of(8192),
        in_of(16384),
        in_of(32768),
        out_of(1),
        out_of(2),
        out_of(4),
        out_of(8),
        out_of(16),
        out_of(32),
        out_of(64),
        out_of(128),
        out_of(256),
        out_of(512),
        out_of(1024),
        out_of(2048),
        out_of(4096),
        out_of(8192),
        out_of(16384),
        out_of(32768),
        Rights::stepper(),
    ]
}

/// Returns the right to deliver the input of the lane of this bit: 1 for lane 1, 2 for lane 2, 4 for lane 3, and so on.
pub fn in_of(bit: u16) -> Rights
    ensures { result ≡ in_of bit }
{
    Rights {
        steps: false,
        ticks: false,
        ins: bit,
        outs: 0,
    }
}

/// Returns the right to take the queued items of the lane of this bit, with the same bits.
pub fn out_of(bit: u16) -> Rights
    ensures { result ≡ out_of bit }
{
    Rights {
        steps: false,
        ticks: false,
        ins: 0,
        outs: bit,
    }
}
