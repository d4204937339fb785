//! The rights that the first seat of each bus of a pair passes on.
ghost use Rattle.std.specs.Prelude.{◌≡◌, [], ◌≤◌, vec_capacity};
ghost use Rattle.tb_lock.specs.Seats.{first_seat};
ghost use Rattle.tb_run.specs.Parting.{parted};
ghost use Rattle.tb_pair.specs.Parts.{to_pipe};
ghost use Rattle.tb_pair_run.specs.Helpers.Parts.{lane_rights, pipe_seat_of, tick_seat_of, rest_of};

use tb_lock::{Rights, Seat, Shared};
use tb_process_steps::Walker;
use tb_run::{in_of, out_of, split_all};

/// Passes a seat to each worker of lanes 2 to 16, in the order of the jobs. Then passes one to the worker that serves the pipe, and one
/// to the ticker.
pub(crate) fn hand_out<W: Walker>(
    shared: &Shared<W>,
    seat: &mut Seat,
    seats: &mut Vec<Seat>,
) -> (Seat, Seat)
    requires first { seat.old ≡ first_seat shared.now seat.old.origin }
    requires none { seats.old.items ≡ [] }
    requires room { 31 ≤ vec_capacity seats.old }
    ensures seats { seats.new.items ≡ parted seat.old lane_rights }
    ensures pipe { result.0 ≡ pipe_seat_of seat.old }
    ensures tick { result.1 ≡ tick_seat_of seat.old }
    ensures seat { seat.new ≡ rest_of seat.old }
{
    let parts = lane_rights();
    split_all(shared, seat, parts.as_slice(), seats);
    let pipe = shared.split(seat, to_pipe());
    let tick = shared.split(seat, Rights::ticker());
    (pipe, tick)
}

/// The rights of the readers and the writers of lanes 2 to 16, and of the stepper.
#[tactic(auto, unfolding(crate::specs::Helpers::Parts::lane_rights))]
fn lane_rights() -> [Rights; 31]
    ensures { result ≡ lane_rights }
{
    [
        in_of(2),
        in_of(4),
        in_of(8),
        in_of(16),
        in_of(32),
        in_of(64),
        in_of(128),
        in_of(256),
        in_of(512),
        in_of(1024),
        in_of(2048),
        in_of(4096),
        in_of(8192),
        in_of(16384),
        in_of(32768),
        out_of(2),
        out_of(4),
        out_of(8),
        out_of(16),
        out_of(32),
        out_of(64),
        out_of(128),
        out_of(256),
        out_of(512),
        out_of(1024),
        out_of(2048),
        out_of(4096),
        out_of(8192),
        out_of(16384),
        out_of(32768),
        Rights::stepper(),
    ]
}

/// Both rights of lane 1.
fn to_pipe() -> Rights
    ensures { result ≡ to_pipe }
{
    Rights {
        steps: false,
        ticks: false,
        ins: 1,
        outs: 1,
    }
}
