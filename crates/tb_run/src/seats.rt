//! Joins and splits several seats.
ghost use Rattle.std.specs.Prelude.{◌≡◌, ◌<◌, ◌≤◌, ◌+◌, ◌++◌, length, vec_len, vec_capacity};
ghost use Rattle.std.specs.List.{All};
ghost use Rattle.tb_run.specs.Joining.{JoinsAll};
ghost use Rattle.tb_run.specs.Parting.{CanPart, parted, left_after};

use tb_lock::{Rights, Seat, Shared};
use tb_process_steps::Walker;

/// Joins all seats to one, in order. All are seats of the same bus.
pub fn join_all<W: Walker>(shared: &Shared<W>, seat: &mut Seat, others: Vec<Seat>)
    requires own { seat.old.bus ≡ shared.now }
    requires others { All (λ it. it.bus ≡ shared.now) others.items }
    ensures { JoinsAll seat.old others.items seat.new }
{
    for other in others {
        shared.join(seat, other);
    }
}

/// Passes each of these rights to a new seat, in order. The new seats are added at the end of the list.
pub fn split_all<W: Walker>(
    shared: &Shared<W>,
    seat: &mut Seat,
    parts: &[Rights],
    seats: &mut Vec<Seat>,
)
    requires own { seat.old.bus ≡ shared.now }
    requires rights { CanPart seat.old.rights parts.now }
    requires room { length parts.now < seat.old.room }
    requires seats { vec_len seats.old + length parts.now ≤ vec_capacity seats.old }
    ensures seats { seats.new.items ≡ seats.old.items ++ parted seat.old parts.now }
    ensures seat { seat.new ≡ left_after seat.old parts.now }
{
    for part in parts {
        let new = shared.split(seat, *part);
        seats.push_reserved(new);
    }
}
