//! A bus handle: it lets a thread call a shared bus, and contracts see what the handle knows of the bus.
use atomic_table::Badge;
use std::marker::Model;

/// The type whose model is a handle's view. The code makes no value of this type.
pub struct View {}

impl Model for View {
    ghost use Rattle.tb_lock.specs.Seats.{SeatView, seat_code, nobody};

    ghost Value = { SeatView };

    ghost coded = { seat_code };

    ghost view = { λ _. nobody };
}

/// A bus handle. It has no bytes at run time, and can go to another thread. Contracts see it as a `SeatView`: the history as far as
/// the handle has seen it, its own entries, its rights, and its quota (how many handles it can become). If a handle is dropped, its
/// rights and its quota are lost.
#[derive(Drop)]
pub struct Seat {
    pub(crate) badge: Badge<View>,
}

impl Model for Seat {
    ghost use Rattle.tb_lock.specs.Seats.{SeatView, seat_code};
    ghost use Rattle.tb_lock.specs.Helpers.Plays.{seat_of, IsSeat};

    ghost Value = { SeatView };

    ghost coded = { seat_code };

    ghost view = { λ seat. seat_of seat.badge.table_id seat.badge.views };

    ghost invariant = { λ seat. IsSeat seat.badge.views };
}
