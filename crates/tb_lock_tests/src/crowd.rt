//! Many threads that use the seats of one bus. Some of the threads stop the bus.
ghost use Rattle.std.specs.Prelude.{◌≡◌, ◌+◌, ◌<◌, All, IfOk, vec_len};
ghost use Rattle.std.specs.Thread.{IsSync};
ghost use Rattle.tb_lock.specs.Rights.{all_rights, no_rights};

use crate::workers::Bus;
use std::alloc::{AllocError, Global};
use std::sync::Wait;
use std::thread;
use std::thread::{Threads, join};
use tb_lock::{Rights, Seat};
use tb_log::Input;

/// Splits off `count` new seats without rights.
pub(crate) fn split_off(
    alloc: Global,
    bus: &Bus,
    seat: &mut Seat,
    count: u64,
) -> Result<Vec<Seat>, AllocError>
    requires own { seat.old.bus ≡ bus.now }
    requires whole { seat.old.rights ≡ all_rights }
    requires room { count < seat.old.room }
    ensures same { (seat.new.bus ≡ seat.old.bus) × (seat.new.rights ≡ all_rights) }
    ensures room { IfOk result (λ seats. seat.new.room + vec_len seats ≡ seat.old.room) }
    ensures seats { IfOk result (λ seats. All (λ other. (other.bus ≡ bus.now)
        × (other.rights ≡ no_rights) × (other.room ≡ 1)) seats.items) }
{
    let mut seats = Vec::new(alloc);
    for _ in 0..count {
        seats.push(bus.split(seat, Rights::none()))?;
    }
    Ok(seats)
}

/// Joins all seats into one.
pub(crate) fn join_all(bus: &Bus, mut seat: Seat, mut others: Vec<Seat>) -> Seat
    requires own { seat.bus ≡ bus.now }
    requires whole { seat.rights ≡ all_rights }
    requires others { All (λ other. (other.bus ≡ bus.now) × (other.rights ≡ no_rights)
        × (other.room ≡ 1)) others.items }
    ensures same { (result.bus ≡ bus.now) × (result.rights ≡ all_rights) }
    ensures room { result.room ≡ seat.room + vec_len others }
{
    while let Some(other) = others.pop() {
        bus.join(&mut seat, other);
    }
    seat
}

/// Makes steps and delivers ticks in turn, until a call is rejected, for at most 1,000,000 rounds. Returns the number of successful calls.
fn work<R: Wait>(rt: &R, bus: &Bus, mut seat: Seat) -> (Seat, u64)
    requires own { seat.bus ≡ bus.now }
    requires whole { seat.rights ≡ all_rights }
    ensures { (result.0.bus ≡ seat.bus)
        × (result.0.rights ≡ seat.rights) × (result.0.room ≡ seat.room) }
{
    let mut made = 0;
    for _ in 0..1_000_000_u64 {
        if bus.step(rt, &mut seat).is_err() {
            break;
        }
        made += 1;
        if bus.hand_in(rt, &mut seat, Input::Tick).is_err() {
            break;
        }
        made += 1;
    }
    (seat, made)
}

/// Uses each seat in its own thread. Every fourth thread stops the bus, and the others read the state of lane 1.
fn attend_all<R: Threads + Wait + Sync>(rt: &R, bus: &Bus, mut seats: Vec<Seat>) -> Vec<Seat>
    requires { All
        (λ seat. (seat.bus ≡ bus.now) × (seat.rights ≡ no_rights) × (seat.room ≡ 1)) seats.items }
    ensures len { vec_len result ≡ vec_len seats }
    ensures seats { All
        (λ seat. (seat.bus ≡ bus.now) × (seat.rights ≡ no_rights) × (seat.room ≡ 1)) result.items }
{
    thread::for_each_mut(
        rt,
        seats.as_mut_slice(),
        64,
        &|number, seat|
            requires { seat.now.bus ≡ bus.now }
            ensures { (seat.exit.now.bus ≡ seat.entry.now.bus)
                × (seat.exit.now.rights ≡ seat.entry.now.rights)
                × (seat.exit.now.room ≡ seat.entry.now.room) }
        {
            if number % 4 == 3 {
                bus.stop(rt, seat);
            } else {
                bus.lane_state(rt, seat, 1);
            }
        },
    );
    seats
}

/// Works with one seat while other threads use the other seats.
pub(crate) fn work_beside<R: Threads + Wait + Sync>(
    rt: &R,
    bus: &Bus,
    seat: Seat,
    others: Vec<Seat>,
) -> ((Seat, u64), Vec<Seat>)
    requires own { seat.bus ≡ bus.now }
    requires whole { seat.rights ≡ all_rights }
    requires others { All (λ other. (other.bus ≡ bus.now) × (other.rights ≡ no_rights)
        × (other.room ≡ 1)) others.items }
    ensures same { (result.0.0.bus ≡ bus.now) × (result.0.0.rights ≡ all_rights)
        × (result.0.0.room ≡ seat.room) }
    ensures len { vec_len result.1 ≡ vec_len others }
    ensures others { All (λ other. (other.bus ≡ bus.now) × (other.rights ≡ no_rights)
        × (other.room ≡ 1)) result.1.items }
{
    join(
        rt,
        move || -> (Seat, u64)
            requires { (seat.bus ≡ bus.now) × (seat.rights ≡ all_rights) }
            ensures { (result.0.bus ≡ bus.entry.now)
                × (result.0.rights ≡ all_rights) × (result.0.room ≡ seat.room) }
        { work(rt, bus, seat) },
        move || -> Vec<Seat>
            requires { IsSync R.row × All (λ other. (other.bus ≡ bus.now)
                × (other.rights ≡ no_rights) × (other.room ≡ 1)) others.items }
            ensures { (vec_len result ≡ vec_len others) × All (λ other. (other.bus ≡ bus.entry.now)
                × (other.rights ≡ no_rights) × (other.room ≡ 1)) result.items }
        { attend_all(rt, bus, others) },
    )
}
