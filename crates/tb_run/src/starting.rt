//! Makes the workers of a bus.
ghost use Rattle.std.specs.Prelude.{◌≡◌, ◌≤◌, ◌+◌, [], map, vec_len, vec_capacity};
ghost use Rattle.std.specs.List.{All};
ghost use Rattle.tb_run.specs.Jobs.{IsReady};
ghost use Rattle.tb_run.specs.Running.{Fits};

use crate::buffer::Buffer;
use crate::ends::WorkEnd;
use crate::post::Post;
use crate::worker::{Work, Worker};
use tb_edge::{Inlet, Outlet};
use tb_lock::Seat;
use tb_process_steps::Walker;

/// Makes a worker for each work, with a buffer and with the seat at the same place.
pub fn begin_all<'a, W: Walker, I: Inlet, O: Outlet>(
    post: &'a Post<W>,
    seats: Vec<Seat>,
    buffers: Vec<Buffer>,
    works: Vec<Work<I, O>>,
    workers: &mut Vec<Worker<'a, W, I, O>>,
)
    requires fits { Fits post.now.shared seats.items works.items }
    requires seats { vec_len seats ≡ vec_len works }
    requires buffers { vec_len buffers ≡ vec_len works }
    requires none { workers.old.items ≡ [] }
    requires room { vec_len works ≤ vec_capacity workers.old }
    ensures seats { map (λ it. it.seat) workers.new.items ≡ seats.items }
    ensures works { map (λ it. it.work) workers.new.items ≡ works.items }
    ensures ready { All (λ it. IsReady it.post.now.shared it.seat it.work) workers.new.items }
    ensures posts { All (λ it. it.post.now.shared ≡ post.now.shared) workers.new.items }
{
    let mut seats = seats.into_iter();
    let mut buffers = buffers;
    for work in works {
        match seats.next() {
            Some(seat) => match buffers.pop() {
                Some(buffer) => workers.push_reserved(Worker {
                    post,
                    seat,
                    buffer,
                    work,
                    end: WorkEnd::Over,
                }),
                None => unreachable!(),
            },
            None => unreachable!(),
        }
    }
}
