//! The jobs of a pair: joined to one list, and taken apart again.
ghost use Rattle.std.specs.Prelude.{◌≡◌, ◌≤◌, ◌+◌, ◌++◌, [], map, length, vec_len, vec_capacity};
ghost use Rattle.tb_pair_run.specs.Helpers.Teams.{AreOthers, IsTeam, jobs_of, others_of};

use std::vec::IntoIter;
use tb_pair::{PairJob, PipeReading, PipeWriting};
use tb_process_steps::Walker;

/// How many workers of lanes 2 to 16 a bus has, with its stepper.
pub(crate) const WORKERS: usize = 31;

/// Joins all jobs to one list: the two of the pipe, and the workers of both buses.
pub(crate) fn put_together<'a, W: Walker, J: Drop>(
    writing: PipeWriting<'a, W>,
    reading: PipeReading<'a, W>,
    workers: Vec<J>,
    others: Vec<J>,
    jobs: &mut Vec<PairJob<'a, W, J>>,
)
    requires none { jobs.old.items ≡ [] }
    requires room { vec_len workers + vec_len others + 2 ≤ vec_capacity jobs.old }
    ensures { jobs.new.items ≡ jobs_of writing.entry reading.entry (workers.items ++ others.items) }
{
    jobs.push_reserved(PairJob::Writes(writing));
    jobs.push_reserved(PairJob::Reads(reading));
    put_others(workers, jobs);
    put_others(others, jobs);
}

fn put_others<'a, W: Walker, J: Drop>(others: Vec<J>, jobs: &mut Vec<PairJob<'a, W, J>>)
    requires { vec_len jobs.old + vec_len others ≤ vec_capacity jobs.old }
    ensures items { jobs.new.items ≡ jobs.old.items ++ others_of others.items }
    ensures room { vec_capacity jobs.new ≡ vec_capacity jobs.old }
{
    for other in others {
        jobs.push_reserved(PairJob::Other(other));
    }
}

/// Takes the jobs apart: the two of the pipe, the workers of the first bus, and those of the second.
pub(crate) fn take_apart<'a, W: Walker, J: Drop>(
    jobs: Vec<PairJob<'a, W, J>>,
    workers: &mut Vec<J>,
    others: &mut Vec<J>,
) -> (PipeWriting<'a, W>, PipeReading<'a, W>)
    requires team { IsTeam jobs.items }
    requires count { length jobs.items ≡ 64 }
    requires workers { (workers.old.items ≡ []) × (31 ≤ vec_capacity workers.old) }
    requires others { (others.old.items ≡ []) × (31 ≤ vec_capacity others.old) }
    ensures jobs { jobs.entry.items
        ≡ jobs_of result.0 result.1 (workers.new.items ++ others.new.items) }
    ensures count { length workers.new.items ≡ 31 }
{
    let mut jobs = jobs.into_iter();
    let writing = match jobs.next() {
        Some(PairJob::Writes(writing)) => writing,
        _ => unreachable!(),
    };
    let reading = match jobs.next() {
        Some(PairJob::Reads(reading)) => reading,
        _ => unreachable!(),
    };
    take_some(&mut jobs, workers);
    take_some(&mut jobs, others);
    (writing, reading)
}

/// Takes the workers of one bus.
fn take_some<'a, W: Walker, J: Drop>(jobs: &mut IntoIter<PairJob<'a, W, J>>, workers: &mut Vec<J>)
    requires others { AreOthers jobs.old.rest.items }
    requires count { 31 ≤ length jobs.old.rest.items }
    requires workers { (workers.old.items ≡ []) × (31 ≤ vec_capacity workers.old) }
    ensures items { others_of workers.new.items ++ jobs.new.rest.items ≡ jobs.old.rest.items }
    ensures count { length workers.new.items ≡ 31 }
    ensures others { AreOthers jobs.new.rest.items }
{
    for _taken in 0..WORKERS {
        match jobs.next() {
            Some(PairJob::Other(worker)) => workers.push_reserved(worker),
            _ => unreachable!(),
        }
    }
}
