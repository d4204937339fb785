//! A test that all jobs of a run are done concurrently: each job waits until all have begun.
use std::sync::Wait;
use std::sync::atomic::{AtomicU32, Ordering};
use std::test::Fail;
use std::thread;
use tb_edge::{Crew, Job, ThreadCrew};

/// The number of jobs of a run in addition to the job that writes the log: a reader and a writer for each of sixteen lanes, the stepper,
/// and the ticker.
const JOBS: u32 = 34;

/// The number of looks after which a job gives up.
const LOOKS: u32 = 20_000_000;

/// A job that waits until all jobs have begun.
#[derive(Drop)]
struct Waiting<'a> {
    begun: &'a AtomicU32,
    has_met_all: bool,
}

impl<'a> Job for Waiting<'a> {
    ghost use Rattle.std.specs.Prelude.{⊤};

    ghost ready = { λ _. ⊤ };

    ghost done = { λ _ _. ⊤ };

    fn work<R: Wait>(&mut self, _rt: &R) {
        self.begun.fetch_add(1, Ordering::SeqCst);
        for _ in 0..LOOKS {
            if self.begun.load(Ordering::SeqCst) > JOBS {
                self.has_met_all = true;
                return;
            }
            thread::yield_now();
        }
    }
}

fn new_job(begun: &AtomicU32) -> Waiting {
    Waiting {
        begun,
        has_met_all: false,
    }
}

#[test]
fn all_jobs_are_done_beside_each_other(rt: HostRuntime) -> Result<(), Fail> {
    let begun = AtomicU32::new(0);
    let mut jobs = Vec::new(rt.alloc());
    for _ in 1..JOBS {
        jobs.push(new_job(&begun))?;
    }
    let mut lent = new_job(&begun);
    let mut own = new_job(&begun);
    let mut met: u32 = 0;
    if let Ok(done) = ThreadCrew::new().beside(&rt, jobs, &mut lent, &mut own) {
        for job in &done {
            met = u32::from(job.has_met_all).saturating_add(met);
        }
    }
    assert_eq!(rt;
        (met, lent.has_met_all, own.has_met_all),
        (JOBS - 1, true, true)
    );
    Ok(())
}
