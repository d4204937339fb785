//! The job of the calling thread while a pair runs, which does nothing.
use std::sync::Wait;
use tb_edge::Job;

/// The caller's own job while a pair runs. No log is written meanwhile, so it does nothing.
#[derive(Drop)]
pub(crate) struct Idle;

impl Job for Idle {
    ghost use Rattle.std.specs.Prelude.{⊤};

    ghost ready = { λ it. ⊤ };

    ghost done = { λ old new. ⊤ };

    fn work<R: Wait>(&mut self, _rt: &R) {}
}
