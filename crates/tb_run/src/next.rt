//! What a reader does after it has delivered an item, so that the bus goes on.
use crate::post::Post;
use std::sync::Wait;
use tb_process_steps::Walker;

/// Goes on with a bus after an input.
pub trait Next {
    ghost use Rattle.atomic_table.specs.Seated.{TableId};

    // The condition under which this goes on with the bus of this name.
    ghost goes_on: { Self → TableId → Type 0 };

    /// Goes on with the bus after an input of this lane.
    fn go_on<W: Walker, R: Wait>(&self, rt: &R, post: &Post<W>, lane: u8)
        requires { goes_on self.now post.now.shared };
}

/// Wakes the stepper, and the other threads that can have work.
#[derive(Clone, Copy, Drop)]
pub struct WakeOthers;

impl Next for WakeOthers {
    ghost use Rattle.std.specs.Prelude.{⊤};

    ghost goes_on = { λ _ _. ⊤ };

    fn go_on<W: Walker, R: Wait>(&self, _rt: &R, post: &Post<W>, lane: u8) {
        post.tell_input(Some(lane));
    }
}
