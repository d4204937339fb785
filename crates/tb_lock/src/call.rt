//! The calls of a core that may log an entry, behind one trait.
ghost use Rattle.tb_lock.specs.Calls.{IsCallInShape};
ghost use Rattle.tb_lock.specs.Helpers.Plays.{Answers};

use tb_core::{Core, CoreFault, Stepped, TakeOut};
use tb_log::{Input, Reply};
use tb_process_steps::Walker;

/// A call that a handle makes in its turn.
pub(crate) trait CoreCall<W: Walker> {
    ghost use Rattle.tb_core.specs.Cores.{Call, CoreState};

    /// The answer of the call.
    type Answer;

    /// The call, as specifications name it.
    ghost call: { Self → Call };

    /// The correct answers on a core in a given state.
    ghost finds: { Self → CoreState → Self.Answer → Type 0 };

    /// Makes the call on a core.
    fn make(self, core: &mut Core<W>) -> Result<Self::Answer, CoreFault>
        requires { IsCallInShape (call self) }
        ensures { Answers (finds self) (call self) core.old core.new result };
}

/// The call that delivers an input.
#[derive(Drop)]
pub(crate) struct HandingIn {
    pub(crate) input: Input,
}

impl<W: Walker> CoreCall<W> for HandingIn {
    ghost use Rattle.tb_core.specs.Cores.{HandIn};
    ghost use Rattle.tb_lock.specs.Calls.{IsReply};

    type Answer = Reply;

    ghost call = { λ it. HandIn it.input };

    ghost finds = { λ it. IsReply it.input };

    fn make(self, core: &mut Core<W>) -> Result<Reply, CoreFault> {
        core.hand_in(self.input)
    }
}

/// The call that takes a step.
#[derive(Drop)]
pub(crate) struct Stepping;

impl<W: Walker> CoreCall<W> for Stepping {
    ghost use Rattle.tb_core.specs.Cores.{MakeStep, IsStep};

    type Answer = Stepped;

    ghost call = { λ _. MakeStep };

    ghost finds = { λ _. IsStep };

    fn make(self, core: &mut Core<W>) -> Result<Stepped, CoreFault> {
        core.step()
    }
}

/// The call that takes the next item queued on a lane.
#[derive(Drop)]
pub(crate) struct TakingOut {
    pub(crate) lane: u8,
}

impl<W: Walker> CoreCall<W> for TakingOut {
    ghost use Rattle.tb_core.specs.Cores.{HandOut};
    ghost use Rattle.tb_lock.specs.Calls.{IsTaken};

    type Answer = TakeOut;

    ghost call = { λ it. HandOut it.lane };

    ghost finds = { λ it. IsTaken it.lane };

    fn make(self, core: &mut Core<W>) -> Result<TakeOut, CoreFault> {
        core.take_out(self.lane)
    }
}
