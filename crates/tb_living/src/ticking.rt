//! A tick for all running processes.
ghost use Rattle.std.specs.List.{All};
ghost use Rattle.tb_living.specs.Ticking.{AreTicked, CanTick, HasTicked, IsBefore};

use tb_process_steps::Walker;
use tb_search::{Apart, Living};
use tb_terms::Items;

/// Makes a process one tick older. If the process is timed, it isn't fresh afterwards, so `look` must compute its actions again.
fn tick_one<W: Walker>(plan: &W::Plan, living: &mut Living<W>)
    requires { IsBefore W.view plan.now living.old }
    ensures { HasTicked W.view plan.now living.old living.new }
{
    living.walker.tick(plan);
    living.fresh = living.fresh && !living.timed;
}

/// Makes each process one tick older, by the plan of its body. This takes no memory.
pub fn tick_all<W: Walker>(plans: &Items<W::Plan>, all: &mut Vec<Apart<Living<W>>>)
    requires { All (CanTick W.view plans.now) all.old.items }
    ensures { AreTicked W.view plans.now all.old.items all.new.items }
{
    for living in all.iter_mut() {
        let living = living.get_mut();
        tick_one(&plans.as_slice()[living.body as usize], living);
    }
}
