//! The calls that make lanes of child programs.
ghost use Rattle.std.specs.Prelude.{◌≡◌, IfOk, vec_len};

use crate::arrivals::Arrivals;
use crate::inlet::ChildInlet;
use crate::outlet::ChildOutlet;
use std::alloc::{AllocError, Global};
use std::process::{Processes, SystemProcess};
use std::sync::{Arc, Wait};
use std::time::Clock;

/// The two ends of a lane whose tools are child programs.
#[derive(Drop)]
pub struct ChildPair<R> {
    pub inlet: ChildInlet<R>,
    pub outlet: ChildOutlet<R>,
}

/// Makes a lane without a program. Each end keeps a copy of the runtime.
pub fn child_pair<R: Processes<Started = SystemProcess> + Wait + Clock + Copy + Drop>(
    alloc: Global,
    rt: R,
) -> Result<ChildPair<R>, AllocError> {
    let arrivals = Arc::new(alloc, Arrivals::new(alloc)?)?;
    let others = Arc::try_clone(&arrivals)?;
    Ok(ChildPair {
        inlet: ChildInlet::new(alloc, rt, arrivals)?,
        outlet: ChildOutlet::new(alloc, rt, others),
    })
}

/// Makes `n` lanes without programs.
pub fn child_lanes<R: Processes<Started = SystemProcess> + Wait + Clock + Copy + Drop>(
    alloc: Global,
    rt: R,
    n: usize,
) -> Result<Vec<ChildPair<R>>, AllocError>
    ensures { IfOk result (λ lanes. vec_len lanes ≡ n) }
{
    let mut lanes = Vec::with_capacity(alloc, n)?;
    for _made in 0..n {
        lanes.push(child_pair(alloc, rt)?)?;
    }
    Ok(lanes)
}
