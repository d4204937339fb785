//! The program: it makes the real files, sinks, lanes, clock, and thread group, and calls the ToolBus with the arguments of its command
//! line.
#![tactic(auto)]

ghost use Rattle.std.specs.Prelude.{vec_len};

use std::process::ExitCode;
use tb_child::{ChildPair, child_lanes, command_words};
use tb_edge::{LanePair, RealClock, RealFiles, RealSink, ThreadCrew};
use tb_top::{Status, toolbus};

/// The number of lanes.
const LANES: usize = 16;

fn main(rt: HostRuntime) -> ExitCode {
    let (Ok(words), Ok(pairs), Ok(mut lanes)) = (
        command_words(&rt),
        child_lanes(rt.alloc(), rt, LANES),
        Vec::with_capacity(rt.alloc(), LANES),
    ) else {
        return ExitCode::from(Status::NoMemory.number());
    };
    for ChildPair { inlet, outlet } in pairs {
        let (Ok(inlet), Ok(outlet)) = (Box::new(rt.alloc(), inlet), Box::new(rt.alloc(), outlet))
        else {
            return ExitCode::from(Status::NoMemory.number());
        };
        lanes.push_reserved(LanePair { inlet, outlet });
    }
    let status = toolbus(
        &rt,
        rt.alloc(),
        &words,
        &mut RealFiles::new(&rt),
        &mut RealSink::new(rt.stdout()),
        &mut RealSink::new(rt.stderr()),
        &mut lanes,
        &mut RealClock::new(rt),
        &mut ThreadCrew::new(),
    );
    ExitCode::from(status.number())
}
