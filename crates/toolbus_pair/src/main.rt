//! The program for a pair: it makes the real files and sinks, the lanes of two buses, the clock, and the thread group. Then it runs the two
//! scripts that the arguments of its command line name.
#![tactic(auto)]

ghost use Rattle.std.specs.Prelude.{vec_len};

use std::process::ExitCode;
use tb_child::{ChildPair, child_lanes, command_words};
use tb_edge::{LanePair, RealClock, RealFiles, RealSink, ThreadCrew};
use tb_pair_top::{PairStatus, pair};

/// How many lanes each bus has.
const LANES: usize = 16;

fn main(rt: HostRuntime) -> ExitCode {
    // The lanes of both buses, until those of the second are split off.
    let (Ok(words), Ok(pairs), Ok(mut first)) = (
        command_words(&rt),
        child_lanes(rt.alloc(), rt, 2 * LANES),
        Vec::with_capacity(rt.alloc(), 2 * LANES),
    ) else {
        return ExitCode::from(PairStatus::NoMemory.number());
    };
    for ChildPair { inlet, outlet } in pairs {
        let (Ok(inlet), Ok(outlet)) = (Box::new(rt.alloc(), inlet), Box::new(rt.alloc(), outlet))
        else {
            return ExitCode::from(PairStatus::NoMemory.number());
        };
        first.push_reserved(LanePair { inlet, outlet });
    }
    let Ok(mut second) = first.split_off(LANES) else {
        return ExitCode::from(PairStatus::NoMemory.number());
    };
    let status = pair(
        &rt,
        rt.alloc(),
        &words,
        &mut RealFiles::new(&rt),
        &mut RealSink::new(rt.stdout()),
        &mut RealSink::new(rt.stderr()),
        &mut first,
        &mut second,
        &mut RealClock::new(rt),
        &mut ThreadCrew::new(),
    );
    ExitCode::from(status.number())
}
