//! The program: it makes the real files, input, and sinks, and calls the lens with the arguments of its command line.
#![tactic(auto)]

use std::env;
use std::io::BufReader;
use std::process::ExitCode;
use tb_edge::{RealFiles, RealSink};
use tb_lens::{Reading, Status, lens};

fn main(rt: HostRuntime) -> ExitCode {
    let Ok(all) = env::args(&rt) else {
        return ExitCode::from(Status::Trouble.number());
    };
    let mut words = Vec::new(rt.alloc());
    for word in all {
        if words.push(word).is_err() {
            return ExitCode::from(Status::Trouble.number());
        }
    }
    let mut files = RealFiles::new(&rt);
    let mut out = RealSink::new(rt.stdout());
    let mut err = RealSink::new(rt.stderr());
    let Ok(reader) = BufReader::new(rt.alloc(), rt.stdin()) else {
        return ExitCode::from(Status::Trouble.number());
    };
    let mut input = Reading::new(reader);
    let status = lens(
        rt.alloc(),
        words.as_slice(),
        &mut files,
        &mut input,
        &mut out,
        &mut err,
    );
    ExitCode::from(status.number())
}
