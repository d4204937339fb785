//! The command `why`: what each process waits for at the end of a log.
ghost use Rattle.std.specs.Prelude.{◌≤◌, length};
ghost use Rattle.tb_log.specs.Shapes.{lane_count};

use crate::chart_words::{connect_option, file_arg};
use crate::loading::{Loading, connects_of, load_log, load_source, read_script};
use crate::put::put;
use crate::status::{Status, Trouble};
use clap::Command;
use std::alloc::{AllocError, Global};
use tb_edge::{Files, Sink};
use tb_log_plain::Names;
use tb_terms::Texts;
use tb_verify::{Verdict, VerifyFault, verify};
use tb_walk::Walk;
use tb_why::{Ending, WhyFault, why};
use tb_why_text::{Seen, write_waits};

/// The number of lanes.
const LANES: usize = 16;

/// The arguments of `why`.
#[derive(Clone, Copy)]
pub struct WhyRequest<'a> {
    /// The name of the file with the script.
    pub script: &'a str,
    /// The name of the file with the log.
    pub log: &'a str,
    /// The commands with which the bus began, in order.
    pub commands: &'a [&'a str],
}

/// Returns the command `why`, as `clap` reads it.
pub(crate) fn why_command<'a>(alloc: Global) -> Result<Command<'a>, AllocError> {
    Command::new(alloc, "why")
        .about("Tells what each process waits for at the end of a log")
        .arg(file_arg(alloc, "SCRIPT", "The file of a script"))?
        .arg(file_arg(alloc, "LOG", "The file of a log of the script"))?
        .arg(connect_option(alloc))
}

/// Writes what each process waits for at the end of a log. If the log isn't a trace of the script, the call writes the number of the first
/// line that can't come next to `err`, and returns `Found`.
pub fn tell_why<F: Files, O: Sink, E: Sink>(
    alloc: Global,
    request: &WhyRequest,
    files: &mut F,
    out: &mut O,
    err: &mut E,
) -> Result<Status, Trouble> {
    let Some(connects) = connects_of(alloc, request.commands)? else {
        return Err(Trouble::Connect);
    };
    if connects.len() > LANES {
        return Err(Trouble::Connect);
    }
    let source = load_source(alloc, request.script, files)?;
    let log = load_log(alloc, request.log, files)?;
    let Loading { program, names } = read_script(alloc, request.script, source.as_slice())?;
    match why::<Walk>(alloc, program, &connects, log.as_slice()) {
        Ok(ending) => put_waits(alloc, &names, &ending, out),
        Err(WhyFault::NoTrace) => {
            tell_line(
                alloc,
                request,
                source.as_slice(),
                &connects,
                log.as_slice(),
                err,
            )
        }
        Err(WhyFault::Full) => Err(Trouble::TooLong(String::from_str(alloc, request.log)?)),
        Err(WhyFault::NoMemory) => Err(Trouble::NoMemory),
    }
}

fn put_waits<O: Sink>(
    alloc: Global,
    names: &Names,
    ending: &Ending<Walk>,
    out: &mut O,
) -> Result<Status, Trouble> {
    let seen = Seen {
        program: &ending.core.bus().origin.program,
        names,
        standings: ending.standings.as_slice(),
        bench: &ending.core.bus().bench,
        now: ending.ticks,
        no_ticks: ending.core.bus().marks.no_ticks,
        is_down: ending.core.bus().marks.down,
    };
    let mut text = Vec::new(alloc);
    write_waits(alloc, &seen, ending.waiters.as_slice(), &mut text)?;
    put(text.as_slice(), Status::Fine, out)
}

/// Writes the number of the first line of the log that can't come next.
fn tell_line<E: Sink>(
    alloc: Global,
    request: &WhyRequest,
    source: &[u8],
    connects: &Texts,
    log: &[u8],
    err: &mut E,
) -> Result<Status, Trouble>
    requires { length connects.now ≤ lane_count }
{
    let Loading { program, .. } = read_script(alloc, request.script, source)?;
    match verify::<Walk>(alloc, program, connects, log) {
        Ok(Verdict::Line(number)) => {
            let name = request.log;
            let text = format!(in alloc; "{name}:{number}: this line can't come next\n")?;
            let _ = err.put(text.as_bytes());
            Ok(Status::Found)
        }
        Err(VerifyFault::Full) => Err(Trouble::TooLong(String::from_str(alloc, request.log)?)),
        Ok(Verdict::Trace) | Err(VerifyFault::NoMemory) => Err(Trouble::NoMemory),
    }
}
