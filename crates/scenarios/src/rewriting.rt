//! A second simulation with rewriters. The walkers of the program are walks.

use crate::case::Case;
use std::alloc::Global;
use tb_body::Program;
use tb_cli::{Command, read_words};
use tb_core::Core;
use tb_feed::{Feed, read_feed};
use tb_log::write_seen;
use tb_process_steps::Rewriter;
use tb_script::load;
use tb_sim::simulate;
use tb_terms::{NoMemory, Text, Texts};

/// Returns the command that the case's arguments ask for, or an empty text if the arguments are rejected.
pub(crate) fn asked(alloc: Global, case: &Case) -> Result<String, NoMemory> {
    match read_words(alloc, &case.words) {
        Ok(command) => command_text(alloc, &command),
        Err(_) => Ok(String::new(alloc)),
    }
}

fn command_text(alloc: Global, command: &Command) -> Result<String, NoMemory> {
    match command {
        Command::Check { script } => Ok(format!(in alloc; "check {}", script.as_str())?),
        Command::Sim {
            script,
            feed,
            connects,
            steps,
            events,
        } => {
            let mut text = sim_text(alloc, script, feed, connects)?;
            write!(text, ", {steps} steps, {events} entries")?;
            Ok(text)
        }
        Command::Run {
            script,
            connects,
            ticks,
            events,
        } => {
            let mut text = format!(in alloc; "run {}", script.as_str())?;
            write_connects(connects, &mut text)?;
            write!(text, ", {ticks} ticks, {events} entries")?;
            Ok(text)
        }
        Command::Verify {
            script,
            log,
            connects,
        } => {
            let mut text = format!(in alloc; "verify {}, log {}", script.as_str(), log.as_str())?;
            write_connects(connects, &mut text)?;
            Ok(text)
        }
        Command::Iface { script, tool } => {
            Ok(format!(in alloc; "iface {}, tool {}", script.as_str(), tool.as_str())?)
        }
        Command::Ring { n, k } => Ok(format!(in alloc; "ring {n} {k}")?),
    }
}

/// Returns the part of a simulation's text that has the names of files and the commands.
fn sim_text(
    alloc: Global,
    script: &Text,
    feed: &Option<Text>,
    connects: &Texts,
) -> Result<String, NoMemory> {
    let mut text = format!(in alloc; "sim {}", script.as_str())?;
    if let Some(feed) = feed {
        write!(text, ", feed {}", feed.as_str())?;
    }
    write_connects(connects, &mut text)?;
    Ok(text)
}

fn write_connects(connects: &Texts, text: &mut String) -> Result<(), NoMemory> {
    for command in connects.as_slice() {
        write!(text, ", connect {}", command.as_str())?;
    }
    Ok(())
}

/// The input of a simulation, except its program.
#[derive(Drop)]
struct Course<'a> {
    feed: &'a Feed,
    connects: &'a Texts,
    steps: u64,
    events: u32,
}

/// Returns the log of the simulation that the case's arguments ask for, with rewriters. Returns `None` if they ask for no simulation, or if
/// the arguments, the script, or the feed are missing or rejected.
pub(crate) fn rewritten(alloc: Global, case: &Case) -> Result<Option<Vec<u8>>, NoMemory> {
    match read_words(alloc, &case.words) {
        Ok(command) => simulated(alloc, case, &command),
        Err(_) => Ok(None),
    }
}

fn simulated(alloc: Global, case: &Case, command: &Command) -> Result<Option<Vec<u8>>, NoMemory> {
    match command {
        Command::Sim {
            script,
            feed,
            connects,
            steps,
            events,
        } => {
            let Some(feed) = feed_of(alloc, case, feed) else {
                return Ok(None);
            };
            let course = Course {
                feed: &feed,
                connects,
                steps: *steps,
                events: *events,
            };
            log_of(alloc, case.held(script.as_str()), &course)
        }
        _ => Ok(None),
    }
}

fn feed_of(alloc: Global, case: &Case, name: &Option<Text>) -> Option<Feed> {
    match name {
        Some(name) => read_feed(alloc, case.held(name.as_str())?).ok(),
        None => Some(Feed::empty(alloc)),
    }
}

fn log_of(
    alloc: Global,
    script: Option<&[u8]>,
    course: &Course,
) -> Result<Option<Vec<u8>>, NoMemory> {
    let Some(script) = script else {
        return Ok(None);
    };
    match load(alloc, script) {
        Ok(program) => log_over(alloc, program, course),
        Err(_) => Ok(None),
    }
}

fn log_over(alloc: Global, program: Program, course: &Course) -> Result<Option<Vec<u8>>, NoMemory> {
    if course.connects.len() > 16 || course.events > 4_000_000 {
        return Ok(None);
    }
    let mut core: Core<Rewriter> = Core::start(alloc, program, course.connects, course.events)?;
    let _end = simulate(&mut core, course.feed, course.steps)?;
    Ok(Some(log_text(alloc, &core)?))
}

fn log_text(alloc: Global, core: &Core<Rewriter>) -> Result<Vec<u8>, NoMemory> {
    let mut text = Vec::new(alloc);
    let log = core.log();
    for at in 0..log.len() {
        write_seen(at as u64 + 1, &log.at(at), &mut text)?;
    }
    Ok(text)
}
