//! The program: its arguments, and the call of the command that they request.

use crate::at::tell_at;
use crate::chart::tell_chart;
use crate::chart_words::{chart_command, chart_request};
use crate::feed::tell_feed;
use crate::plain::tell_plain;
use crate::source::Source;
use crate::status::{Status, Trouble};
use crate::why::{WhyRequest, tell_why, why_command};
use clap::error::ErrorKind;
use clap::{Arg, ArgAction, Command, Error};
use std::alloc::{AllocError, Global};
use tb_edge::{Failed, Files, Sink};

/// Executes the command that the arguments request. The first argument is the name of the program. Results are written to `out`. If the
/// command fails, the reason is written to `err`.
pub fn lens<F: Files, I: Source, O: Sink, E: Sink>(
    alloc: Global,
    words: &[String],
    files: &mut F,
    input: &mut I,
    out: &mut O,
    err: &mut E,
) -> Status {
    match answer(alloc, words, files, input, out, err) {
        Ok(status) => status,
        Err(trouble) => report(&trouble, err),
    }
}

/// Returns the commands, as `clap` reads them.
fn commands<'a>(alloc: Global) -> Result<Command<'a>, AllocError> {
    Command::new(alloc, "toolbus_lens")
        .version("1.0")
        .about("Shows where a script is wrong, and what a bus waits for")
        .subcommand_required(true)
        .subcommand(at_command(alloc)?)?
        .subcommand(chart_command(alloc)?)?
        .subcommand(why_command(alloc)?)?
        .subcommand(plain_command(alloc)?)?
        .subcommand(feed_command(alloc)?)
}

fn at_command<'a>(alloc: Global) -> Result<Command<'a>, AllocError> {
    let scripts = Arg::new(alloc, "SCRIPT")
        .required(true)
        .action(ArgAction::Append)
        .num_args(1..)
        .help("The file of a script");
    Command::new(alloc, "at")
        .about("Tells what is wrong with scripts, and where")
        .arg(scripts)
}

fn plain_command<'a>(alloc: Global) -> Result<Command<'a>, AllocError> {
    let script = Arg::new(alloc, "SCRIPT")
        .required(true)
        .help("The file of a script");
    Command::new(alloc, "plain")
        .about("Reads a log from the standard input, and writes it for people")
        .arg(script)
}

fn feed_command<'a>(alloc: Global) -> Result<Command<'a>, AllocError> {
    let log = Arg::new(alloc, "LOG")
        .required(true)
        .help("The file of a log");
    Command::new(alloc, "feed")
        .about("Writes the feed that delivers again what came in")
        .arg(log)
}

fn answer<F: Files, I: Source, O: Sink, E: Sink>(
    alloc: Global,
    words: &[String],
    files: &mut F,
    input: &mut I,
    out: &mut O,
    err: &mut E,
) -> Result<Status, Trouble> {
    let matches = match commands(alloc)?.try_get_matches_from(words) {
        Ok(matches) => matches,
        Err(error) => return tell_usage(alloc, &error, out, err),
    };
    match matches.subcommand() {
        Some(("at", asked)) => tell_at(alloc, asked.get_strs("SCRIPT").unwrap_or(&[]), files, out),
        Some(("why", asked)) => {
            let request = WhyRequest {
                script: asked.get_str("SCRIPT").unwrap_or(""),
                log: asked.get_str("LOG").unwrap_or(""),
                commands: asked.get_strs("connect").unwrap_or(&[]),
            };
            tell_why(alloc, &request, files, out, err)
        }
        Some(("plain", asked)) => {
            let script = asked.get_str("SCRIPT").unwrap_or("");
            tell_plain(alloc, script, files, input, out)
        }
        Some(("feed", asked)) => {
            tell_feed(alloc, asked.get_str("LOG").unwrap_or(""), files, out)
        }
        Some(("chart", asked)) => tell_chart(alloc, &chart_request(asked), files, out, err),
        _ => Err(Trouble::NoMemory),
    }
}

/// Writes the help or the version to `out`, or an error of the arguments to `err`.
fn tell_usage<O: Sink, E: Sink>(
    alloc: Global,
    error: &Error,
    out: &mut O,
    err: &mut E,
) -> Result<Status, Trouble> {
    if error.kind() == ErrorKind::OutOfMemory {
        return Err(Trouble::NoMemory);
    }
    let text = format!(in alloc; "{error}")?;
    if error.use_stderr() {
        let _ = err.put(text.as_bytes());
        return Ok(Status::Trouble);
    }
    match out.put(text.as_bytes()) {
        Ok(()) => Ok(Status::Fine),
        Err(Failed) => Err(Trouble::Out),
    }
}

/// Writes the reason why the command failed. An error of this write is ignored.
fn report<E: Sink>(trouble: &Trouble, err: &mut E) -> Status {
    let _ = err.put(b"toolbus_lens: ");
    let _ = match trouble {
        Trouble::File(name) => put_named(b"can't read ", name.as_str(), err),
        Trouble::TooLong(name) => put_named(b"too long: ", name.as_str(), err),
        Trouble::Script(name) => {
            put_named(
                b"the script is rejected: see toolbus_lens at ",
                name.as_str(),
                err,
            )
        }
        Trouble::Connect => err.put(b"at most 16 commands can be connected, and each is a text"),
        Trouble::Input => err.put(b"can't read the standard input"),
        Trouble::Out => err.put(b"can't write to the standard output"),
        Trouble::NoMemory => err.put(b"out of memory"),
    };
    let _ = err.put(b"\n");
    Status::Trouble
}

/// Writes a text with a name after it.
fn put_named<E: Sink>(before: &[u8], name: &str, err: &mut E) -> Result<(), Failed> {
    err.put(before)?;
    err.put(name.as_bytes())
}
