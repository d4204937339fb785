//! Runs the cases of the files that `index` names with the ToolBus in memory, and prints each case that differs. For benchmarks, `scenarios
//! KIND FILE STEPS` simulates a script with walkers of the kind `rewriter` or `walk`, makes at most `STEPS` steps, and prints the number of
//! entries in the log.
#![tactic(auto)]

mod case;
mod comparing;
mod counting;
mod lanes;
mod live;
mod logged;
mod playing;
mod rewriting;
mod verifying;

use case::Case;
use comparing::difference;
use counting::counted;
use std::rt::Files;
use std::sync::Wait;
use std::thread::Threads;
use std::{env, fs, io};
use tb_cases::Tally;
use tb_terms::NoMemory;

fn main(rt: HostRuntime) -> io::Result<()> {
    let words = words(&rt)?;
    match words.as_slice() {
        [_, kind, path, steps] => print_count(&rt, kind.as_str(), path.as_str(), steps.as_str()),
        _ => run_files(&rt),
    }
}

/// Returns the arguments of the command line, the program's name first.
fn words(rt: &HostRuntime) -> io::Result<Vec<String>> {
    let mut words = Vec::new(rt.alloc());
    for word in env::args(rt)? {
        words.push(word)?;
    }
    Ok(words)
}

fn print_count(rt: &HostRuntime, kind: &str, path: &str, steps: &str) -> io::Result<()> {
    match counted(rt, kind, path, steps) {
        Some(count) => println!(rt; "{count}"),
        None => Err(io::Error::from(io::ErrorKind::InvalidInput)),
    }
}

/// Runs the cases of each file that `index` names.
fn run_files<R: AllocGlobal + Files + Print + Threads + Wait + Sync>(rt: &R) -> io::Result<()> {
    let mut tally = Tally::new();
    let index = fs::read_to_string(rt, "index")?;
    for name in index.lines() {
        run_file(rt, name, &mut tally)?;
    }
    println!(rt; "{} passed, {} failed", tally.passed, tally.failed)
}

/// Runs each case of a file.
fn run_file<R: AllocGlobal + Files + Print + Threads + Wait + Sync>(
    rt: &R,
    file: &str,
    tally: &mut Tally,
) -> io::Result<()> {
    let text = fs::read_to_string(rt, file)?;
    let mut case = Case::new(rt.alloc(), "")?;
    run_lines(rt, file, text.as_str(), &mut case, tally)
}

/// Runs the cases of these lines. The first lines belong to the given case. After the call, `case` is the last case.
fn run_lines<R: AllocGlobal + Files + Print + Threads + Wait + Sync>(
    rt: &R,
    file: &str,
    text: &str,
    case: &mut Case,
    tally: &mut Tally,
) -> io::Result<()> {
    for line in text.lines() {
        if let Some(name) = line.strip_prefix("case ") {
            run_case(rt, file, case, tally)?;
            *case = Case::new(rt.alloc(), name)?;
        } else if !case.take_line(rt.alloc(), line)? {
            println!(rt; "{file}: no line of a case: {line}")?;
            tally.count(false);
        }
    }
    run_case(rt, file, case, tally)
}

/// Runs a case, and prints its first difference. A case without a name holds the lines before the first case, and isn't run.
fn run_case<R: AllocGlobal + Print + Threads + Wait + Sync>(
    rt: &R,
    file: &str,
    case: &Case,
    tally: &mut Tally,
) -> io::Result<()> {
    if case.name.as_str().is_empty() {
        return Ok(());
    }
    match difference(rt, rt.alloc(), case) {
        Ok(None) => tally.count(true),
        Ok(Some(what)) => {
            println!(rt; "{file}: {}: {what}", case.name)?;
            tally.count(false);
        }
        Err(NoMemory) => {
            println!(rt; "{file}: {}: no memory", case.name)?;
            tally.count(false);
        }
    }
    Ok(())
}
