//! How a command becomes a program that runs.

use std::alloc::Global;
use std::io;
use std::process::{Child, Command, Processes, Stdio, SystemProcess};

/// Starts the program of a command. The command is split on whitespace: the first part is the program, and the others are its
/// arguments. The program's input and output are pipes. Its standard error is that of the bus.
pub fn start<R: Processes<Started = SystemProcess>>(
    rt: &R,
    alloc: Global,
    command: &str,
) -> io::Result<Child<SystemProcess>> {
    let mut words = command.split_ascii_whitespace();
    let Some(program) = words.next() else {
        return Err(io::Error::from(io::ErrorKind::NotFound));
    };
    let mut starting = Command::new(alloc, program)?;
    for word in words {
        starting.arg(word)?;
    }
    starting.stdin(Stdio::piped()).stdout(Stdio::piped());
    starting.spawn(rt)
}
