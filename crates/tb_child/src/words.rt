//! The arguments of the program's own command line.

use std::env::Env;
use std::io::ErrorKind;
use std::{env, io};

/// Returns the arguments of the command line, without the program's name. If an argument isn't UTF-8, returns one argument in place of
/// all: it is no string of a script and names no command, so the program rejects it.
pub fn command_words<R: Env + AllocGlobal>(rt: &R) -> io::Result<Vec<String>> {
    let mut words = Vec::new(rt.alloc());
    match env::args(rt) {
        Ok(all) => {
            for word in all.skip(1) {
                words.push(word)?;
            }
        }
        Err(fault) if fault.kind() == ErrorKind::InvalidData => {
            words.push(String::from_str(rt.alloc(), "\0")?)?;
        }
        Err(fault) => return Err(fault),
    }
    Ok(words)
}
