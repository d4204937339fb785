//! The outlet of a lane of child programs, which starts them and writes to their input.
ghost use Rattle.std.specs.Prelude.{◌≡◌, ◌<◌, ◌≤◌, length, IfSome};

use crate::arrivals::{Arrival, Arrivals};
use crate::ready::{can_write, has_room};
use crate::starting::start;
use std::alloc::Global;
use std::io::{ErrorKind, Write};
use std::process::{Child, ChildStdin, Processes, SystemProcess};
use std::sync::{Arc, Wait};
use std::thread;
use std::time::{Clock, Duration};
use tb_edge::{Failed, Outlet};

/// The size of a piece that is written at once, in bytes. A pipe takes a piece of this size whole, or takes nothing.
const PIECE_BYTES: usize = 4_096;

/// The time after which a write without progress has failed, in milliseconds.
const MOST_WRITE_MILLIS: i32 = 10_000;

/// The number of looks at a program before it is killed. With the pause between two looks, they take two seconds.
const GRACE_LOOKS: u32 = 400;

const GRACE_MILLIS: u64 = 5;

/// The outlet of a lane of child programs. It starts the programs, and writes to their standard input.
#[derive(Drop)]
pub struct ChildOutlet<R> {
    rt: R,
    alloc: Global,
    arrivals: Arc<Arrivals>,
    child: Option<Child<SystemProcess>>,
    /// A write has failed, so nothing more is written to this program.
    is_broken: bool,
    faults: u64,
}

impl<R: Processes<Started = SystemProcess> + Wait + Clock + Copy + Drop> Outlet for ChildOutlet<R> {
    ghost use Rattle.std.specs.Prelude.{None};

    ghost faults = { λ outlet. outlet.faults };

    ghost told = { λ _. None };

    fn begin(&mut self, command: &str) -> Result<(), Failed> {
        self.end_program();
        if self.start_program(command) {
            return Ok(());
        }
        self.faults = self.faults.saturating_add(1);
        Err(Failed)
    }

    fn line(&mut self, bytes: &[u8]) -> Result<(), Failed> {
        if self.write_line(bytes) {
            return Ok(());
        }
        self.is_broken = true;
        self.faults = self.faults.saturating_add(1);
        Err(Failed)
    }

    fn can_take_line(&self) -> bool {
        match &self.child {
            Some(child) => match &child.stdin {
                Some(input) => has_room(input),
                None => false,
            },
            None => false,
        }
    }

    fn end(&mut self) {
        if let Some(child) = &mut self.child {
            child.stdin = None;
        }
    }

    fn close(&mut self) {
        self.arrivals.close(&self.rt);
        self.end_program();
    }
}

impl<R: Processes<Started = SystemProcess> + Wait + Clock + Copy + Drop> ChildOutlet<R> {
    pub(crate) fn new(alloc: Global, rt: R, arrivals: Arc<Arrivals>) -> ChildOutlet<R> {
        ChildOutlet {
            rt,
            alloc,
            arrivals,
            child: None,
            is_broken: false,
            faults: 0,
        }
    }

    /// Starts a program, and passes its output to the inlet. Returns whether the program was started.
    fn start_program(&mut self, command: &str) -> bool
        ensures { self.new.faults ≡ self.old.faults }
    {
        match start(&self.rt, self.alloc, command) {
            Ok(child) => self.take_program(child),
            Err(_) => {
                self.arrivals.push(&self.rt, Arrival::Nothing);
                false
            }
        }
    }

    fn take_program(&mut self, child: Child<SystemProcess>) -> bool
        ensures { self.new.faults ≡ self.old.faults }
    {
        let mut child = child;
        let Some(output) = child.stdout.take() else {
            return false;
        };
        let is_taken = self.arrivals.push(&self.rt, Arrival::Output(output));
        self.child = Some(child);
        self.is_broken = !is_taken;
        is_taken
    }

    /// Writes a line and its newline. Returns whether the program took the whole line.
    fn write_line(&mut self, bytes: &[u8]) -> bool
        ensures { self.new.faults ≡ self.old.faults }
    {
        if self.is_broken {
            return false;
        }
        match &mut self.child {
            Some(child) => match &mut child.stdin {
                Some(input) => put_line(input, bytes),
                None => false,
            },
            None => false,
        }
    }

    /// Closes the input of the current program. If the program doesn't end within two seconds, kills it.
    fn end_program(&mut self)
        ensures { self.new.faults ≡ self.old.faults }
    {
        let Some(mut child) = self.child.take() else {
            return;
        };
        child.stdin = None;
        if !has_ended(&self.rt, &mut child) {
            let _ = child.kill();
        }
        let _ = child.wait();
    }
}

/// Returns whether the program ends by itself within two seconds.
fn has_ended<R: Clock>(rt: &R, child: &mut Child<SystemProcess>) -> bool {
    for _ in 0..GRACE_LOOKS {
        match child.try_wait() {
            Ok(None) => thread::sleep(rt, Duration::from_millis(GRACE_MILLIS)),
            Ok(Some(_)) => return true,
            Err(_) => return false,
        }
    }
    false
}

fn put_line(input: &mut ChildStdin, bytes: &[u8]) -> bool {
    if bytes.len() < PIECE_BYTES {
        return put_short(input, bytes);
    }
    put_all(input, bytes) && put_all(input, b"\n")
}

/// Writes a line that fits into one piece with its newline.
fn put_short(input: &mut ChildStdin, bytes: &[u8]) -> bool
    requires { length bytes.now < 4096 }
{
    let mut piece = [0; PIECE_BYTES];
    let (line, rest) = piece.split_at_mut(bytes.len());
    line.copy_from_slice(bytes);
    rest[0] = b'\n';
    put_all(input, &piece[..bytes.len() + 1])
}

/// Writes all bytes, piece by piece.
fn put_all(input: &mut ChildStdin, bytes: &[u8]) -> bool {
    let mut rest = bytes;
    for _ in 0..u64::MAX {
        if rest.is_empty() {
            return true;
        }
        match put_some(input, rest) {
            Some(count) => rest = &rest[count..],
            None => return false,
        }
    }
    false
}

/// Writes some bytes of the next piece, and returns their number. If the program takes nothing, returns `None`.
fn put_some(input: &mut ChildStdin, rest: &[u8]) -> Option<usize>
    requires { 0 < length rest.now }
    ensures { IfSome result (λ count. (0 < count) × (count ≤ length rest.now)) }
{
    let piece = &rest[..rest.len().min(PIECE_BYTES)];
    for _ in 0..u64::MAX {
        if !can_write(input, MOST_WRITE_MILLIS) {
            return None;
        }
        match input.write(piece) {
            Ok(0) => return None,
            Ok(count) => return Some(count),
            Err(fault) if fault.kind() == ErrorKind::Interrupted => {}
            Err(_) => return None,
        }
    }
    None
}
