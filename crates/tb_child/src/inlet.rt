//! The inlet of a lane of child programs, which reads their output line by line.
ghost use Rattle.std.specs.Prelude.{◌≡◌, ◌≤◌, length};

use crate::arrivals::{Arrival, Arrivals};
use crate::lines::{Part, Pending, take_part};
use crate::ready::can_read;
use std::alloc::{AllocError, Global};
use std::io::ErrorKind;
use std::process::ChildStdout;
use std::sync::{Arc, Wait};
use tb_edge::{Got, Inlet};

/// The time between two looks whether the lane has ended, while the inlet waits for output, in milliseconds.
const LOOK_MILLIS: i32 = 100;

/// The inlet of a lane of child programs. It gives the lines that the programs write to their standard output. At the end of a
/// program's output, it gives `End` once, whatever the program does afterwards. For each failed start, it gives `End` too. After the
/// end of the lane, it gives `Over`.
#[derive(Drop)]
pub struct ChildInlet<R> {
    rt: R,
    arrivals: Arc<Arrivals>,
    source: Option<ChildStdout>,
    pending: Pending,
    /// The output has ended after a line that was given.
    has_ended: bool,
    faults: u64,
}

impl<R: Wait + Copy + Drop> Inlet for ChildInlet<R> {
    ghost use Rattle.std.specs.Prelude.{None};

    ghost faults = { λ inlet. inlet.faults };

    ghost told = { λ _. None };

    fn next(&mut self, line: &mut Vec<u8>) -> Got {
        line.clear();
        if self.arrivals.is_closed() {
            return Got::Over;
        }
        if self.has_ended {
            self.has_ended = false;
            return Got::End;
        }
        let got = self.next_line(line);
        if got == Got::Failed {
            self.faults = self.faults.saturating_add(1);
        }
        got
    }
}

impl<R: Wait + Copy + Drop> ChildInlet<R> {
    pub(crate) fn new(
        alloc: Global,
        rt: R,
        arrivals: Arc<Arrivals>,
    ) -> Result<ChildInlet<R>, AllocError> {
        Ok(ChildInlet {
            rt,
            arrivals,
            source: None,
            pending: Pending::new(alloc)?,
            has_ended: false,
            faults: 0,
        })
    }

    /// Reads until there is an answer.
    fn next_line(&mut self, line: &mut Vec<u8>) -> Got
        requires { length line.old.items ≤ 65536 }
        ensures short { length line.new.items ≤ 65536 }
        ensures faults { self.new.faults ≡ self.old.faults }
    {
        let mut is_long = false;
        let rt = self.rt;
        for _ in rt.forever() {
            match self.go_on(line, &mut is_long) {
                Some(got) => return got,
                None => {}
            }
        }
        unreachable!()
    }

    /// Takes bytes that were read. If there are none, reads more, or waits for the next program.
    fn go_on(&mut self, line: &mut Vec<u8>, is_long: &mut bool) -> Option<Got>
        requires { length line.old.items ≤ 65536 }
        ensures short { length line.new.items ≤ 65536 }
        ensures faults { self.new.faults ≡ self.old.faults }
    {
        if !self.pending.is_empty() {
            return match take_part(&mut self.pending, line, is_long) {
                Ok(Part::Whole) => Some(line_or_long(*is_long)),
                Ok(Part::Open) => None,
                Err(_) => Some(Got::NoMemory),
            };
        }
        match self.source.take() {
            Some(source) => self.read_more(source, line.is_empty(), *is_long),
            None => self.next_program(),
        }
    }

    /// Waits for the next program.
    fn next_program(&mut self) -> Option<Got>
        ensures { self.new.faults ≡ self.old.faults }
    {
        match self.arrivals.next(&self.rt) {
            Some(Arrival::Output(source)) => {
                self.source = Some(source);
                None
            }
            Some(Arrival::Nothing) => Some(Got::End),
            None => Some(Got::Over),
        }
    }

    /// Reads more of a program's output. A line may have begun.
    fn read_more(&mut self, source: ChildStdout, is_empty: bool, is_long: bool) -> Option<Got>
        ensures { self.new.faults ≡ self.old.faults }
    {
        let mut source = source;
        if self.arrivals.is_closed() {
            self.source = Some(source);
            return Some(Got::Over);
        }
        if !can_read(&source, LOOK_MILLIS) {
            self.source = Some(source);
            return None;
        }
        match self.pending.fill(&mut source) {
            Ok(0) if is_empty && !is_long => Some(Got::End),
            Ok(0) => {
                self.has_ended = true;
                Some(line_or_long(is_long))
            }
            Ok(_) => {
                self.source = Some(source);
                None
            }
            Err(fault) if fault.kind() == ErrorKind::Interrupted => {
                self.source = Some(source);
                None
            }
            Err(_) => Some(Got::Failed),
        }
    }
}

fn line_or_long(is_long: bool) -> Got {
    if is_long { Got::Long } else { Got::Line }
}
