//! A sink over a writer.
ghost use Rattle.std.specs.Prelude.{◌≡◌, ◌<◌, ◌≤◌, [], None, IsTrue, IfSome, IsOk, OnOk, OnErr, is_ok, length, take, if◌then◌else◌};
ghost use Rattle.std.specs.Bool.{OnTrue};
ghost use Rattle.std.specs.Io.KnownBytes.{Appends};
ghost use Rattle.tb_edge.specs.Faults.{risen};
ghost use Rattle.tb_edge.specs.Sinks.{WritesPrefix};

use crate::{Failed, Sink};
use std::io::{ErrorKind, Write};
use std::marker::Model;

/// A sink over a writer. The sink doesn't report the bytes that it took.
#[derive(Drop)]
pub struct RealSink<W> {
    writer: W,
    faults: u64,
}

impl<W> Model for RealSink<W> {
    ghost use Rattle.tb_edge.specs.RealForms.{RealSinkView};

    ghost Value = { RealSinkView W };

    ghost view = { λ sink. record { writer = sink.writer; faults = sink.faults } };
}

impl<W> RealSink<W> {
    pub fn new(writer: W) -> RealSink<W>
        ensures { result ≡ record { writer = writer; faults = 0 } }
    {
        RealSink { writer, faults: 0 }
    }

    pub fn into_inner(self) -> W
        ensures { result ≡ self.writer }
    {
        let RealSink { writer, faults: _ } = self;
        writer
    }

    /// Returns the number of failed calls so far.
    pub fn faults(&self) -> u64
        ensures { result ≡ self.now.faults }
    {
        self.faults
    }
}

impl<W: Write> Sink for RealSink<W> {
    ghost use Rattle.std.specs.Prelude.{None};

    ghost faults = { λ sink. sink.faults };

    ghost taken = { λ _. None };

    fn put(&mut self, piece: &[u8]) -> Result<(), Failed>
        ensures prefix { OnErr result (WritesPrefix None None piece.now) }
        ensures never_falls { self.old.faults ≤ self.new.faults }
        ensures empty_ok { piece.now ≡ [] → IsOk result }
        ensures counted { self.new.faults
            ≡ (if is_ok result then self.old.faults else risen self.old.faults) }

        // If the writer reports its contents, the piece was appended to them.
        ensures written { OnOk result
            (Appends (W.contents self.old.writer) (W.contents self.new.writer) piece.now) }
    {
        if write_whole(&mut self.writer, piece) {
            return Ok(());
        }
        self.faults = self.faults.saturating_add(1);
        Err(Failed)
    }
}

/// Writes the piece, and returns whether the whole piece was written.
fn write_whole<W: Write>(writer: &mut W, piece: &[u8]) -> bool
    ensures whole { OnTrue result
        (Appends (W.contents writer.old) (W.contents writer.new) piece.now) }
    ensures empty { piece.now ≡ [] → IsTrue result }
{
    let mut rest = piece;
    while !rest.is_empty() {
        match write_some(writer, rest) {
            Some(count) => rest = &rest[count..],
            None => return false,
        }
    }
    true
}

/// Writes a prefix of the piece, and returns its length. If the writer takes nothing, returns `None`.
fn write_some<W: Write>(writer: &mut W, piece: &[u8]) -> Option<usize>
    ensures some { IfSome result (λ count. (0 < count) × (count ≤ length piece.now)) }
    ensures prefix { IfSome result
        (λ count. Appends (W.contents writer.old) (W.contents writer.new) (take count piece.now)) }
{
    for _ in 0..u64::MAX {
        match writer.write(piece) {
            Ok(0) => return None,
            Ok(count) => return Some(count),
            Err(error) if error.kind() == ErrorKind::Interrupted => {}
            Err(_) => return None,
        }
    }
    None
}
