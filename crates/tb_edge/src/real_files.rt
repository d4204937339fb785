//! The files of the runtime.
ghost use Rattle.std.specs.Prelude.{◌≡◌, ◌+◌, ◌++◌, ◌<◌, ◌≤◌, [], IfOk, length, vec_len, take, nat_le, if◌then◌else◌};
ghost use Rattle.std.specs.Io.KnownBytes.{Consumes, IsAtEnd};
ghost use Rattle.tb_edge.specs.FilesHeld.{IsWithin, IsOf};
ghost use Rattle.tb_edge.specs.RealForms.{real_files_after};

use crate::{Bytes, Files, FilesFault, Loaded};
use sqlite_items::Items;
use std::alloc::{AllocError, Global};
use std::fs;
use std::io::{ErrorKind, Read};
use std::marker::Model;
use std::rt::Files as HostFiles;

const CHUNK: usize = 65536;

/// The files of the runtime. They don't report their contents.
#[derive(Drop)]
pub struct RealFiles<R> {
    rt: R,
    asked: Items<Bytes>,
    faults: u64,
}

impl<R> Model for RealFiles<R> {
    ghost use Rattle.tb_edge.specs.RealForms.{RealFilesView};

    ghost Value = { RealFilesView };

    ghost view = { λ files. record { asked = files.asked; faults = files.faults } };
}

impl<R> RealFiles<R> {
    pub fn new(rt: R) -> RealFiles<R>
    where
        R: AllocGlobal,
        ensures { result ≡ record { asked = []; faults = 0 } }
    {
        let asked = Items::new(rt.alloc());
        RealFiles {
            rt,
            asked,
            faults: 0,
        }
    }

    /// Returns the number of failed calls so far.
    pub fn faults(&self) -> u64
        ensures { result ≡ self.now.faults }
    {
        self.faults
    }
}

impl<R: HostFiles> Files for RealFiles<R> {
    ghost use Rattle.std.specs.Prelude.{None};

    ghost faults = { λ files. files.faults };

    ghost asked = { λ files. files.asked };

    ghost held = { λ _ _. None };

    fn load(&mut self, alloc: Global, name: &str, most: usize) -> Result<Loaded, FilesFault>
        ensures within { IfOk result (IsWithin most) }
        ensures never_falls { self.old.faults ≤ self.new.faults }
        ensures after { self.new ≡ real_files_after result self.old name.now }

        // The result is the unread content of some file of the runtime, if this file reports its unread content.
        ensures opened { IfOk result
            (λ loaded. (file : R.File) × IsOf (R.File.remaining file) loaded) }
    {
        let loaded = match load_named(&self.rt, alloc, name, most) {
            Err(FilesFault::NoMemory) => return Err(FilesFault::NoMemory),
            answer => answer,
        };
        let asked = Bytes::from_slice(alloc, name.as_bytes())?;
        self.asked.push(asked)?;
        if loaded.is_err() {
            self.faults = self.faults.saturating_add(1);
        }
        loaded
    }
}

fn load_named<R: HostFiles>(
    rt: &R,
    alloc: Global,
    name: &str,
    most: usize,
) -> Result<Loaded, FilesFault>
    ensures within { IfOk result (IsWithin most) }

    // The result is the unread content of some file of the runtime, if this file reports its unread content.
    ensures opened { IfOk result (λ loaded. (file : R.File) × IsOf (R.File.remaining file) loaded) }
{
    match fs::open(rt, name) {
        Ok(mut file) => read_all(alloc, &mut file, &mut new_chunk(alloc)?, most),
        Err(_) => Err(FilesFault::Failed),
    }
}

/// Reads to the end of the file in chunks. After `most` bytes, the function only counts bytes.
fn read_all<F: Read>(
    alloc: Global,
    file: &mut F,
    chunk: &mut [u8],
    most: usize,
) -> Result<Loaded, FilesFault>
    requires { 0 < length chunk.old }
    ensures within { IfOk result (IsWithin most) }
    ensures held { IfOk result (IsOf (F.remaining file.old)) }
{
    let mut bytes = Vec::new(alloc);
    let mut len = 0;
    loop {
        match read_some(file, chunk)? {
            0 => return Ok(loaded(bytes, len, most)),
            count => len = keep(&mut bytes, len, &chunk[..count], most)?,
        }
    }
}

fn new_chunk(alloc: Global) -> Result<Vec<u8>, AllocError>
    ensures { IfOk result (λ chunk. 0 < vec_len chunk) }
{
    vec![in alloc; 0u8; CHUNK]
}

/// Fills a prefix of the chunk, and returns its length. At the end of the file, returns 0.
fn read_some<F: Read>(file: &mut F, chunk: &mut [u8]) -> Result<usize, FilesFault>
    ensures within { IfOk result (λ count. count ≤ length chunk.new) }
    ensures given { IfOk result
        (λ count. Consumes (F.remaining file.old) (F.remaining file.new) (take count chunk.new)) }
    ensures end { IfOk result
        (λ count. count ≡ 0 → 0 < length chunk.old → IsAtEnd (F.remaining file.new)) }
{
    for _ in 0..u64::MAX {
        match file.read(chunk) {
            Ok(count) => return Ok(count),
            Err(error) if error.kind() == ErrorKind::Interrupted => {}
            Err(_) => return Err(FilesFault::Failed),
        }
    }
    Err(FilesFault::Failed)
}

/// Counts the bytes of the piece. If there are at most `most` bytes so far, appends the piece. If the count exceeds `usize`, the call
/// fails.
fn keep(bytes: &mut Vec<u8>, len: usize, piece: &[u8], most: usize) -> Result<usize, FilesFault>
    ensures counted { IfOk result (λ new_len. new_len ≡ len + length piece.now) }
    ensures kept { IfOk result
        (λ new_len. new_len ≤ most → bytes.new.items ≡ bytes.old.items ++ piece.now) }
{
    let new_len = len.checked_add(piece.len()).ok_or(FilesFault::Failed)?;
    if new_len <= most {
        bytes.extend_from_slice(piece)?;
    }
    Ok(new_len)
}

fn loaded(bytes: Vec<u8>, len: usize, most: usize) -> Loaded
    ensures { result ≡ (if nat_le len most then Loaded.Bytes bytes.items else Loaded.TooLong len) }
{
    if len <= most {
        return Loaded::Bytes(Items::from_vec(bytes));
    }
    Loaded::TooLong(len)
}
