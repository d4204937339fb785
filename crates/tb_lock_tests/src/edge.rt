//! Tests of files, sinks, and clocks that never fail, of real files and sinks, and of a clock with a failing call. The clocks can go to
//! another thread.

use sqlite_items::Items;
use std::alloc::Global;
use std::test::Fail;
use tb_edge::{
    Beat, Bytes, Clock, Files, FilesFault, HeldFile, HeldFiles, Loaded, MemClock, RealFiles,
    RealSink, Sink, SureClock, SureFiles, SureSink,
};
use tb_terms::Text;

/// Returns whether a file with exactly these bytes was loaded.
fn has_loaded(answer: Result<Loaded, FilesFault>, wanted: &str) -> bool {
    match answer {
        Ok(Loaded::Bytes(bytes)) => bytes.as_slice() == wanted.as_bytes(),
        _ => false,
    }
}

/// Returns the file `one.tb`, whose content is `one`.
fn one_file(alloc: Global) -> Result<HeldFiles, Fail> {
    let name = Text::from_str(alloc, "one.tb")?.ok_or("no text")?;
    let bytes = Bytes::from_slice(alloc, b"one")?;
    Ok(Items::from_vec(vec![in alloc; HeldFile { name, bytes }]?))
}

/// Checks, in order: a held file is loaded; another file is loaded as an empty one; a sink takes a piece; and both counts of failed calls
/// are equal.
fn never_fail(alloc: Global, files: &mut SureFiles, sink: &mut SureSink) -> [bool; 4] {
    [
        has_loaded(files.load(alloc, "one.tb", 3), "one"),
        has_loaded(files.load(alloc, "none.tb", 0), ""),
        sink.put(b"piece").is_ok(),
        files.faults() == sink.faults(),
    ]
}

#[test]
fn sure_ones(rt: HostRuntime) -> Result<(), Fail> {
    let mut files = SureFiles::new(rt.alloc(), one_file(rt.alloc())?);
    let found = never_fail(rt.alloc(), &mut files, &mut SureSink::new());
    assert_eq!(rt; found, [true; 4]);
    Ok(())
}

/// Checks, in order: loading a missing file fails, and counts as failed; a file without bytes is loaded; the sink takes two pieces without
/// a failed call; and the writer has received both.
fn are_real(rt: HostRuntime) -> [bool; 5] {
    let mut files = RealFiles::new(rt);
    let missing = files.load(rt.alloc(), "/no/such/file.tb", 9);
    let mut sink = RealSink::new(Vec::new(rt.alloc()));
    [
        matches!(missing, Err(FilesFault::Failed)) && files.faults() == 1,
        has_loaded(files.load(rt.alloc(), "/dev/null", 9), ""),
        sink.put(b"one").is_ok(),
        sink.put(b" two").is_ok() && sink.faults() == 0,
        sink.into_inner().as_slice() == b"one two".as_slice(),
    ]
}

#[test]
fn real_ones(rt: HostRuntime) {
    assert_eq!(rt; are_real(rt), [true; 5]);
}

/// Returns whether the clock gives these beats in order.
fn gives<C: Clock + Send>(clock: &mut C, beats: &[Beat]) -> bool {
    for beat in beats {
        if clock.wait() != *beat {
            return false;
        }
    }
    true
}

#[test]
fn clocks(rt: HostRuntime) -> Result<(), Fail> {
    let mut fails = Items::new(rt.alloc());
    fails.push(1)?;
    let mut mem = MemClock::new(1, fails);
    assert!(rt; gives(&mut mem, &[Beat::Failed, Beat::Tick, Beat::End]));
    let mut sure = SureClock::new(1);
    assert!(rt; gives(&mut sure, &[Beat::Tick, Beat::End, Beat::End]));
    Ok(())
}
