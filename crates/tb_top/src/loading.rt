//! Loads the files of a command.
ghost use Rattle.std.specs.Prelude.{◌≡◌, ◌≤◌, [], ◌∷◌, Some, IfOk, IfErr, Err};
ghost use Rattle.tb_edge.specs.Faults.{Rose};
ghost use Rattle.tb_feed.specs.Feeds.{IsFeedOf};
ghost use Rattle.tb_script.specs.Findings.{IsFound, Program'};
ghost use Rattle.tb_load.specs.Loading.{HasProgram, IsLoadedWithin, IsRefused};
ghost use Rattle.tb_top.specs.Loading.{IsUnloaded};
ghost use Rattle.tb_top.specs.Sim.{IsFed};
ghost use Rattle.tb_top.specs.Verify.{most_log_bytes};
ghost use Rattle.tb_top.specs.Helpers.Parts.{AsksFor, AsksForFeed, IsBadFeed, IsLogUnread};
ghost use Rattle.tb_top.specs.Helpers.Parts.{IsRefusedBy, IsUnread};

use crate::fault::Fault;
use crate::status::LogWrong;
use std::alloc::Global;
use tb_body::Program;
use tb_edge::{Bytes, Files, FilesFault, Loaded};
use tb_feed::{Feed, FeedFault, read_feed};
use tb_load::{LoadFault, MOST_BYTES};
use tb_script::{ScriptFault, load};
use tb_terms::Text;

/// The largest size of a log that is accepted, in bytes.
const MOST_LOG_BYTES: usize = 67_108_864;

/// Loads the program of the script in the file with this name.
pub fn load_script<F: Files>(alloc: Global, name: &str, files: &mut F) -> Result<Program, Fault>
    ensures ok { IfOk result (HasProgram (F.held files.old name.now)) }
    ensures err { IfErr result (IsUnloaded (F.held files.old name.now)) }
    ensures asks { AsksFor (name.now ∷ []) (F.asked files.old) (F.asked files.new) result }
    ensures held_stays { F.held files.new ≡ F.held files.old }
    ensures rose { result ≡ Err Fault.File → Rose (F.faults files.old) (F.faults files.new) }
    ensures never_falls { F.faults files.old ≤ F.faults files.new }
{
    match tb_load::load_script(alloc, name, files) {
        Ok(program) => Ok(program),
        Err(LoadFault::Script(fault)) => Err(Fault::Script(fault)),
        Err(LoadFault::File) => Err(Fault::File),
        Err(LoadFault::NoMemory) => Err(Fault::NoMemory),
    }
}

/// Returns the program of the script with these bytes.
pub fn load_bytes(alloc: Global, bytes: &[u8]) -> Result<Program, Fault>
    ensures ok { IfOk result (λ program. IsFound bytes.now (Program' program)) }
    ensures err { IfErr result (IsRefusedBy bytes.now) }
{
    match load(alloc, bytes) {
        Ok(program) => Ok(program),
        Err(ScriptFault::NoMemory) => Err(Fault::NoMemory),
        Err(fault) => Err(Fault::Script(fault)),
    }
}

/// Loads the feed in the file with this name. If there is no name, returns an empty feed.
pub fn load_feed<F: Files>(alloc: Global, name: &Option<Text>, files: &mut F) -> Result<Feed, Fault>
    ensures ok { IfOk result (IsFed (F.held files.old) name.now) }
    ensures err { IfErr result (IsUnread (F.held files.old) name.now) }
    ensures asks { AsksForFeed name.now (F.asked files.old) (F.asked files.new) result }
    ensures rose { result ≡ Err Fault.File → Rose (F.faults files.old) (F.faults files.new) }
    ensures never_falls { F.faults files.old ≤ F.faults files.new }
{
    match name {
        Some(name) => load_feed_of(alloc, name.as_str(), files),
        None => Ok(Feed::empty(alloc)),
    }
}

/// Loads the feed in the file with this name.
fn load_feed_of<F: Files>(alloc: Global, name: &str, files: &mut F) -> Result<Feed, Fault>
    ensures ok { IfOk result (IsFed (F.held files.old) (Some name.now)) }
    ensures err { IfErr result (IsUnread (F.held files.old) (Some name.now)) }
    ensures asks { AsksFor (name.now ∷ []) (F.asked files.old) (F.asked files.new) result }
    ensures rose { result ≡ Err Fault.File → Rose (F.faults files.old) (F.faults files.new) }
    ensures never_falls { F.faults files.old ≤ F.faults files.new }
{
    match files.load(alloc, name, MOST_BYTES) {
        Ok(Loaded::Bytes(bytes)) => read_bytes(alloc, bytes.as_slice()),
        Ok(Loaded::TooLong(len)) => Err(Fault::Feed(FeedFault::TooLong(len))),
        Err(FilesFault::Failed) => Err(Fault::File),
        Err(FilesFault::NoMemory) => Err(Fault::NoMemory),
    }
}

/// Returns the feed with these bytes.
fn read_bytes(alloc: Global, bytes: &[u8]) -> Result<Feed, Fault>
    ensures ok { IfOk result (IsFeedOf bytes.now) }
    ensures err { IfErr result (IsBadFeed bytes.now) }
{
    match read_feed(alloc, bytes) {
        Ok(feed) => Ok(feed),
        Err(FeedFault::NoMemory) => Err(Fault::NoMemory),
        Err(fault) => Err(Fault::Feed(fault)),
    }
}

/// Loads the bytes of the log in the file with this name.
pub fn load_log<F: Files>(alloc: Global, name: &str, files: &mut F) -> Result<Bytes, Fault>
    ensures ok { IfOk result (IsLoadedWithin most_log_bytes (F.held files.old name.now)) }
    ensures err { IfErr result (IsLogUnread (F.held files.old name.now)) }
    ensures asks { AsksFor (name.now ∷ []) (F.asked files.old) (F.asked files.new) result }
    ensures rose { result ≡ Err Fault.File → Rose (F.faults files.old) (F.faults files.new) }
    ensures never_falls { F.faults files.old ≤ F.faults files.new }
{
    match files.load(alloc, name, MOST_LOG_BYTES) {
        Ok(Loaded::Bytes(bytes)) => Ok(bytes),
        Ok(Loaded::TooLong(len)) => Err(Fault::Log(LogWrong::TooLong(len))),
        Err(FilesFault::Failed) => Err(Fault::File),
        Err(FilesFault::NoMemory) => Err(Fault::NoMemory),
    }
}
