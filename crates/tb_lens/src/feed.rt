//! The command `feed`: the feed with the inputs of a log.
ghost use Rattle.std.specs.Prelude.{◌≡◌, ◌∷◌, ◌++◌, [], IfOk, IfErr};
ghost use Rattle.tb_edge.specs.Faults.{Rose};
ghost use Rattle.tb_edge.specs.FilesHeld.{AsksSome};
ghost use Rattle.tb_lens.specs.Fed.{FeedFailure, FeedOutcome, TellsFeed, TellsFeedOf, line_text, most_log_bytes};
ghost use Rattle.tb_lens.specs.Loads.{Asks, IsReasonOfOne};

use crate::loading::load_log;
use crate::status::{Status, Trouble};
use std::alloc::Global;
use tb_edge::{Failed, Files, Sink};
use tb_refeed::{RefeedFault, refeed};
use tb_terms::NoMemory;

/// The text that is written about a log, and the status with which the program then ends.
#[derive(Drop)]
struct Telling {
    text: Vec<u8>,
    status: Status,
}

/// Writes the feed of the log in the file of this name, and returns `Fine`. If the file isn't a log, the call writes a sentence about the
/// first line that isn't a line of a log. If the file is a log, but a line is too long for a feed, the call writes a sentence about the
/// first such line. After a sentence, the call returns `Found`. The call fails if the file can't be read or is too long, if the write
/// fails, or if memory runs out. Only a failed write can leave text: a prefix of the whole text.
#[tactic(auto, using(crate::proofs::Feedings::fed, crate::proofs::Feedings::fed_in_part, crate::proofs::Feedings::unloaded_anyhow, crate::proofs::Feedings::unfed, crate::proofs::Feedings::asks_unloaded))]
pub fn tell_feed<F: Files, O: Sink>(
    alloc: Global,
    log: &str,
    files: &mut F,
    out: &mut O,
) -> Result<Status, Trouble>
    ensures ok { IfOk result (FeedOutcome (F.held files.old log.now) log.now
        (O.taken out.old) (O.taken out.new)) }
    ensures err { IfErr result (FeedFailure (F.held files.old log.now) log.now
        (O.taken out.old) (O.taken out.new)) }
    ensures asks { Asks (log.now ∷ []) result (F.asked files.old) (F.asked files.new) }
    ensures reason { IfErr result (IsReasonOfOne most_log_bytes (F.held files.old log.now) log.now
        (Rose (F.faults files.old) (F.faults files.new))
        (Rose (O.faults out.old) (O.faults out.new))) }
    ensures calm { IfOk result (λ status. O.faults out.new ≡ O.faults out.old) }
{
    let telling = load_telling(alloc, log, files)?;
    match out.put(telling.text.as_slice()) {
        Ok(()) => Ok(telling.status),
        Err(Failed) => Err(Trouble::Out),
    }
}

/// Returns the text that is written about the log in the file of this name.
#[tactic(auto, using(crate::proofs::Feedings::tells_held, crate::proofs::Asking::some_all))]
fn load_telling<F: Files>(alloc: Global, log: &str, files: &mut F) -> Result<Telling, Trouble>
    ensures tells { IfOk result (λ telling. TellsFeedOf (F.held files.old log.now) log.now
        telling.text.items telling.status) }
    ensures asks { IfOk result (λ telling. F.asked files.new ≡ F.asked files.old ++ log.now ∷ []) }
    ensures asks_some { IfErr result (λ trouble. AsksSome (log.now ∷ [])
        (F.asked files.old) (F.asked files.new)) }
    ensures reason { IfErr result (IsReasonOfOne most_log_bytes (F.held files.old log.now)
        log.now (Rose (F.faults files.old) (F.faults files.new)) ⊥) }
{
    match load_log(alloc, log, files) {
        Ok(bytes) => match telling_of(alloc, log, bytes.as_slice()) {
            Ok(telling) => Ok(telling),
            Err(NoMemory) => Err(Trouble::NoMemory),
        },
        Err(trouble) => Err(trouble),
    }
}

/// Returns the feed of the log with these bytes. If a line isn't a line of a log, or is too long for a feed, returns a sentence about this
/// line.
fn telling_of(alloc: Global, log: &str, bytes: &[u8]) -> Result<Telling, NoMemory>
    ensures { IfOk result
        (λ telling. TellsFeed log.now bytes.now telling.text.items telling.status) }
{
    match refeed(alloc, bytes) {
        Ok(feed) => Ok(Telling {
            text: feed,
            status: Status::Fine,
        }),
        Err(RefeedFault::Line(number)) => Ok(Telling {
            text: line_text(alloc, log, number, "this is no line of a log")?,
            status: Status::Found,
        }),
        Err(RefeedFault::TooLong(number)) => Ok(Telling {
            text: line_text(alloc, log, number, "no line of a feed is so long")?,
            status: Status::Found,
        }),
        Err(RefeedFault::NoMemory) => Err(NoMemory),
    }
}

/// Returns the name of a log, the number of a line, and a sentence about this line.
fn line_text(alloc: Global, log: &str, number: u64, sentence: &str) -> Result<Vec<u8>, NoMemory>
    ensures { IfOk result (λ text. text.items ≡ line_text log.now number sentence.now) }
{
    let text = format!(in alloc; "{log}:{number}: {sentence}\n")?;
    Ok(text.into_bytes())
}
