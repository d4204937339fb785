//! The collection of the processes that have a wanted mark: a mark that meets that of a message, or any mark.
ghost use Rattle.std.specs.Prelude.{◌≡◌, OnOk};
ghost use Rattle.tb_index.specs.Helpers.Pairs.{has, in_few, in_many, in_slot, is_pair, is_wanted, AreGathered};

use crate::few::slot_of;
use crate::mark::{Mark, OPEN_HEAD};
use crate::pairs::Pairs;
use crate::slot::{Pair, Slot};
use std::collections::BTreeSet;
use tb_terms::NoMemory;

/// Returns whether a receiver under this mark may receive a message with the other. If there is no other mark, each
/// mark is wanted.
fn is_wanted(sent: Option<Mark>, mark: Mark) -> bool
    ensures { result ≡ is_wanted sent mark }
{
    match sent {
        Some(sent) => {
            mark.count == sent.count && (mark.head == OPEN_HEAD || mark.head == sent.head)
        }
        None => true,
    }
}

/// Adds each process that has a wanted mark. After `Err`, some of them may be in the set.
pub(crate) fn gather(
    found: &mut BTreeSet<u32>,
    pairs: &Pairs,
    sent: Option<Mark>,
) -> Result<(), NoMemory>
    ensures { OnOk result (AreGathered found.old found.new sent (has pairs.now)) }
{
    gather_few(found, pairs.few.as_slice(), sent)?;
    gather_many(found, &pairs.many, sent)?;
    Ok(())
}

fn gather_few(found: &mut BTreeSet<u32>, few: &[Slot], sent: Option<Mark>) -> Result<(), NoMemory>
    ensures { OnOk result (AreGathered found.old found.new sent (in_few few.now)) }
{
    for slot in 0..few.len() {
        gather_slot(found, few[slot].pairs(), slot, sent)?;
    }
    Ok(())
}

/// Adds each process of a slot with a wanted mark, if the mark belongs to that slot.
fn gather_slot(
    found: &mut BTreeSet<u32>,
    pairs: &[Pair],
    slot: usize,
    sent: Option<Mark>,
) -> Result<(), NoMemory>
    ensures { OnOk result (AreGathered found.old found.new sent (in_slot pairs.now slot)) }
{
    for pair in pairs {
        if slot_of(pair.mark) == slot {
            gather_one(found, pair.mark, pair.proc, sent)?;
        }
    }
    Ok(())
}

fn gather_many(
    found: &mut BTreeSet<u32>,
    many: &BTreeSet<(usize, u64, u32)>,
    sent: Option<Mark>,
) -> Result<(), NoMemory>
    ensures { OnOk result (AreGathered found.old found.new sent (in_many many.now)) }
{
    for pair in many.iter() {
        let mark = Mark {
            count: pair.0,
            head: pair.1,
        };
        gather_one(found, mark, pair.2, sent)?;
    }
    Ok(())
}

fn gather_one(
    found: &mut BTreeSet<u32>,
    mark: Mark,
    proc: u32,
    sent: Option<Mark>,
) -> Result<(), NoMemory>
    ensures { OnOk result (AreGathered found.old found.new sent (is_pair mark proc)) }
{
    if is_wanted(sent, mark) {
        found.insert(proc)?;
    }
    Ok(())
}
