//! The first part of a change of marks: a process gets its new marks in addition to its old ones.
ghost use Rattle.std.specs.Prelude.{◌≡◌, OnOk, OnErr};
ghost use Rattle.tb_index.specs.Helpers.Pairs.{AreOf, AreAdded, AreCountedIf, AreOpened, AllOpened, AreHeard, SamePairs};

use crate::active::activate;
use crate::counts::{Counts, count};
use crate::mark::{Mark, Marks};
use crate::pairs::{Pairs, add_both, remove_both};
use tb_terms::NoMemory;

/// Adds the new marks of a process to its old ones. If out of memory, its marks remain unchanged, but the counts and
/// the active marks may have grown.
pub(crate) fn come(
    sending: &mut Pairs,
    receiving: &mut Pairs,
    counts: &mut Counts,
    active: &mut Vec<Mark>,
    proc: u32,
    old: &Marks,
    new: &Marks,
) -> Result<(), NoMemory>
    requires sends { AreOf sending.old old.now.sends.items proc }
    requires receives { AreOf receiving.old old.now.receives.items proc }
    requires counted { AreCountedIf counts.old.opened sending.old counts.old.pairs }
    requires told { AllOpened counts.old.opened receiving.old }
    requires opened { AreOpened counts.old.opened new.now.receives.items }
    requires heard { AreHeard sending.old receiving.old active.old.items }
    ensures sends { OnOk result (AreAdded sending.old sending.new new.now.sends.items proc) }
    ensures receives { OnOk result
        (AreAdded receiving.old receiving.new new.now.receives.items proc) }
    ensures same_sends { OnErr result (SamePairs sending.old sending.new) }
    ensures same_receives { OnErr result (SamePairs receiving.old receiving.new) }
    ensures counted { AreCountedIf counts.new.opened sending.new counts.new.pairs }
    ensures opened { counts.new.opened ≡ counts.old.opened }
    ensures heard { AreHeard sending.new receiving.new active.new.items }
{
    match count(counts, new.sends.as_slice(), old.sends.as_slice(), proc) {
        Ok(()) => {}
        Err(error) => return Err(error),
    }
    match add_both(sending, receiving, proc, old, new) {
        Ok(()) => {}
        Err(error) => return Err(error),
    }
    match activate(active, sending, receiving, counts, old, new) {
        Ok(()) => Ok(()),
        Err(error) => {
            remove_both(sending, receiving, proc, new, old);
            Err(error)
        }
    }
}
