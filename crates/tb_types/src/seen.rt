//! Names that are defined twice.

ghost use Rattle.std.specs.Prelude.{◌≡◌, ◌++◌, OnOk};
ghost use Rattle.tb_types.specs.Violation.{noted_if};
ghost use Rattle.tb_types.specs.Definitions.{none_seen, or_seen};
ghost use Rattle.tb_types.specs.Helpers.Seen.{was_seen};

use crate::violation::{Rule, Violation, note_if};
use indexmap::IndexMap;
use std::alloc::Global;
use tb_terms::{Items, NoMemory};

/// The names that were seen so far.
#[derive(Drop)]
pub(crate) struct Seen<'a> {
    names: IndexMap<&'a [u8], ()>,
}

impl<'a> Seen<'a> {
    pub(crate) fn new(alloc: Global) -> Seen<'a>
        ensures { was_seen result.names ≡ none_seen }
    {
        Seen {
            names: IndexMap::new(alloc),
        }
    }
}

/// Adds a violation if the name was seen before, and adds the name to the seen names.
pub(crate) fn push_repeat<'a>(
    seen: &mut Seen<'a>,
    name: &'a [u8],
    token: usize,
    into: &mut Items<Violation>,
) -> Result<(), NoMemory>
    ensures noted { OnOk result
        (into.new ≡ into.old ++ noted_if (was_seen seen.old.names name.now) Rule.Twice token) }
    ensures seen { OnOk result
        (was_seen seen.new.names ≡ or_seen name.now (was_seen seen.old.names)) }
{
    let before = seen.names.insert(name, ())?;
    note_if(before.is_some(), Rule::Twice, token, into)?;
    Ok(())
}
