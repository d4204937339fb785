//! An item that is queued for sending, kept twice: for the tool and for the log.
ghost use Rattle.std.specs.Prelude.{◌≡◌, IfOk};
ghost use Rattle.tb_log.specs.declared.entry.Out.TheVariants.{End};

use std::alloc::Global;
use std::marker::Model;
use tb_log::Out;
use tb_terms::NoMemory;

/// Two copies of an item to send on a lane: one for the tool, and one for a log.
#[derive(Drop)]
pub struct Handout {
    /// The copy for the tool.
    pub given: Out,
    /// The copy for the log.
    pub logged: Out,
}

/// An item that is queued on a lane. It is kept twice, so that it can be sent and logged without taking memory. Contracts see one item.
#[derive(Drop)]
pub(crate) struct KeptOut {
    handout: Handout,
}

impl Model for KeptOut {
    ghost use Rattle.std.specs.Prelude.{◌≡◌};
    ghost use Rattle.tb_log.specs.declared.entry.Out.{Out};
    ghost use Rattle.tb_log.specs.contracts.entry.Out as out_data;

    ghost Value = { Out };

    ghost coded = { out_data.the_row.coded };

    ghost view = { λ kept. kept.handout.given };

    ghost invariant = { λ kept. kept.handout.given ≡ kept.handout.logged };
}

impl KeptOut {
    /// Keeps the item and a copy of it.
    pub fn new(alloc: Global, out: Out) -> Result<KeptOut, NoMemory>
        ensures { IfOk result (λ kept. kept ≡ out) }
    {
        let logged = out.copy(alloc)?;
        Ok(KeptOut::of(out, logged))
    }

    /// Keeps an item and its copy.
    pub fn of(given: Out, logged: Out) -> KeptOut
        requires { given ≡ logged }
        ensures { result ≡ given }
    {
        KeptOut {
            handout: Handout { given, logged },
        }
    }

    /// Makes the end of a lane. Takes no memory.
    pub fn end() -> KeptOut
        ensures { result ≡ End }
    {
        KeptOut::of(Out::End, Out::End)
    }

    /// Returns the item.
    pub fn item(&self) -> &Out
        ensures { result.now ≡ self.now }
    {
        &self.handout.given
    }

    /// Returns both copies of the item.
    pub fn into_handout(self) -> Handout
        ensures given { result.given ≡ self }
        ensures logged { result.logged ≡ self }
    {
        self.handout
    }
}
