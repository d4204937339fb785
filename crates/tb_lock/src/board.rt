//! The words and the slot of a bus, and its handles while a call runs.
use crate::plays::BusRule;
use crate::seat::View;
use tb_core::Core;

/// The shared table of a bus: two words, and one slot for the core.
pub(crate) type Board<W> = atomic_table::Shared<Option<Core<W>>, View, Core<W>, BusRule>;

/// A handle while a call runs. If its turn is open, it holds the slot.
pub(crate) type Holder<W> = atomic_table::Seat<Option<Core<W>>, View>;

/// The word from which tickets are drawn.
pub(crate) const TICKET: usize = 0;

/// The word that says whose turn it is.
pub(crate) const SERVING: usize = 1;

/// The slot of the core.
pub(crate) const CORE: usize = 0;
