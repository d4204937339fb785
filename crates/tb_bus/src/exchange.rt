//! The lane, the event, and the binds of an exchange between a process and a tool.
use tb_match::Binds;

/// An exchange that is possible between a process and a tool.
#[derive(Drop)]
pub struct Exchange {
    /// The lane of the tool, from 1.
    pub lane: u8,
    /// The index, from 0, of the event that the process receives (among the tool's waiting events) or acknowledges (among the tool's
    /// received events). It is 0 if the exchange has no event.
    pub event: usize,
    /// The values that slots of the process take.
    pub binds: Binds,
}
