//! The results of searches for an event and for a tool.
ghost use Rattle.std.specs.Prelude.{◌≡◌};
ghost use Rattle.tb_tools.specs.Finding.{smaller};

use tb_match::Binds;

/// An event that matches.
#[derive(Drop)]
pub struct FoundEvent {
    /// The position of the event in its list, from 0.
    pub place: usize,
    /// The binds of the match.
    pub binds: Binds,
}

/// The number of a tool, and its lane.
#[derive(Clone, Copy)]
pub(crate) struct FoundTool {
    pub number: u32,
    pub lane: u8,
}

/// Returns the tool with the smaller number: the best so far, or the tool with this number on this lane.
pub(crate) fn smaller(best: Option<FoundTool>, number: u32, lane: u8) -> FoundTool
    ensures { result ≡ smaller best (record { number = number; lane = lane }) }
{
    match best {
        Some(best) if best.number <= number => best,
        _ => FoundTool { number, lane },
    }
}
