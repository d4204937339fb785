//! The rows of a chart.

ghost use Rattle.std.specs.Prelude.{IsTrue};
ghost use Rattle.tb_chart.specs.Figures.{figure};
ghost use Rattle.tb_chart.specs.Ends.{ends_of, fits};

use tb_log::Entry;

/// Where a tool is: its lane, and its declaration, from 0. A program that has not connected yet has none.
#[derive(Clone, Copy)]
pub struct Seat {
    pub lane: u8,
    pub kind: Option<u32>,
}

/// Who is at an end of an arrow.
#[derive(Clone, Copy)]
pub enum Who {
    /// The process with this number.
    Process(u32),
    Tool(Seat),
    /// The notes that wait until a process takes them.
    Notes,
}

/// An entry that is shown.
#[derive(Clone, Copy)]
pub struct Row<'a> {
    pub number: u64,
    pub entry: &'a Entry,
    /// From whom and to whom an arrow goes. Both are one at what concerns one alone. A rule has none.
    pub ends: Option<(Who, Who)>,
    /// The definitions of the processes that make a step, from 0: of the only one or the sender, and of the receiver.
    pub bodies: (Option<u32>, Option<u32>),
    ghost are_ends: { IsTrue (fits entry.now (ends_of (figure entry.now)) ends) },
}
