//! The parts of a bus on which reasons depend.

use crate::standing::Standing;
use tb_body::Program;
use tb_search::{Apart, Living};
use tb_tools::Bench;

/// The parts of a bus on which reasons depend, with the offers of its processes.
#[derive(Drop)]
pub(crate) struct Sight<'a, W> {
    /// The program of the bus.
    pub program: &'a Program,
    /// The lanes and their tools.
    pub bench: &'a Bench,
    /// The living processes.
    pub all: &'a [Apart<Living<W>>],
    /// The living processes with their offers, in the same order.
    pub standings: &'a [Standing],
    /// The number of the next process that is created.
    pub next_number: u32,
    /// Whether the bus has shut down.
    pub down: bool,
}
