//! Sixteen lanes of fake ends, with a clock and records.
ghost use Rattle.std.specs.Prelude.{◌≡◌, false, IfOk, map};
ghost use Rattle.tb_fake.specs.Pairs.{all_lanes, fresh_pair};

use crate::board::Board;
use crate::cue::{copy_cues, copy_fails};
use crate::{Cue, Cues, Fail, Fails, FakeClock, FakeInlet, FakeOutlet, Records};
use std::alloc::Global;
use std::sync::Arc;
use tb_terms::NoMemory;

/// The numbers of all lanes.
const LANES: [u8; 16] = [1, 2, 3, 4, 5, 6, 7, 8, 9, 10, 11, 12, 13, 14, 15, 16];

/// The two ends of one lane.
#[derive(Drop)]
pub struct FakePair {
    /// The read end, which gives the lane's cues.
    pub inlet: FakeInlet,
    /// The write end, which keeps the items that it takes.
    pub outlet: FakeOutlet,
}

/// Sixteen pairs in the order of the lanes, with their clock and their records. A user boxes the lane ends.
#[derive(Drop)]
pub struct FakePairs {
    /// The pairs of the lanes 1 to 16.
    pub pairs: Vec<FakePair>,
    /// A clock that ends after the outlets of all pairs are closed.
    pub clock: FakeClock,
    /// The items that the outlets took. They can still be read after the lane ends are boxed.
    pub records: Records,
}

/// Makes sixteen pairs. The inlets have the cues of their lanes, and the outlets have the failing calls of their lanes.
pub fn fakes(alloc: Global, cues: Cues, fails: Fails) -> Result<FakePairs, NoMemory>
    ensures pairs { IfOk result (λ made. made.pairs.items ≡ map (fresh_pair cues fails) all_lanes) }
    ensures clock { IfOk result (λ made. made.clock ≡ false) }
{
    let board = Arc::new(alloc, Board::new(alloc)?)?;
    let pairs = pairs_of(alloc, &board, cues.as_slice(), fails.as_slice(), &LANES)?;
    let clock = FakeClock {
        board: Arc::try_clone(&board)?,
        ended: false,
    };
    Ok(FakePairs {
        pairs,
        clock,
        records: Records { board },
    })
}

fn pairs_of(
    alloc: Global,
    board: &Arc<Board, Global>,
    cues: &[Cue],
    fails: &[Fail],
    lanes: &[u8],
) -> Result<Vec<FakePair>, NoMemory>
    ensures { IfOk result (λ pairs. pairs.items ≡ map (fresh_pair cues.now fails.now) lanes.now) }
{
    let mut pairs = Vec::with_capacity(alloc, lanes.len())?;
    for lane in lanes {
        pairs.push(pair_of(alloc, board, cues, fails, *lane)?)?;
    }
    Ok(pairs)
}

fn pair_of(
    alloc: Global,
    board: &Arc<Board, Global>,
    cues: &[Cue],
    fails: &[Fail],
    lane: u8,
) -> Result<FakePair, NoMemory>
    ensures { IfOk result (λ pair. pair ≡ fresh_pair cues.now fails.now lane) }
{
    let inlet = FakeInlet::new(Arc::try_clone(board)?, lane, copy_cues(alloc, cues, lane)?);
    let fails = copy_fails(alloc, fails, lane)?;
    let outlet = FakeOutlet::new(alloc, Arc::try_clone(board)?, lane, fails)?;
    Ok(FakePair { inlet, outlet })
}
