//! The rights of a handle, which permit its calls.
ghost use Rattle.std.specs.Prelude.{◌≡◌, ◌↔◌, IsTrue};
ghost use Rattle.tb_log.specs.Shapes.{IsLane};
ghost use Rattle.tb_lock.specs.Rights.{AreAmong, all_rights, no_rights, lane_alone, reader_rights, writer_rights, stepper_rights, ticker_rights};

/// The rights of a handle. In `ins` and `outs`, lane n (from 1 to 16) has bit n - 1.
#[derive(Clone, Copy, Debug, PartialEq, Eq)]
pub struct Rights {
    /// The right to take steps.
    pub steps: bool,
    /// The right to deliver ticks, and to deliver the end of ticks.
    pub ticks: bool,
    /// The lanes of which the handle may deliver the output of the tool, and the end of this output.
    pub ins: u16,
    /// The lanes of which the handle may take the queued items, and deliver the input that an item couldn't be written (`cut`).
    pub outs: u16,
}

impl Rights {
    /// Returns all rights.
    pub fn all() -> Rights
        ensures { result ≡ all_rights }
    {
        Rights {
            steps: true,
            ticks: true,
            ins: u16::MAX,
            outs: u16::MAX,
        }
    }

    /// Returns no rights.
    pub fn none() -> Rights
        ensures { result ≡ no_rights }
    {
        Rights {
            steps: false,
            ticks: false,
            ins: 0,
            outs: 0,
        }
    }

    /// Returns only the right to deliver the output of the tool of a lane from 1 to 16, and the end of this output.
    pub fn reader(lane: u8) -> Rights
        requires { IsLane lane }
        ensures { result ≡ reader_rights lane }
    {
        Rights {
            steps: false,
            ticks: false,
            ins: alone(lane),
            outs: 0,
        }
    }

    /// Returns only the right to take the items queued on a lane from 1 to 16, and to deliver the input that an item couldn't be
    /// written (`cut`).
    pub fn writer(lane: u8) -> Rights
        requires { IsLane lane }
        ensures { result ≡ writer_rights lane }
    {
        Rights {
            steps: false,
            ticks: false,
            ins: 0,
            outs: alone(lane),
        }
    }

    /// Returns only the right to take steps.
    pub fn stepper() -> Rights
        ensures { result ≡ stepper_rights }
    {
        Rights {
            steps: true,
            ticks: false,
            ins: 0,
            outs: 0,
        }
    }

    /// Returns only the right to deliver ticks, and to deliver the end of ticks.
    pub fn ticker() -> Rights
        ensures { result ≡ ticker_rights }
    {
        Rights {
            steps: false,
            ticks: true,
            ins: 0,
            outs: 0,
        }
    }

    /// Returns whether each right of `some` is among these.
    pub fn cover(&self, some: &Rights) -> bool
        ensures { IsTrue result ↔ AreAmong some.now self.now }
    {
        let steps = self.steps | !some.steps;
        let ticks = self.ticks | !some.ticks;
        let ins = some.ins & self.ins == some.ins;
        let outs = some.outs & self.outs == some.outs;
        steps & ticks & ins & outs
    }
}

/// Returns the number whose only bit is that of a lane.
#[tactic(auto, using(std::proofs::lemmas::Grind::one_shifted))]
fn alone(lane: u8) -> u16
    requires { IsLane lane }
    ensures { result ≡ lane_alone lane }
{
    1 << (lane - 1)
}
