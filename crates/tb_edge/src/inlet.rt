//! The trait of an inlet, the read end of a lane.
ghost use Rattle.std.specs.Prelude.{◌≡◌, ℕ, ◌^◌, ◌<◌, ◌≤◌, Option, length};
ghost use Rattle.tb_edge.specs.Faults.{Rose};
ghost use Rattle.tb_edge.specs.Ends.{InletView, inlet_after, MayGive};

/// The length of the longest line of a tool, in bytes without the newline.
pub const MOST_LINE: usize = 65_536;

/// The answer of an inlet.
#[derive(Clone, Copy, Debug, PartialEq, Eq)]
pub enum Got {
    /// A line, which is in the buffer.
    Line,
    /// A line that is longer than [`MOST_LINE`]. Its bytes are lost.
    Long,
    /// The end of the output of one tool.
    End,
    /// The lane gives no more items. Each later answer is `Over` too.
    Over,
    /// The inlet failed. This counts as the end of its tool.
    Failed,
    /// Out of memory. The inlet has given nothing.
    NoMemory,
}

/// The read end of a lane: it gives the output of the lane's tools.
pub trait Inlet: Drop {
    // The number of failed calls so far.
    ghost faults: { Self → ℕ };

    // The items so far, and whether the inlet is over, if the inlet reports this.
    ghost told: { Self → Option InletView };

    /// Waits for the next item. After the answer `Line`, `line` has the bytes of the line, and nothing else. After any other answer,
    /// the content of `line` is unspecified.
    fn next(&mut self, line: &mut Vec<u8>) -> Got
        ensures told { told self.new ≡ inlet_after (told self.old) result line.new.items }
        ensures over { MayGive (told self.old) result }
        ensures short { result ≡ Got.Line → length line.new.items ≤ 65536 }
        ensures rose { result ≡ Got.Failed → Rose (faults self.old) (faults self.new) }
        ensures never_falls { faults self.old ≤ faults self.new }
        ensures fits { faults self.old < 2 ^ 64 → faults self.new < 2 ^ 64 };
}

impl Inlet for Box<dyn Inlet + Send> {
    ghost use Rattle.std.specs.Prelude.{ℕ, Option};

    ghost faults = { λ inlet. (Inlet-box inlet).faults inlet.value };

    ghost told = { λ inlet. (Inlet-box inlet).told inlet.value };

    fn next(&mut self, line: &mut Vec<u8>) -> Got {
        (**self).next(line)
    }
}
