//! The trait of an outlet, the write end of a lane.
ghost use Rattle.std.specs.Prelude.{◌≡◌, ℕ, ◌^◌, ◌<◌, ◌≤◌, Option, List, [], ◌∷◌, OnOk, OnErr};
ghost use Rattle.tb_edge.specs.Faults.{Rose};
ghost use Rattle.tb_edge.specs.Ends.{and_taken};
ghost use Rattle.tb_edge.specs.declared.given.Taken.{Taken};

use crate::{Failed, Taken};

/// The write end of a lane: it takes the input of the lane's tools.
pub trait Outlet: Drop {
    // The number of failed calls so far.
    ghost faults: { Self → ℕ };

    // The items that the outlet took so far, if the outlet reports them.
    ghost told: { Self → Option (List Taken) };

    /// Starts a tool by this command. If the tool can't be started, the call fails, and the outlet takes nothing.
    fn begin(&mut self, command: &str) -> Result<(), Failed>
        ensures ok { OnOk result
            (told self.new ≡ and_taken (told self.old) (Taken.Start command.now ∷ [])) }
        ensures err { OnErr result (told self.new ≡ told self.old) }
        ensures rose { OnErr result (Rose (faults self.old) (faults self.new)) }
        ensures never_falls { faults self.old ≤ faults self.new }
        ensures fits { faults self.old < 2 ^ 64 → faults self.new < 2 ^ 64 };

    /// Writes a line to the tool. `bytes` has the line without its newline. If the line can't be written, the call fails, and the outlet
    /// takes nothing. No clause says how much of the line the tool has received then.
    fn line(&mut self, bytes: &[u8]) -> Result<(), Failed>
        ensures ok { OnOk result
            (told self.new ≡ and_taken (told self.old) (Taken.Line bytes.now ∷ [])) }
        ensures err { OnErr result (told self.new ≡ told self.old) }
        ensures rose { OnErr result (Rose (faults self.old) (faults self.new)) }
        ensures never_falls { faults self.old ≤ faults self.new }
        ensures fits { faults self.old < 2 ^ 64 → faults self.new < 2 ^ 64 };

    /// Returns whether `line` can write a line of less than 4,096 bytes without waiting for the tool. The answer is a hint: no clause
    /// mentions it.
    fn can_take_line(&self) -> bool;

    /// Closes the input of the tool.
    fn end(&mut self)
        ensures told { told self.new ≡ and_taken (told self.old) (Taken.End ∷ []) }
        ensures never_falls { faults self.old ≤ faults self.new }
        ensures fits { faults self.old < 2 ^ 64 → faults self.new < 2 ^ 64 };

    /// Ends the lane for good. After this call, the inlet should give the rest of its items, and then be over. No clause states this.
    fn close(&mut self)
        ensures told { told self.new ≡ told self.old }
        ensures never_falls { faults self.old ≤ faults self.new }
        ensures fits { faults self.old < 2 ^ 64 → faults self.new < 2 ^ 64 };
}

impl Outlet for Box<dyn Outlet + Send> {
    ghost use Rattle.std.specs.Prelude.{ℕ, Option, List};

    ghost faults = { λ outlet. (Outlet-box outlet).faults outlet.value };

    ghost told = { λ outlet. (Outlet-box outlet).told outlet.value };

    fn begin(&mut self, command: &str) -> Result<(), Failed> {
        (**self).begin(command)
    }

    fn line(&mut self, bytes: &[u8]) -> Result<(), Failed> {
        (**self).line(bytes)
    }

    fn can_take_line(&self) -> bool {
        (**self).can_take_line()
    }

    fn end(&mut self) {
        (**self).end()
    }

    fn close(&mut self) {
        (**self).close()
    }
}
