//! A theorem about each ring. The call changes nothing: its contract is the theorem.

ghost use Rattle.std.specs.Prelude.{◌≤◌, ◌*◌, ℕ};
ghost use Rattle.tb_ring_law.specs.Ends.{GoesDown};

/// States that a ring of 2 to 10,000 processes that sends at most 1,000,000 messages ends well: its script is accepted, and its simulation
/// ends because the bus has shut down.
pub fn each_ring_goes_down()
    ensures { (n k : ℕ) → 2 ≤ n → n ≤ 10000 → 1 ≤ k → n * k ≤ 1000000 → GoesDown n k }
{}
