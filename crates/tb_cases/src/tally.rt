//! The count of passed and failed tests.

/// The numbers of passed and failed tests.
#[derive(Clone, Copy)]
pub struct Tally {
    /// The number of passed tests.
    pub passed: u64,
    /// The number of failed tests.
    pub failed: u64,
}

impl Tally {
    /// Returns the tally of no tests.
    pub fn new() -> Tally {
        Tally {
            passed: 0,
            failed: 0,
        }
    }

    /// Counts a test.
    pub fn count(&mut self, passed: bool) {
        if passed {
            self.passed = self.passed.saturating_add(1);
        } else {
            self.failed = self.failed.saturating_add(1);
        }
    }
}
