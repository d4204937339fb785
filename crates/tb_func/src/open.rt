//! Open patterns: those that aren't one term alone.
ghost use Rattle.std.specs.Prelude.{◌≡◌, IsTrue};
ghost use Rattle.tb_func.specs.Helpers.Opens.{is_open, has_open};

use tb_terms::{Pattern, Patterns};

/// An open pattern: one that isn't `Pattern::Fixed`.
#[derive(Drop)]
pub(crate) struct OpenPattern {
    pub pattern: Pattern,
    ghost stays_open: { IsTrue (is_open pattern) },
}

/// Patterns of which at least one is open.
#[derive(Drop)]
pub(crate) struct OpenPatterns {
    pub patterns: Patterns,
    ghost stays_open: { IsTrue (has_open patterns) },
}
