//! The search among the subscriptions of a process.
ghost use Rattle.std.specs.Prelude.{◌≡◌, ◌<◌, length, remove, false, IsTrue, MatchOption};
ghost use Rattle.std.specs.List.{list_any, list_all};
ghost use Rattle.tb_match.specs.Matches.{are_plain};
ghost use Rattle.tb_notes.specs.Inboxes.{is_among, without, fits};

use tb_match::{fits_list, same_patterns};
use tb_terms::{Patterns, Terms};

/// Returns the position of the first subscription that is equal to these patterns.
pub(crate) fn position_of(subscriptions: &[Patterns], patterns: &Patterns) -> Option<usize>
    ensures { MatchOption result ((is_among patterns.now subscriptions.now ≡ false)
        × (without patterns.now subscriptions.now ≡ subscriptions.now))
        (λ index. IsTrue (is_among patterns.now subscriptions.now)
        × (index < length subscriptions.now)
        × (without patterns.now subscriptions.now ≡ remove subscriptions.now index)) }
{
    for (index, subscription) in subscriptions.iter().enumerate() {
        if same_patterns(patterns, subscription) {
            return Some(index);
        }
    }
    None
}

/// Returns whether a subscription is equal to these patterns.
pub(crate) fn contains(subscriptions: &[Patterns], patterns: &Patterns) -> bool
    ensures { result ≡ is_among patterns.now subscriptions.now }
{
    position_of(subscriptions, patterns).is_some()
}

/// Returns whether some subscription matches the note.
pub(crate) fn any_fits(subscriptions: &[Patterns], note: &Terms) -> bool
    requires { IsTrue (list_all are_plain subscriptions.now) }
    ensures { result ≡ list_any (fits note.now) subscriptions.now }
{
    for subscription in subscriptions {
        if fits_list(subscription, note) {
            return true;
        }
    }
    false
}
