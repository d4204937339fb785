//! Theorems about inboxes. The calls change nothing: their contracts are the theorems.

ghost use Rattle.std.specs.Prelude.{◌≡◌, ◌||◌, List, false, MatchOption};
ghost use Rattle.tb_terms.specs.declared.term.Term.{Term};
ghost use Rattle.tb_terms.specs.declared.pattern.Pattern.{Pattern};
ghost use Rattle.tb_notes.specs.Inboxes.{Held, is_among, subscribed, unsubscribed, fits, wants, oldest_match, IsInOrder};
ghost use Rattle.tb_notes.specs.Oldest.{NoneMatches, IsOldest};

/// Shows that the found note matches, and no earlier note does. If nothing is found, no note matches.
pub fn oldest_match_is_first()
    ensures { (ps : List Pattern) (held : Held)
        → MatchOption (oldest_match ps held) (NoneMatches ps held.notes) (IsOldest ps held.notes) }
{}

/// Shows that an inbox with a new subscription wants the notes that match it, the notes that it wanted before, and no others.
/// Two equal subscriptions have the effect of one.
pub fn subscribing_adds()
    ensures wants { (ps : List Pattern) (held : Held) (note : List Term)
        → wants (subscribed ps held) note ≡ (wants held note || fits note ps) }
    ensures once { (ps : List Pattern) (held : Held)
        → subscribed ps (subscribed ps held) ≡ subscribed ps held }
{}

/// Shows that `unsubscribe` leaves no equal subscription. If a subscription was new, `unsubscribe` restores the earlier `held`.
pub fn unsubscribing_removes()
    ensures gone { (ps : List Pattern) (held : Held) → IsInOrder held
        → is_among ps (unsubscribed ps held).subscriptions ≡ false }
    ensures back { (ps : List Pattern) (held : Held) → is_among ps held.subscriptions ≡ false
        → unsubscribed ps (subscribed ps held) ≡ held }
{}
