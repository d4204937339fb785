//! Theorems about lines and texts of feeds.
ghost use Rattle.std.specs.Prelude.{◌≡◌, ℕ, List};
ghost use Rattle.tb_log.specs.declared.entry.Input.{Input};
ghost use Rattle.tb_feed.specs.Feeds.{MayBeFed, Says, IsFeedOf, IsFirstBad};

/// A line has at most one input, which can be part of a feed.
pub fn a_line_says_one_input()
    ensures one { (line : List ℕ) (input other : Input) → Says line input
        → Says line other → input ≡ other }
    ensures may_be_fed { (line : List ℕ) (input : Input) → Says line input → MayBeFed input }
{}

/// A text has at most one feed.
pub fn a_text_has_one_feed()
    ensures { (text : List ℕ) (inputs others : List Input) → IsFeedOf text inputs
        → IsFeedOf text others → inputs ≡ others }
{}

/// A text that has a feed has no bad line.
pub fn a_feed_has_no_fault()
    ensures { (text : List ℕ) (inputs : List Input) (number : ℕ)
        → IsFeedOf text inputs → IsFirstBad text number → ⊥ }
{}

/// A text has at most one first bad line.
pub fn a_text_has_one_fault()
    ensures { (text : List ℕ) (number other : ℕ) → IsFirstBad text number
        → IsFirstBad text other → number ≡ other }
{}
