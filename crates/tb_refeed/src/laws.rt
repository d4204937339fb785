//! A theorem about the inputs of a log as a feed. The call changes nothing: its contract is the theorem.

ghost use Rattle.std.specs.Prelude.{ℕ, List};
ghost use Rattle.tb_feed.specs.Feeds.{IsFeedOf};
ghost use Rattle.tb_log.specs.declared.entry.Entry.{Entry};
ghost use Rattle.tb_log_read.specs.Lines.{IsLog};
ghost use Rattle.tb_refeed.specs.Feeding.{came_in, feed_text, IsTooLongAt};

/// If no tool's line is too long, the lines of a log's inputs, except the end of ticks, are a feed with exactly these inputs.
pub fn what_came_in_is_one_feed()
    ensures { (log : List Entry) → IsLog log → ((number : ℕ) → IsTooLongAt log number → ⊥)
        → IsFeedOf (feed_text (came_in log)) (came_in log) }
{}
