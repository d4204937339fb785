//! Theorems about the text of logs. The calls change nothing: their contracts are the theorems.

ghost use Rattle.std.specs.Prelude.{◌≡◌, ℕ, List};
ghost use Rattle.tb_log.specs.LogText.{log_text};
ghost use Rattle.tb_log.specs.declared.entry.Entry.{Entry};
ghost use Rattle.tb_log_read.specs.Lines.{IsLine, IsLog, StopsAt};

/// States that different logs have different texts, and that different numbers or entries have different lines.
pub fn log_text_is_one_to_one()
    ensures logs { (a b : List Entry) → IsLog a → IsLog b → log_text a ≡ log_text b → a ≡ b }
    ensures lines { (m n : ℕ) (d e : Entry) (line : List ℕ) → IsLine m d line → IsLine n e line
        → (m ≡ n) × (d ≡ e) }
{}

/// States that bytes have at most one first line that isn't an entry's (`StopsAt`). If the bytes are the text of a log, they have
/// none.
pub fn bytes_stop_once()
    ensures one { (bytes : List ℕ) (m n : ℕ) → StopsAt bytes m → StopsAt bytes n → m ≡ n }
    ensures none { (bytes : List ℕ) (log : List Entry) (n : ℕ) → IsLog log → bytes ≡ log_text log
        → StopsAt bytes n → ⊥ }
{}
