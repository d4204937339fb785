//! Theorems about the parsing of terms. The calls change nothing: their contracts are the theorems.

ghost use Rattle.std.specs.Prelude.{◌≡◌, ◌≢◌, ◌<◌, ◌≤◌, ◌+◌, ◌⊎◌, ℕ, List, ◌++◌, length, take, drop};
ghost use Rattle.tb_terms.specs.declared.term.Term.{Term};
ghost use Rattle.tb_terms.specs.Sizes.{IsWithinLimits};
ghost use Rattle.tb_read.specs.declared.fault.TermFault.{TermFault};
ghost use Rattle.tb_read.specs.declared.fault.TermFault.TheVariants.{NoMemory, Syntax, Real, IntRange};
ghost use Rattle.tb_read.specs.Spelling.{Reads};
ghost use Rattle.tb_read.specs.Reading.{HasFault};
ghost use Rattle.tb_read.specs.Positions.{TakesTerm, BeginsReal, BeginsTooFar};
ghost use Rattle.tb_terms.specs.Texts.{term_text};

use tb_terms::{Term, show_proper};

/// States that a source parses as at most one term.
pub fn reading_is_unique()
    ensures { (bytes : List ℕ) (t u : Term) → Reads bytes t → Reads bytes u → t ≡ u }
{}

/// States that a source has at most one error other than `NoMemory`, and none if it parses as a term within the limits.
pub fn faults_are_unique()
    ensures one { (bytes : List ℕ) (f g : TermFault) → HasFault bytes f → HasFault bytes g
        → f ≢ NoMemory → g ≢ NoMemory → f ≡ g }
    ensures none { (bytes : List ℕ) (t : Term) (f : TermFault) → Reads bytes t → IsWithinLimits t
        → HasFault bytes f → f ≡ NoMemory }
{}

/// States that each source parses as a term within the limits, or has an error other than `NoMemory`.
pub fn each_text_has_one()
    ensures { (bytes : List ℕ) → ((t : Term) × Reads bytes t × IsWithinLimits t)
        ⊎ ((f : TermFault) × HasFault bytes f × (f ≢ NoMemory)) }
{}

/// States that the bytes before a syntax error can be continued to a source that parses as a term.
pub fn syntax_begins()
    ensures { (bytes : List ℕ) (position : ℕ) → HasFault bytes (Syntax position)
        → (position ≤ length bytes)
        × ((rest : List ℕ) × (t : Term) × Reads (take position bytes ++ rest) t) }
{}

/// States that no continuation of the bytes up to and including the byte of a syntax error parses as a term.
pub fn syntax_stops()
    ensures { (bytes : List ℕ) (position : ℕ)
        → HasFault bytes (Syntax position) → position < length bytes
        → (rest : List ℕ) (t : Term) → Reads (take (position + 1) bytes ++ rest) t → ⊥ }
{}

/// States that at the position of an error of a number, a term can begin. A real, or an integer out of range, is at this position.
pub fn numeral_faults()
    ensures real { (bytes : List ℕ) (position : ℕ) → HasFault bytes (Real position)
        → TakesTerm bytes position × BeginsReal (drop position bytes) }
    ensures range { (bytes : List ℕ) (position : ℕ) → HasFault bytes (IntRange position)
        → TakesTerm bytes position × BeginsTooFar (drop position bytes) }
{}

/// States that the text of a term parses as this term. The call walks the term and changes nothing.
pub fn written_text_reads(term: &Term)
    ensures { Reads (term_text term.now) term.now }
{
    show_proper(term);
}
