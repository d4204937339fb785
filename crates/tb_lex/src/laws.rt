//! Theorems about tokens. These calls change nothing: their contracts are the theorems.

ghost use Rattle.std.specs.Prelude.{◌≡◌, ◌≢◌, ◌≤◌, ◌⊎◌, ℕ, List, length};
ghost use Rattle.tb_lex.specs.declared.token.Token.{Token};
ghost use Rattle.tb_lex.specs.declared.fault.LexFault.{LexFault};
ghost use Rattle.tb_lex.specs.declared.fault.LexFault.TheVariants.{NoMemory};
ghost use Rattle.tb_lex.specs.Tokens.{Lexes, most_tokens, AreSlices, Spaced};
ghost use Rattle.tb_lex.specs.Faults.{HasFault};

/// States that a source has at most one sequence of tokens.
pub fn lexing_is_unique()
    ensures { (bytes : List ℕ) (ts us : List Token) → Lexes bytes ts → Lexes bytes us → ts ≡ us }
{}

/// States that a source has at most one error other than `NoMemory`, and none if it has tokens within the limit.
pub fn faults_are_unique()
    ensures one { (bytes : List ℕ) (f g : LexFault) → HasFault bytes f → HasFault bytes g
        → f ≢ NoMemory → g ≢ NoMemory → f ≡ g }
    ensures none { (bytes : List ℕ) (tokens : List Token) (f : LexFault) → Lexes bytes tokens
        → length tokens ≤ most_tokens → HasFault bytes f → f ≡ NoMemory }
{}

/// States that each source has tokens within the limit, or an error other than `NoMemory`.
pub fn each_text_has_one()
    ensures { (bytes : List ℕ)
        → ((tokens : List Token) × Lexes bytes tokens × (length tokens ≤ most_tokens))
        ⊎ ((f : LexFault) × HasFault bytes f × (f ≢ NoMemory)) }
{}

/// States that the tokens of a source are in order, none empty, and that the bytes between a token's positions spell it.
pub fn tokens_are_slices()
    ensures { (bytes : List ℕ) (tokens : List Token)
        → Lexes bytes tokens → AreSlices bytes 0 tokens }
{}

/// States that spellings of tokens, each followed by a space, form a source that has these tokens.
pub fn spaced_tokens_lex()
    ensures { (tokens : List Token) (bytes : List ℕ) → Spaced 0 tokens bytes → Lexes bytes tokens }
{}
