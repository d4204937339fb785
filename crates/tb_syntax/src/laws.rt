//! Theorems about all spellings. These calls change nothing: their contracts are the theorems.

ghost use Rattle.std.specs.Prelude.{◌≡◌, ℕ, List, Some, true};
ghost use Rattle.tb_lex.specs.declared.kind.TokenKind.{TokenKind};
ghost use Rattle.tb_syntax.specs.declared.atom_words.AtomWord.{AtomWord};
ghost use Rattle.tb_syntax.specs.declared.atom_words.TimeWord.{TimeWord};
ghost use Rattle.tb_syntax.specs.declared.level.Level.{Level};
ghost use Rattle.tb_syntax.specs.declared.proc.Proc.{Proc};
ghost use Rattle.tb_syntax.specs.declared.script.Script.{Script};
ghost use Rattle.tb_syntax.specs.AtomWords.{atom_text, atom_word, time_text, time_word};
ghost use Rattle.tb_syntax.specs.Binding.{is_looser, own_level};
ghost use Rattle.tb_syntax.specs.Parens.{IsBalanced, StandsInParens};
ghost use Rattle.tb_syntax.specs.Spelling.{SpellsProc, Spells};

/// States that a process that binds looser than its place allows, as a choice within a sequence, is in parentheses. The
/// parenthesis at its first token closes at its last token, and not before.
pub fn looser_stands_in_parens()
    ensures { (at : Level) (position : ℕ) (p : Proc) (kinds : List TokenKind)
        → SpellsProc at position p kinds
        → is_looser (own_level p) at ≡ true → StandsInParens position p kinds }
{}

/// States that the parentheses of a process are balanced at each level, and also those of a script.
pub fn parens_are_balanced()
    ensures proc { (at : Level) (position : ℕ) (p : Proc) (kinds : List TokenKind)
        → SpellsProc at position p kinds → IsBalanced kinds }
    ensures script { (script : Script) (kinds : List TokenKind)
        → Spells script kinds → IsBalanced kinds }
{}

/// States that the text of each atom word and of each time word is read as this word. So no word is left out, and no two words have
/// the same text.
pub fn each_word_is_read()
    ensures atom { (word : AtomWord) → atom_word (atom_text word) ≡ Some word }
    ensures time { (word : TimeWord) → time_word (time_text word) ≡ Some word }
{}
