//! Theorems about all sequences of tokens. These calls change nothing: their contracts are the theorems.

ghost use Rattle.std.specs.Prelude.{◌≡◌, ◌≢◌, ◌⊎◌, List};
ghost use Rattle.tb_lex.specs.declared.kind.TokenKind.{TokenKind};
ghost use Rattle.tb_syntax.specs.declared.script.Script.{Script};
ghost use Rattle.tb_syntax.specs.Spelling.{Spells};
ghost use Rattle.tb_parse.specs.Faults.{IsScriptOf, HasFault};
ghost use Rattle.tb_parse.specs.declared.fault.ParseFault.{ParseFault};
ghost use Rattle.tb_parse.specs.declared.fault.ParseFault.TheVariants.{NoMemory};

/// States that tokens spell at most one script.
pub fn spelling_is_unique()
    ensures { (kinds : List TokenKind) (s t : Script) → Spells s kinds → Spells t kinds → s ≡ t }
{}

/// States that tokens have at most one error other than `NoMemory`, and none if they are a script within the limits.
pub fn faults_are_unique()
    ensures one { (kinds : List TokenKind) (f g : ParseFault) → HasFault kinds f → HasFault kinds g
        → f ≢ NoMemory → g ≢ NoMemory → f ≡ g }
    ensures none { (kinds : List TokenKind) (script : Script) (f : ParseFault)
        → IsScriptOf kinds script → HasFault kinds f → f ≡ NoMemory }
{}

/// States that each sequence of tokens is a script within the limits, or has an error other than `NoMemory`.
pub fn each_row_has_one()
    ensures { (kinds : List TokenKind) → ((script : Script) × IsScriptOf kinds script)
        ⊎ ((f : ParseFault) × HasFault kinds f × (f ≢ NoMemory)) }
{}
