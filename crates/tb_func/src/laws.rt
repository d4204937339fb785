//! Theorems about values, patterns, and functions. The calls change nothing: their contracts are the theorems.

ghost use Rattle.std.specs.Prelude.{◌≡◌, ◌≢◌, IsTrue, IfSome, List, None, length, option_map};
ghost use Rattle.tb_terms.specs.declared.term.Term.{Term};
ghost use Rattle.tb_terms.specs.declared.expr.Expr.{Expr};
ghost use Rattle.tb_terms.specs.declared.expr.Func.{Func};
ghost use Rattle.tb_terms.specs.declared.pattern.Pattern.TheVariants as pattern;
ghost use Rattle.tb_func.specs.declared.slot.Slot.{Slot};
ghost use Rattle.tb_func.specs.Apply.{apply_of};
ghost use Rattle.tb_func.specs.Fitting.{fits, AreFit};
ghost use Rattle.tb_func.specs.Functions.{signature_of};
ghost use Rattle.tb_func.specs.Patterns.{pattern_of, is_plain};
ghost use Rattle.tb_func.specs.Values.{value_of};

/// States that the pattern of an expression without placeholders and result variables is the value of the expression alone. If the
/// expression has no value, it has no pattern.
pub fn plain_expressions_are_fixed()
    ensures { (slots : List Slot) (e : Expr) → IsTrue (is_plain e)
        → pattern_of slots e ≡ option_map pattern.Fixed (value_of slots e) }
{}

/// States that if a function has a value for arguments, these fit its signature in number and shapes, and the value has the shape of the
/// result. For another number of arguments, the function has no value.
pub fn values_fit_signatures()
    ensures arguments { (f : Func) (ts : List Term)
        → IfSome (apply_of f ts) (λ v. AreFit (signature_of f) ts) }
    ensures value { (f : Func) (ts : List Term)
        → IfSome (apply_of f ts) (λ v. IsTrue (fits (signature_of f).result v)) }
    ensures other_count { (f : Func) (ts : List Term)
        → length ts ≢ (signature_of f).arity → apply_of f ts ≡ None }
{}
