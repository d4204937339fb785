//! Theorems about matches. The calls change nothing: their contracts are the theorems.

ghost use Rattle.std.specs.Prelude.{List, IsTrue, IfSome, MatchOption};
ghost use Rattle.tb_terms.specs.declared.term.Term.{Term};
ghost use Rattle.tb_terms.specs.declared.pattern.Pattern.{Pattern};
ghost use Rattle.tb_match.specs.declared.bind.Bind.{Bind};
ghost use Rattle.tb_match.specs.Agreeing.{agrees, list_agrees, AreAmong};
ghost use Rattle.tb_match.specs.Joining.{IsBoundOnce};
ghost use Rattle.tb_match.specs.Matches.{match_term, match_list};

/// States that a match binds each slot at most once.
pub fn matches_bind_once()
    ensures term { (p : Pattern) (t : Term) → IfSome (match_term p t) IsBoundOnce }
    ensures list { (ps : List Pattern) (ts : List Term) → IfSome (match_list ps ts) IsBoundOnce }
{}

/// States that the binds of a match are the fewest under which the term agrees with the pattern. If there is no match, there are no binds
/// under which the term agrees with the pattern.
pub fn matches_are_least()
    ensures agrees { (p : Pattern) (t : Term)
        → IfSome (match_term p t) (λ binds. IsTrue (agrees binds p t)) }
    ensures least { (p : Pattern) (t : Term) (others : List Bind) → IsTrue (agrees others p t)
        → MatchOption (match_term p t) ⊥ (λ binds. AreAmong binds others) }
{}

/// States that the binds of a match of lists are the fewest under which the terms agree with the patterns. If there is no match, there are
/// no binds under which the terms agree with the patterns.
pub fn list_matches_are_least()
    ensures agrees { (ps : List Pattern) (ts : List Term)
        → IfSome (match_list ps ts) (λ binds. IsTrue (list_agrees binds ps ts)) }
    ensures least { (ps : List Pattern) (ts : List Term) (others : List Bind)
        → IsTrue (list_agrees others ps ts)
        → MatchOption (match_list ps ts) ⊥ (λ binds. AreAmong binds others) }
{}
