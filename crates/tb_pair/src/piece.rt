//! The pieces that a pipe carries.
ghost use Rattle.std.specs.Prelude.{◌≡◌};
ghost use Rattle.tb_terms.specs.Sizes.{IsWithinLimits};

use std::marker::Model;
use tb_terms::Term;

/// A term of a `rec-do` line, within the limits. Contracts see the term.
#[derive(Drop)]
pub struct Told {
    term: Term,
}

impl Model for Told {
    ghost use Rattle.tb_terms.specs.Sizes.{IsWithinLimits};
    ghost use Rattle.tb_terms.specs.declared.term.Term.{Term};
    ghost use Rattle.tb_terms.specs.contracts.term.Term as term_data;

    ghost Value = { Term };

    ghost coded = { term_data.the_row.coded };

    ghost view = { λ told. told.term };

    ghost invariant = { λ told. IsWithinLimits told.term };
}

impl Told {
    /// Keeps a term that is within the limits.
    pub fn of(term: Term) -> Told
        requires { IsWithinLimits term }
        ensures { result ≡ term }
    {
        Told { term }
    }

    /// Returns the term itself.
    pub fn into_term(self) -> Term
        ensures value { result ≡ self }
        ensures within { IsWithinLimits result }
    {
        self.term
    }
}

/// A piece that a pipe carries.
#[derive(Drop)]
pub enum Piece {
    /// The term of a `rec-do` line.
    Told(Told),
    /// Nothing more comes.
    Last,
}
