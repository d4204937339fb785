//! Terms with their size and depth.
ghost use Rattle.std.specs.Prelude.{◌≡◌, ◌++◌, ◌∷◌, [], OnErr, OnOk, min, map, sum, option_map};
ghost use Rattle.tb_terms.specs.Sizes.{term_size, term_levels, greatest};
ghost use Rattle.tb_terms.specs.declared.term.Term.TheVariants as term;
ghost use Rattle.tb_func.specs.Limits.{limited};
ghost use Rattle.std.below.core.specs.declared.int.usize.TheConstants.{MAX};

use crate::limits::are_within_limits;
use std::alloc::Global;
use tb_terms::{Items, Name, NoMemory, Term, Text, depth, size};

/// A term with its size and its depth. A size or a depth greater than `usize::MAX` is given as `usize::MAX`.
#[derive(Drop)]
pub(crate) struct Measured {
    pub term: Term,
    pub size: usize,
    pub levels: usize,
    ghost has_size: { size ≡ min (term_size term) MAX },
    ghost has_levels: { levels ≡ min (term_levels term) MAX },
}

impl Measured {
    /// Measures the term, and returns it with its size and its depth.
    pub(crate) fn new(term: Term) -> Measured
        ensures { result.term ≡ term }
    {
        let size = size(&term);
        let levels = depth(&term);
        Measured { term, size, levels }
    }

    pub(crate) fn number(number: i64) -> Measured
        ensures { result.term ≡ term.Int number }
    {
        Measured {
            term: Term::Int(number),
            size: 1,
            levels: 1,
        }
    }

    pub(crate) fn string(text: Text) -> Measured
        ensures { result.term ≡ term.Str text }
    {
        let size = text.as_bytes().len().saturating_add(1);
        Measured {
            term: Term::Str(text),
            size,
            levels: 1,
        }
    }

    /// Returns the term, or `None` if it is over a limit.
    #[tactic(auto, unfolding(tb_terms::specs::Sizes::is_within_limits))]
    pub(crate) fn limited(self) -> Option<Measured>
        ensures { option_map (λ m. m.term) result ≡ limited self.term }
    {
        if are_within_limits(self.size, self.levels) {
            Some(self)
        } else {
            None
        }
    }
}

/// Terms with the sum of their sizes and the depth of the deepest. A number greater than `usize::MAX` is given as `usize::MAX`.
#[derive(Drop)]
pub(crate) struct MeasuredParts {
    pub terms: Vec<Term>,
    pub sizes: usize,
    pub deepest: usize,
    ghost has_sizes: { sizes ≡ min (sum (map term_size terms.items)) MAX },
    ghost has_deepest: { deepest ≡ min (greatest (map term_levels terms.items)) MAX },
}

impl MeasuredParts {
    pub(crate) fn new(alloc: Global) -> MeasuredParts
        ensures { result.terms.items ≡ [] }
    {
        MeasuredParts {
            terms: Vec::new(alloc),
            sizes: 0,
            deepest: 0,
        }
    }

    pub(crate) fn push(&mut self, part: Measured) -> Result<(), NoMemory>
        ensures pushed { OnOk result
            (self.new.terms.items ≡ self.old.terms.items ++ part.term ∷ []) }
        ensures unchanged { OnErr result (self.new.terms.items ≡ self.old.terms.items) }
    {
        self.terms.push(part.term)?;
        self.sizes = self.sizes.saturating_add(part.size);
        self.deepest = part.levels.max(self.deepest);
        Ok(())
    }

    pub(crate) fn application(self, name: Name) -> Measured
        ensures { result.term ≡ term.Appl name self.terms.items }
    {
        let named = name.as_bytes().len().saturating_add(1);
        Measured {
            size: named.saturating_add(self.sizes),
            levels: self.deepest.saturating_add(1),
            term: Term::Appl(name, Items::from_vec(self.terms)),
        }
    }

    pub(crate) fn list(self) -> Measured
        ensures { result.term ≡ term.List self.terms.items }
    {
        Measured {
            size: self.sizes.saturating_add(1),
            levels: self.deepest.saturating_add(1),
            term: Term::List(Items::from_vec(self.terms)),
        }
    }
}
