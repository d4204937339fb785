//! The building of a pattern from its parts.
ghost use Rattle.std.specs.Prelude.{◌≡◌, ◌++◌, ◌∷◌, [], IfOk, map};
ghost use Rattle.tb_terms.specs.declared.pattern.Pattern.TheVariants as pattern;
ghost use Rattle.tb_func.specs.Helpers.Parts.{as_pattern, as_patterns};

use crate::measured::{Measured, MeasuredParts};
use crate::open::{OpenPattern, OpenPatterns};
use std::alloc::Global;
use tb_terms::{Items, NoMemory, Pattern, Patterns, Term};

/// A part of a pattern that is being built: a value, which has been measured, or an open pattern.
#[derive(Drop)]
pub(crate) enum Part {
    Value(Measured),
    Open(OpenPattern),
}

/// The parts of a pattern that is being built: values if each part is a value, and patterns otherwise.
#[derive(Drop)]
pub(crate) enum Parts {
    Values(MeasuredParts),
    Open(OpenPatterns),
}

impl Part {
    pub(crate) fn into_pattern(self) -> Pattern
        ensures { result ≡ as_pattern self }
    {
        match self {
            Part::Value(value) => Pattern::Fixed(value.term),
            Part::Open(part) => part.pattern,
        }
    }
}

impl Parts {
    pub(crate) fn new(alloc: Global) -> Parts
        ensures { as_patterns result ≡ [] }
    {
        Parts::Values(MeasuredParts::new(alloc))
    }

    /// Returns the parts with one more at the end.
    pub(crate) fn with(self, alloc: Global, part: Part) -> Result<Parts, NoMemory>
        ensures { IfOk result
            (λ parts. as_patterns parts ≡ as_patterns self ++ as_pattern part ∷ []) }
    {
        match self {
            Parts::Values(values) => after_values(alloc, values, part),
            Parts::Open(before) => after_open(before, part),
        }
    }
}

fn after_values(alloc: Global, values: MeasuredParts, part: Part) -> Result<Parts, NoMemory>
    ensures { IfOk result (λ parts. as_patterns parts
        ≡ map pattern.Fixed values.terms.items ++ as_pattern part ∷ []) }
{
    let mut values = values;
    match part {
        Part::Value(value) => {
            values.push(value)?;
            Ok(Parts::Values(values))
        }
        Part::Open(last) => {
            let mut patterns = fixed_patterns(alloc, values.terms)?;
            patterns.push(last.pattern)?;
            Ok(Parts::Open(OpenPatterns { patterns }))
        }
    }
}

fn after_open(before: OpenPatterns, part: Part) -> Result<Parts, NoMemory>
    ensures { IfOk result (λ parts. as_patterns parts ≡ before.patterns ++ as_pattern part ∷ []) }
{
    let mut patterns = before.patterns;
    patterns.push(part.into_pattern())?;
    Ok(Parts::Open(OpenPatterns { patterns }))
}

fn fixed_patterns(alloc: Global, terms: Vec<Term>) -> Result<Patterns, NoMemory>
    ensures { IfOk result (λ patterns. patterns ≡ map pattern.Fixed terms.items) }
{
    let mut patterns = Items::new(alloc);
    for term in terms {
        patterns.push(Pattern::Fixed(term))?;
    }
    Ok(patterns)
}
