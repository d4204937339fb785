//! The patterns of expressions.
ghost use Rattle.std.specs.Prelude.{◌≡◌, IfOk, map, option_and_then, option_map};
ghost use Rattle.tb_terms.specs.declared.pattern.Pattern.TheVariants as pattern;
ghost use Rattle.tb_func.specs.Helpers.Parts.{as_pattern, as_patterns};
ghost use Rattle.tb_func.specs.Patterns.{pattern_of, appl_pattern, call_pattern, list_pattern};
ghost use Rattle.tb_func.specs.Stores.{sort_at};
ghost use Rattle.tb_func.specs.Values.{all_of};

use crate::Store;
use crate::built::{Part, Parts};
use crate::measured::Measured;
use crate::open::{OpenPattern, OpenPatterns};
use crate::values::{measured, value_of_call, variable};
use std::alloc::Global;
use tb_terms::{Expr, Func, Name, NoMemory, Pattern, Sort, Term};

/// Returns the pattern of the expression, or `None` if it has none. For example, there is none if a part that represents a term has no
/// value. A number or a variable alone isn't measured.
pub fn pattern(alloc: Global, e: &Expr, s: &Store) -> Result<Option<Pattern>, NoMemory>
    ensures { IfOk result (λ v. v ≡ pattern_of s.now e.now) }
{
    match e {
        Expr::Int(number) => Ok(Some(Pattern::Fixed(Term::Int(*number)))),
        Expr::Var(slot) => Ok(fixed(variable(alloc, *slot, s)?)),
        Expr::Result(slot) => result_variable(alloc, *slot, s),
        Expr::Hole(sort) => Ok(Some(Pattern::Hole(sort.copy(alloc)?))),
        Expr::Str(_) | Expr::Appl(_, _) | Expr::Call(_, _) | Expr::List(_) => {
            Ok(whole(build(alloc, e, s)?))
        }
    }
}

fn fixed(value: Option<Term>) -> Option<Pattern>
    ensures { result ≡ option_map pattern.Fixed value }
{
    match value {
        Some(term) => Some(Pattern::Fixed(term)),
        None => None,
    }
}

fn whole(part: Option<Part>) -> Option<Pattern>
    ensures { result ≡ option_map as_pattern part }
{
    match part {
        Some(part) => Some(part.into_pattern()),
        None => None,
    }
}

/// Returns the pattern of the expression. If the pattern is one term alone, the result has the size and the depth of the term.
#[cycle(build)]
fn build(alloc: Global, e: &Expr, s: &Store) -> Result<Option<Part>, NoMemory>
    ensures { IfOk result (λ v. option_map as_pattern v ≡ pattern_of s.now e.now) }
{
    match e {
        Expr::Int(number) => Ok(Some(Part::Value(Measured::number(*number)))),
        Expr::Str(text) => Ok(value(Measured::string(text.copy(alloc)?).limited())),
        Expr::Var(slot) => Ok(value(measured(variable(alloc, *slot, s)?))),
        Expr::Result(slot) => result_part(alloc, *slot, s),
        Expr::Hole(sort) => Ok(Some(hole(sort.copy(alloc)?))),
        Expr::Appl(name, parts) => {
            let built = build_all(alloc, parts.as_slice(), s)?;
            application(name, built)
        }
        Expr::Call(func, parts) => {
            let built = build_all(alloc, parts.as_slice(), s)?;
            call(alloc, *func, built)
        }
        Expr::List(parts) => Ok(list(build_all(alloc, parts.as_slice(), s)?)),
    }
}

#[cycle(build)]
fn build_all(alloc: Global, exprs: &[Expr], s: &Store) -> Result<Option<Parts>, NoMemory>
    ensures { IfOk result
        (λ v. option_map as_patterns v ≡ all_of (map (pattern_of s.now) exprs.now)) }
{
    let mut parts = Parts::new(alloc);
    for expr in exprs {
        match build(alloc, expr, s)? {
            Some(part) => parts = parts.with(alloc, part)?,
            None => return Ok(None),
        }
    }
    Ok(Some(parts))
}

fn value(value: Option<Measured>) -> Option<Part>
    ensures { option_map as_pattern result
        ≡ option_map pattern.Fixed (option_map (λ m. m.term) value) }
{
    match value {
        Some(value) => Some(Part::Value(value)),
        None => None,
    }
}

fn hole(sort: Sort) -> Part
    ensures { as_pattern result ≡ pattern.Hole sort }
{
    Part::Open(OpenPattern {
        pattern: Pattern::Hole(sort),
    })
}

fn result_part(alloc: Global, slot: u32, s: &Store) -> Result<Option<Part>, NoMemory>
    ensures { IfOk result
        (λ v. option_map as_pattern v ≡ option_map (pattern.Result slot) (sort_at s.now slot)) }
{
    match result_variable(alloc, slot, s)? {
        Some(pattern) => Ok(Some(Part::Open(OpenPattern { pattern }))),
        None => Ok(None),
    }
}

fn result_variable(alloc: Global, slot: u32, s: &Store) -> Result<Option<Pattern>, NoMemory>
    ensures { IfOk result (λ v. v ≡ option_map (pattern.Result slot) (sort_at s.now slot)) }
{
    match s.get_sort(slot) {
        Some(sort) => Ok(Some(Pattern::Result(slot, sort.copy(alloc)?))),
        None => Ok(None),
    }
}

#[tactic(auto, using(crate::proofs::OpenLemmas::fixed_terms_fixed, crate::proofs::OpenLemmas::fixed_terms_open))]
fn application(name: &Name, parts: Option<Parts>) -> Result<Option<Part>, NoMemory>
    ensures { IfOk result (λ v. option_map as_pattern v
        ≡ option_and_then (appl_pattern name.now) (option_map as_patterns parts)) }
{
    let Some(parts) = parts else {
        return Ok(None);
    };
    let name = name.share()?;
    match parts {
        Parts::Values(values) => Ok(value(values.application(name).limited())),
        Parts::Open(several) => Ok(Some(open_application(name, several))),
    }
}

fn open_application(name: Name, parts: OpenPatterns) -> Part
    ensures { as_pattern result ≡ pattern.Appl name parts.patterns }
{
    Part::Open(OpenPattern {
        pattern: Pattern::Appl(name, parts.patterns),
    })
}

#[tactic(auto, using(crate::proofs::OpenLemmas::fixed_terms_open))]
fn call(alloc: Global, f: Func, parts: Option<Parts>) -> Result<Option<Part>, NoMemory>
    ensures { IfOk result (λ v. option_map as_pattern v
        ≡ option_and_then (call_pattern f) (option_map as_patterns parts)) }
{
    match parts {
        Some(Parts::Values(values)) => Ok(value(value_of_call(alloc, f, Some(values))?)),
        Some(Parts::Open(_)) => Ok(None),
        None => Ok(None),
    }
}

#[tactic(auto, using(crate::proofs::OpenLemmas::fixed_terms_fixed, crate::proofs::OpenLemmas::fixed_terms_open))]
fn list(parts: Option<Parts>) -> Option<Part>
    ensures { option_map as_pattern result
        ≡ option_and_then list_pattern (option_map as_patterns parts) }
{
    match parts {
        Some(Parts::Values(values)) => value(values.list().limited()),
        Some(Parts::Open(several)) => Some(open_list(several)),
        None => None,
    }
}

fn open_list(parts: OpenPatterns) -> Part
    ensures { as_pattern result ≡ pattern.List parts.patterns }
{
    Part::Open(OpenPattern {
        pattern: Pattern::List(parts.patterns),
    })
}
