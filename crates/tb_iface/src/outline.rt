//! The outline of an expression: a pattern that all values of the expression match.
ghost use Rattle.std.specs.Prelude.{◌≡◌, IfOk, map};
ghost use Rattle.tb_func.specs.Fitting.{sort_of};
ghost use Rattle.tb_iface.specs.Outlines.{may_be, may_be_sort, outline, slot_sort};
ghost use Rattle.tb_terms.specs.declared.sort.Sort.{out-Sort};

use sqlite_items::at;
use std::alloc::Global;
use tb_func::{Shape, signature};
use tb_terms::{Boxed, Expr, Items, Name, NoMemory, Pattern, Patterns, Sort, Term};

/// Returns the outline of an expression of a body whose slots have these types.
#[cycle(outline)]
pub(crate) fn outline(alloc: Global, expr: &Expr, sorts: &[Sort]) -> Result<Pattern, NoMemory>
    ensures { IfOk result (λ pattern. pattern ≡ outline sorts.now expr.now) }
{
    match expr {
        Expr::Int(number) => Ok(Pattern::Fixed(Term::Int(*number))),
        Expr::Str(text) => Ok(Pattern::Fixed(Term::Str(text.copy(alloc)?))),
        Expr::Var(slot) => Ok(Pattern::Hole(slot_sort(alloc, sorts, *slot)?)),
        Expr::Result(slot) => Ok(Pattern::Hole(slot_sort(alloc, sorts, *slot)?)),
        Expr::Hole(sort) => Ok(Pattern::Hole(sort.copy(alloc)?)),
        Expr::Appl(name, parts) => {
            let name = name.share()?;
            Ok(Pattern::Appl(name, outlines(alloc, parts.as_slice(), sorts)?))
        }
        Expr::Call(func, _) => Ok(Pattern::Hole(sort_of(alloc, signature(*func).result)?)),
        Expr::List(parts) => Ok(Pattern::List(outlines(alloc, parts.as_slice(), sorts)?)),
    }
}

/// Returns the outlines of these expressions, in their order.
#[cycle(outline)]
pub(crate) fn outlines(alloc: Global, exprs: &[Expr], sorts: &[Sort]) -> Result<Patterns, NoMemory>
    ensures { IfOk result (λ patterns. patterns ≡ map (outline sorts.now) exprs.now) }
{
    let mut patterns = Items::new(alloc);
    for expr in exprs {
        patterns.push(outline(alloc, expr, sorts)?)?;
    }
    Ok(patterns)
}

/// Returns the type of a slot, or the type of all terms if there is no such slot.
fn slot_sort(alloc: Global, sorts: &[Sort], slot: u32) -> Result<Sort, NoMemory>
    ensures { IfOk result (λ sort. sort ≡ slot_sort sorts.now slot) }
{
    match at(sorts, slot as usize) {
        Some(sort) => sort.copy(alloc),
        None => Ok(Sort::Any),
    }
}

/// Returns the type of a function's results.
fn sort_of(alloc: Global, shape: Shape) -> Result<Sort, NoMemory>
    ensures { IfOk result (λ sort. sort ≡ sort_of shape) }
{
    match shape {
        Shape::Bool => Ok(Sort::Bool),
        Shape::Int => Ok(Sort::Int),
        Shape::List => Ok(Sort::List(Boxed::new(alloc, Sort::Any)?)),
        Shape::Any => Ok(Sort::Any),
    }
}

/// Returns whether a value with this outline may be the tool.
pub(crate) fn may_be(tool: &Name, outline: &Pattern) -> bool
    ensures { result ≡ may_be tool.now outline.now }
{
    match outline {
        Pattern::Hole(sort) => may_be_sort(tool, sort),
        Pattern::Appl(name, parts) => match parts.as_slice() {
            [_] => name.as_bytes() == tool.as_bytes(),
            _ => false,
        },
        _ => false,
    }
}

/// Returns whether a value of this type may be the tool.
fn may_be_sort(tool: &Name, sort: &Sort) -> bool
    ensures { result ≡ may_be_sort tool.now (out-Sort sort.now) }
{
    match sort {
        Sort::Any => true,
        Sort::Tool(name) => name.as_bytes() == tool.as_bytes(),
        _ => false,
    }
}
