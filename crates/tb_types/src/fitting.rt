//! Which types go together.

ghost use Rattle.std.specs.Prelude.{◌≡◌, ◌||◌};
ghost use Rattle.tb_terms.specs.declared.sort.Sort.{out-Sort};
ghost use Rattle.tb_terms.specs.declared.sort.Sort.TheVariants as sorts;
ghost use Rattle.tb_func.specs.Fitting.{sort_of};
ghost use Rattle.tb_types.specs.Fitting.{is_any, is_bool, is_int, is_str, is_any_tool, is_tool_sort, is_list_of, is_same_sort, goes_with, is_truth_word, result_goes_with};

use tb_func::{Shape, signature};
use tb_terms::{Func, Name, Sort};

pub(crate) fn is_any(sort: &Sort) -> bool
    ensures { result ≡ is_any (out-Sort sort.now) }
{
    matches!(sort, Sort::Any)
}

pub(crate) fn is_bool(sort: &Sort) -> bool
    ensures { result ≡ is_bool (out-Sort sort.now) }
{
    matches!(sort, Sort::Bool)
}

pub(crate) fn is_int(sort: &Sort) -> bool
    ensures { result ≡ is_int (out-Sort sort.now) }
{
    matches!(sort, Sort::Int)
}

pub(crate) fn is_str(sort: &Sort) -> bool
    ensures { result ≡ is_str (out-Sort sort.now) }
{
    matches!(sort, Sort::Str)
}

/// Returns whether the type is the type of some tool.
pub(crate) fn is_any_tool(sort: &Sort) -> bool
    ensures { result ≡ is_any_tool (out-Sort sort.now) }
{
    matches!(sort, Sort::Tool(_))
}

/// Returns whether the type is the type of this tool.
pub(crate) fn is_tool_sort(tool: &Name, sort: &Sort) -> bool
    ensures { result ≡ is_tool_sort tool.now (out-Sort sort.now) }
{
    match sort {
        Sort::Tool(name) => name.as_bytes() == tool.as_bytes(),
        _ => false,
    }
}

/// Returns whether two types are the same.
pub(crate) fn is_same_sort(sort: &Sort, other: &Sort) -> bool
    ensures { result ≡ is_same_sort sort.now other.now }
{
    sort.is_same(other)
}

/// Returns whether two types go together: they are equal, one is `term`, or both are list types whose member types go together.
#[cycle(goes_with)]
pub(crate) fn goes_with(own: &Sort, other: &Sort) -> bool
    ensures { result ≡ goes_with own.now other.now }
{
    match own {
        Sort::Bool => is_any(other) || is_bool(other),
        Sort::Int => is_any(other) || is_int(other),
        Sort::Str => is_any(other) || is_str(other),
        Sort::List(members) => is_any(other) || is_list_going_with(members.get(), other),
        Sort::Any => true,
        Sort::Tool(name) => is_any(other) || is_tool_sort(name, other),
    }
}

#[cycle(goes_with)]
fn is_list_going_with(members: &Sort, other: &Sort) -> bool
    ensures { result ≡ is_list_of (goes_with members.now) (out-Sort other.now) }
{
    match other {
        Sort::List(others) => goes_with(members, others.get()),
        _ => false,
    }
}

fn is_list(sort: &Sort) -> bool
    ensures { result ≡ is_list_of (goes_with sorts.Any) (out-Sort sort.now) }
{
    matches!(sort, Sort::List(_))
}

fn shape_goes_with(shape: Shape, sort: &Sort) -> bool
    ensures { result ≡ goes_with (sort_of shape) sort.now }
{
    match shape {
        Shape::Bool => is_any(sort) || is_bool(sort),
        Shape::Int => is_any(sort) || is_int(sort),
        Shape::List => is_any(sort) || is_list(sort),
        Shape::Any => true,
    }
}

/// Returns whether the type of the function's result goes with this type. If there is no function, the result is false.
pub(crate) fn result_goes_with(func: Option<Func>, sort: &Sort) -> bool
    ensures { result ≡ result_goes_with func sort.now }
{
    match func {
        None => false,
        Some(func) => shape_goes_with(signature(func).result, sort),
    }
}

/// Returns whether the name is a value of `bool`.
pub(crate) fn is_truth_word(name: &Name) -> bool
    ensures { result ≡ is_truth_word name.now }
{
    matches!(name.as_bytes(), b"true" | b"false")
}
