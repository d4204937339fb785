//! The values of functions for given arguments.
ghost use Rattle.std.specs.Prelude.{◌≡◌, ◌∷◌, [], not, Some, IfOk, option_and_then, option_map};
ghost use Rattle.tb_func.specs.Apply.{apply_of, given, one_given, two_given, negated, truths, logic, numbers, orders, timed, number_of, first_of, rest_of, joined, member_at, members_test};
ghost use Rattle.tb_func.specs.Arguments.{bool_of, list_of, int_of, bool_term, of_both};
ghost use Rattle.tb_terms.specs.Same.{is_same_term};

use crate::limits::limited;
use crate::lists::{first_of, is_member, is_same, joined, member_at, number_of, rest_of};
use crate::numbers::{arithmetic, order, time};
use crate::parts::{bool_of, bool_term, int_of, list_of};
use std::alloc::Global;
use tb_terms::{Func, NoMemory, Term, Terms};

/// Returns the value of the function for these arguments, or `None` if it has no value or its value is over a limit of terms.
pub fn apply(alloc: Global, f: Func, args: &Terms) -> Result<Option<Term>, NoMemory>
    ensures { IfOk result (λ v. v ≡ apply_of f args.now) }
{
    match given(alloc, f, args.as_slice())? {
        Some(term) => Ok(limited(term)),
        None => Ok(None),
    }
}

/// Does the same as `apply`, for two arguments that aren't in a list.
pub(crate) fn apply_two(
    alloc: Global,
    f: Func,
    a: &Term,
    b: &Term,
) -> Result<Option<Term>, NoMemory>
    ensures { IfOk result (λ v. v ≡ apply_of f (a.now ∷ b.now ∷ [])) }
{
    match two_given(alloc, f, a, b)? {
        Some(term) => Ok(limited(term)),
        None => Ok(None),
    }
}

fn given(alloc: Global, f: Func, args: &[Term]) -> Result<Option<Term>, NoMemory>
    ensures { IfOk result (λ v. v ≡ given f args.now) }
{
    match args {
        [a] => one_given(alloc, f, a),
        [a, b] => two_given(alloc, f, a, b),
        _ => Ok(None),
    }
}

fn one_given(alloc: Global, f: Func, a: &Term) -> Result<Option<Term>, NoMemory>
    ensures { IfOk result (λ v. v ≡ one_given f a.now) }
{
    match f {
        Func::Not => negated(alloc, a),
        Func::Size => Ok(size_given(a)),
        Func::First => first_given(alloc, a),
        Func::Next => rest_given(alloc, a),
        Func::Msec | Func::Sec | Func::Min | Func::Hour => Ok(timed(f, a)),
        _ => Ok(None),
    }
}

fn two_given(alloc: Global, f: Func, a: &Term, b: &Term) -> Result<Option<Term>, NoMemory>
    ensures { IfOk result (λ v. v ≡ two_given f a.now b.now) }
{
    match f {
        Func::Equal => truth(alloc, is_same(a, b)),
        Func::NotEqual => truth(alloc, !is_same(a, b)),
        Func::And | Func::Or => truths(alloc, f, a, b),
        Func::Add | Func::Sub | Func::Mul | Func::Div | Func::Mod => Ok(numbers(f, a, b)),
        Func::Less | Func::LessEqual | Func::Greater | Func::GreaterEqual => {
            orders(alloc, f, a, b)
        }
        Func::Join => join_given(alloc, a, b),
        Func::Member => member_given(alloc, a, b),
        Func::Index => index_given(alloc, a, b),
        _ => Ok(None),
    }
}

fn truth(alloc: Global, is_true: bool) -> Result<Option<Term>, NoMemory>
    ensures { IfOk result (λ v. v ≡ Some (bool_term is_true)) }
{
    Ok(Some(bool_term(alloc, is_true)?))
}

fn negated(alloc: Global, a: &Term) -> Result<Option<Term>, NoMemory>
    ensures { IfOk result (λ v. v ≡ negated a.now) }
{
    match bool_of(a) {
        Some(is_true) => truth(alloc, !is_true),
        None => Ok(None),
    }
}

fn truths(alloc: Global, f: Func, a: &Term, b: &Term) -> Result<Option<Term>, NoMemory>
    ensures { IfOk result (λ v. v ≡ truths f a.now b.now) }
{
    match (bool_of(a), bool_of(b)) {
        (Some(x), Some(y)) => truth(alloc, logic(f, x, y)),
        _ => Ok(None),
    }
}

fn logic(f: Func, x: bool, y: bool) -> bool
    ensures { result ≡ logic f x y }
{
    match f {
        Func::And => x && y,
        Func::Or => x || y,
        _ => false,
    }
}

fn numbers(f: Func, a: &Term, b: &Term) -> Option<Term>
    ensures { result ≡ numbers f a.now b.now }
{
    let x = int_of(a)?;
    let y = int_of(b)?;
    let number = arithmetic(f, x, y)?;
    Some(Term::Int(number))
}

fn orders(alloc: Global, f: Func, a: &Term, b: &Term) -> Result<Option<Term>, NoMemory>
    ensures { IfOk result (λ v. v ≡ orders f a.now b.now) }
{
    match (int_of(a), int_of(b)) {
        (Some(x), Some(y)) => truth(alloc, order(f, x, y)),
        _ => Ok(None),
    }
}

fn timed(f: Func, a: &Term) -> Option<Term>
    ensures { result ≡ timed f a.now }
{
    let amount = int_of(a)?;
    let number = time(f, amount)?;
    Some(Term::Int(number))
}

fn size_given(a: &Term) -> Option<Term>
    ensures { result ≡ option_and_then number_of (list_of a.now) }
{
    match list_of(a) {
        Some(terms) => number_of(terms),
        None => None,
    }
}

fn first_given(alloc: Global, a: &Term) -> Result<Option<Term>, NoMemory>
    ensures { IfOk result (λ v. v ≡ option_and_then first_of (list_of a.now)) }
{
    match list_of(a) {
        Some(terms) => first_of(alloc, terms),
        None => Ok(None),
    }
}

fn rest_given(alloc: Global, a: &Term) -> Result<Option<Term>, NoMemory>
    ensures { IfOk result (λ v. v ≡ option_and_then rest_of (list_of a.now)) }
{
    match list_of(a) {
        Some(terms) => rest_of(alloc, terms),
        None => Ok(None),
    }
}

fn join_given(alloc: Global, a: &Term, b: &Term) -> Result<Option<Term>, NoMemory>
    ensures { IfOk result
        (λ v. v ≡ of_both (λ xs ys. Some (joined xs ys)) (list_of a.now) (list_of b.now)) }
{
    match (list_of(a), list_of(b)) {
        (Some(prefix), Some(back)) => Ok(Some(joined(alloc, prefix, back)?)),
        _ => Ok(None),
    }
}

fn member_given(alloc: Global, a: &Term, b: &Term) -> Result<Option<Term>, NoMemory>
    ensures { IfOk result (λ v. v ≡ option_map (members_test a.now) (list_of b.now)) }
{
    match list_of(b) {
        Some(terms) => truth(alloc, is_member(a, terms)),
        None => Ok(None),
    }
}

fn index_given(alloc: Global, a: &Term, b: &Term) -> Result<Option<Term>, NoMemory>
    ensures { IfOk result (λ v. v ≡ of_both member_at (list_of a.now) (int_of b.now)) }
{
    match (list_of(a), int_of(b)) {
        (Some(terms), Some(position)) => member_at(alloc, terms, position),
        _ => Ok(None),
    }
}
