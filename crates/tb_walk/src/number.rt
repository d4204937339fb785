//! Numbers and comparisons that are evaluated without a term.
ghost use Rattle.std.specs.Prelude.{◌≡◌, ◌∷◌, [], Some, IfSome, map, option_and_then};
ghost use Rattle.tb_terms.specs.declared.term.Term.TheVariants as term;
ghost use Rattle.tb_func.specs.Apply.{apply_of};
ghost use Rattle.tb_func.specs.Arguments.{bool_of};
ghost use Rattle.tb_func.specs.Stores.{value_at};
ghost use Rattle.tb_func.specs.Values.{all_of, value_of};
ghost use Rattle.tb_walk.specs.Helpers.Numbers.{numbered, ordered};

use tb_func::Store;
use tb_terms::{Expr, Func, Term};

/// Returns the number to which an expression evaluates, if it can be evaluated without a term. `None` doesn't mean that the expression has
/// no value.
#[inline(always)]
pub(crate) fn number(expr: &Expr, store: &Store) -> Option<i64>
    ensures { IfSome result (λ number. value_of store.now expr.now ≡ Some (term.Int number)) }
{
    match expr {
        Expr::Int(number) => Some(*number),
        Expr::Var(slot) => variable(*slot, store),
        Expr::Call(func, parts) => match parts.as_slice() {
            [first, second] => call(*func, first, second, store),
            _ => None,
        },
        _ => None,
    }
}

/// Returns the value of a variable, if it is a number.
pub(crate) fn variable(slot: u32, store: &Store) -> Option<i64>
    ensures { IfSome result (λ number. value_at store.now slot ≡ Some (term.Int number)) }
{
    match store.get(slot) {
        Some(Term::Int(number)) => Some(*number),
        _ => None,
    }
}

/// Returns the number of an argument that is a number or a variable.
fn leaf(expr: &Expr, store: &Store) -> Option<i64>
    ensures { IfSome result (λ number. value_of store.now expr.now ≡ Some (term.Int number)) }
{
    match expr {
        Expr::Int(number) => Some(*number),
        Expr::Var(slot) => variable(*slot, store),
        _ => None,
    }
}

fn call(func: Func, first: &Expr, second: &Expr, store: &Store) -> Option<i64>
    ensures { IfSome result (λ number. option_and_then (apply_of func)
        (all_of (map (value_of store.now) (first.now ∷ second.now ∷ [])))
        ≡ Some (term.Int number)) }
{
    let x = leaf(first, store)?;
    let y = leaf(second, store)?;
    numbered(func, x, y)
}

fn numbered(func: Func, x: i64, y: i64) -> Option<i64>
    ensures { result ≡ numbered func x y }
{
    match func {
        Func::Add => x.checked_add(y),
        Func::Sub => x.checked_sub(y),
        _ => None,
    }
}

/// Returns the truth value of a test that compares numbers, if both can be evaluated without a term. `None` doesn't mean that the test has
/// no truth value.
pub(crate) fn comparison(test: &Expr, store: &Store) -> Option<bool>
    ensures { IfSome result
        (λ says. option_and_then bool_of (value_of store.now test.now) ≡ Some says) }
{
    match test {
        Expr::Call(func, parts) => match parts.as_slice() {
            [first, second] => compared(*func, first, second, store),
            _ => None,
        },
        _ => None,
    }
}

fn compared(func: Func, first: &Expr, second: &Expr, store: &Store) -> Option<bool>
    ensures { IfSome result (λ says. option_and_then bool_of (option_and_then (apply_of func)
        (all_of (map (value_of store.now) (first.now ∷ second.now ∷ [])))) ≡ Some says) }
{
    let x = number(first, store)?;
    let y = number(second, store)?;
    ordered(func, x, y)
}

fn ordered(func: Func, x: i64, y: i64) -> Option<bool>
    ensures { result ≡ ordered func x y }
{
    match func {
        Func::Less => Some(x < y),
        Func::LessEqual => Some(x <= y),
        Func::Greater => Some(x > y),
        Func::GreaterEqual => Some(x >= y),
        _ => None,
    }
}
