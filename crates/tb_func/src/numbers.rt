//! Functions of numbers, and of times.
ghost use Rattle.std.specs.Prelude.{◌≡◌, ◌*◌, ◌+ℤ◌, ◌-ℤ◌, ◌*ℤ◌};
ghost use Rattle.std.specs.Int.{div_ceil};
ghost use Rattle.tb_func.specs.Numbers.{ranged, quotient, remainder, arithmetic, order, ticks, time};

use tb_terms::Func;

pub(crate) fn arithmetic(f: Func, x: i64, y: i64) -> Option<i64>
    ensures { result ≡ arithmetic f x y }
{
    match f {
        Func::Add => sum(x, y),
        Func::Sub => difference(x, y),
        Func::Mul => product(x, y),
        Func::Div => quotient(x, y),
        Func::Mod => remainder(x, y),
        _ => None,
    }
}

fn sum(x: i64, y: i64) -> Option<i64>
    ensures { result ≡ ranged (x +ℤ y) }
{
    x.checked_add(y)
}

fn difference(x: i64, y: i64) -> Option<i64>
    ensures { result ≡ ranged (x -ℤ y) }
{
    x.checked_sub(y)
}

fn product(x: i64, y: i64) -> Option<i64>
    ensures { result ≡ ranged (x *ℤ y) }
{
    x.checked_mul(y)
}

fn quotient(x: i64, y: i64) -> Option<i64>
    ensures { result ≡ quotient x y }
{
    x.checked_div(y)
}

fn remainder(x: i64, y: i64) -> Option<i64>
    ensures { result ≡ remainder x y }
{
    x.checked_rem(y)
}

pub(crate) fn order(f: Func, x: i64, y: i64) -> bool
    ensures { result ≡ order f x y }
{
    match f {
        Func::Less => x < y,
        Func::LessEqual => x <= y,
        Func::Greater => x > y,
        Func::GreaterEqual => x >= y,
        _ => false,
    }
}

/// Returns the number of ticks, of a tenth of a second, of a time in the unit of this function. Returns `None` if the time is
/// negative, if 64 bits can't hold the number, or if the function isn't one of times.
pub(crate) fn time(f: Func, n: i64) -> Option<i64>
    ensures { result ≡ time f n }
{
    match f {
        Func::Msec => hundredths(n),
        Func::Sec => multiple(n, 10),
        Func::Min => multiple(n, 600),
        Func::Hour => multiple(n, 36_000),
        _ => None,
    }
}

fn hundredths(n: i64) -> Option<i64>
    ensures { result ≡ ticks (λ k. div_ceil k 100) n }
{
    if n < 0 {
        None
    } else {
        Some((n as u64).div_ceil(100) as i64)
    }
}

fn multiple(n: i64, factor: u32) -> Option<i64>
    ensures { result ≡ ticks (λ k. k * factor) n }
{
    if n < 0 {
        None
    } else {
        product(n, i64::from(factor))
    }
}
