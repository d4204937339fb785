//! The names of the functions, and their signatures.
ghost use Rattle.std.specs.Prelude.{◌≡◌};
ghost use Rattle.tb_func.specs.Functions.{function_named, logic_named, arithmetic_named, order_named, list_named, time_named, either, signature_of, one, two};

use crate::{Shape, Signature};
use tb_terms::{Func, Name};

/// Returns the function with this name, or `None` if there is none.
pub fn function(n: &Name) -> Option<Func>
    ensures { result ≡ function_named n.now }
{
    let name = n.as_bytes();
    if let Some(func) = logic_function(name) {
        return Some(func);
    }
    if let Some(func) = arithmetic_function(name) {
        return Some(func);
    }
    if let Some(func) = order_function(name) {
        return Some(func);
    }
    if let Some(func) = list_function(name) {
        return Some(func);
    }
    time_function(name)
}

fn logic_function(name: &[u8]) -> Option<Func>
    ensures { result ≡ logic_named name.now }
{
    match name {
        b"equal" => Some(Func::Equal),
        b"not-equal" => Some(Func::NotEqual),
        b"not" => Some(Func::Not),
        b"and" => Some(Func::And),
        b"or" => Some(Func::Or),
        _ => None,
    }
}

fn arithmetic_function(name: &[u8]) -> Option<Func>
    ensures { result ≡ arithmetic_named name.now }
{
    match name {
        b"add" => Some(Func::Add),
        b"sub" => Some(Func::Sub),
        b"mul" => Some(Func::Mul),
        b"div" => Some(Func::Div),
        b"mod" => Some(Func::Mod),
        _ => None,
    }
}

fn order_function(name: &[u8]) -> Option<Func>
    ensures { result ≡ order_named name.now }
{
    match name {
        b"less" => Some(Func::Less),
        b"less-equal" => Some(Func::LessEqual),
        b"greater" => Some(Func::Greater),
        b"greater-equal" => Some(Func::GreaterEqual),
        _ => None,
    }
}

fn list_function(name: &[u8]) -> Option<Func>
    ensures { result ≡ list_named name.now }
{
    match name {
        b"size" => Some(Func::Size),
        b"first" => Some(Func::First),
        b"next" => Some(Func::Next),
        b"join" => Some(Func::Join),
        b"member" => Some(Func::Member),
        b"index" => Some(Func::Index),
        _ => None,
    }
}

fn time_function(name: &[u8]) -> Option<Func>
    ensures { result ≡ time_named name.now }
{
    match name {
        b"msec" => Some(Func::Msec),
        b"sec" => Some(Func::Sec),
        b"min" => Some(Func::Min),
        b"hour" => Some(Func::Hour),
        _ => None,
    }
}

/// Returns the number of arguments of the function, with the shapes of the arguments and of the result.
pub fn signature(f: Func) -> Signature
    ensures { result ≡ signature_of f }
{
    match f {
        Func::Equal | Func::NotEqual => two(Shape::Any, Shape::Any, Shape::Bool),
        Func::Not => one(Shape::Bool, Shape::Bool),
        Func::And | Func::Or => two(Shape::Bool, Shape::Bool, Shape::Bool),
        Func::Add | Func::Sub | Func::Mul | Func::Div | Func::Mod => {
            two(Shape::Int, Shape::Int, Shape::Int)
        }
        Func::Less | Func::LessEqual | Func::Greater | Func::GreaterEqual => {
            two(Shape::Int, Shape::Int, Shape::Bool)
        }
        Func::Size => one(Shape::List, Shape::Int),
        Func::First => one(Shape::List, Shape::Any),
        Func::Next => one(Shape::List, Shape::List),
        Func::Join => two(Shape::List, Shape::List, Shape::List),
        Func::Member => two(Shape::Any, Shape::List, Shape::Bool),
        Func::Index => two(Shape::List, Shape::Int, Shape::Any),
        Func::Msec | Func::Sec | Func::Min | Func::Hour => one(Shape::Int, Shape::Int),
    }
}

fn one(first: Shape, result_shape: Shape) -> Signature
    ensures { result ≡ one first result_shape }
{
    Signature {
        arity: 1,
        first,
        second: Shape::Any,
        result: result_shape,
    }
}

fn two(first: Shape, second: Shape, result_shape: Shape) -> Signature
    ensures { result ≡ two first second result_shape }
{
    Signature {
        arity: 2,
        first,
        second,
        result: result_shape,
    }
}
