//! The first of several violations.

ghost use Rattle.std.specs.Prelude.{◌≡◌};
ghost use Rattle.tb_types.specs.Numbers.{number_of};
ghost use Rattle.tb_types.specs.Helpers.First.{is_before, earlier, first_of};

use crate::violation::{Rule, Violation};

/// Returns the first violation: by the number of the condition, then by the token.
pub(crate) fn first(violation: &[Violation]) -> Option<Violation>
    ensures { result ≡ first_of violation.now }
{
    let mut first = None;
    for next in violation {
        first = earlier(first, *next);
    }
    first
}

fn earlier(so_far: Option<Violation>, next: Violation) -> Option<Violation>
    ensures { result ≡ earlier so_far next }
{
    match so_far {
        Some(so_far) if !is_before(next, so_far) => Some(so_far),
        _ => Some(next),
    }
}

fn is_before(one: Violation, other: Violation) -> bool
    ensures { result ≡ is_before one other }
{
    let (number, other_number) = (number_of(one.rule), number_of(other.rule));
    number < other_number || (number == other_number && one.token < other.token)
}

/// Returns the number of a condition, from 1.
fn number_of(rule: Rule) -> u8
    ensures { result ≡ number_of rule }
{
    match rule {
        Rule::Twice => 1,
        Rule::NoProcess => 2,
        Rule::NoTool => 3,
        Rule::NoFunction => 4,
        Rule::Arity => 5,
        Rule::Undeclared => 6,
        Rule::ResultInSend => 7,
        Rule::NotResult => 8,
        Rule::TypeClash => 9,
    }
}
