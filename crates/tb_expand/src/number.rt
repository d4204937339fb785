//! Positions as 32-bit numbers, as they are in a body.

ghost use Rattle.std.specs.Prelude.{◌≡◌, ◌+◌, IfOk};

use tb_terms::NoMemory;

/// Returns a position as a 32-bit number. A position from 2^32 on is reported as `NoMemory`.
pub(crate) fn number(position: usize) -> Result<u32, NoMemory>
    ensures { IfOk result (λ number. number ≡ position) }
{
    match u32::try_from(position) {
        Ok(number) => Ok(number),
        Err(_) => Err(NoMemory),
    }
}

/// Returns the next number. If it doesn't fit in 32 bits, the error is `NoMemory`.
pub(crate) fn following(number: u32) -> Result<u32, NoMemory>
    ensures { IfOk result (λ next. next ≡ number + 1) }
{
    match number.checked_add(1) {
        Some(next) => Ok(next),
        None => Err(NoMemory),
    }
}
