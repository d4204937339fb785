//! The state of `printf` between two bytes of its format.
ghost use Rattle.std.specs.Prelude.{◌≡◌, ◌++◌, ◌∷◌, [], ℕ, false, List, Some, None, Option, IfOk, OnOk, option_map, if◌then◌else◌};
ghost use Rattle.std.specs.Fmt.{signed_decimal};
ghost use Rattle.tb_func.specs.Printing.{shown};

use itoa::Buffer;
use std::alloc::Global;
use tb_terms::{NoMemory, Term, write_term};

/// The text so far, the number of arguments in it, and whether the last byte was a `%` that the next byte completes.
#[derive(Drop)]
pub(crate) struct Printer {
    text: Vec<u8>,
    taken: usize,
    is_after_percent: bool,
}

impl Printer {
    ghost use Rattle.std.specs.Prelude.{◌≡◌, ◌∷◌, [], ℕ, true, false, List, None, IfOk, option_map, if◌then◌else◌};
    ghost use Rattle.std.specs.Vec.{vec_items};
    ghost use Rattle.tb_func.specs.Helpers.Outputs.{in_all};

    pub(crate) fn new(alloc: Global) -> Printer
        ensures text { result.text.items ≡ [] }
        ensures taken { result.taken ≡ 0 }
        ensures begins { result.is_after_percent ≡ false }
    {
        Printer {
            text: Vec::new(alloc),
            taken: 0,
            is_after_percent: false,
        }
    }

    /// Takes the next byte of the format. Returns `false` if there is no text for these arguments, whatever the rest of the format.
    pub(crate) fn take(&mut self, byte: u8, args: &[Term]) -> Result<bool, NoMemory>
        ensures { IfOk result (λ goes. (rest : List ℕ)
            → in_all self.old (byte ∷ rest) args.now
            ≡ (if goes then in_all self.new rest args.now else None)) }
    {
        if self.is_after_percent {
            return self.directive(byte, args);
        }
        if byte == b'%' {
            self.is_after_percent = true;
        } else {
            self.text.push(byte)?;
        }
        Ok(true)
    }

    /// Takes the letter after a `%`. Returns `false` if there is no text for these arguments, whatever the rest of the format.
    fn directive(&mut self, letter: u8, args: &[Term]) -> Result<bool, NoMemory>
        ensures { IfOk result (λ goes. (rest : List ℕ)
            → in_all (record self.old { is_after_percent = true }) (letter ∷ rest) args.now
            ≡ (if goes then in_all self.new rest args.now else None)) }
    {
        self.is_after_percent = false;
        if letter == b'%' {
            self.text.push(b'%')?;
            return Ok(true);
        }
        if self.taken >= args.len() {
            return Ok(false);
        }
        let term = &args[self.taken];
        self.taken += 1;
        push_shown(letter, term, &mut self.text)
    }

    /// Returns the text at the end of the format, or `None` if the next byte must complete a `%`, or an argument is left.
    pub(crate) fn finish(self, args: &[Term]) -> Option<Vec<u8>>
        ensures { option_map (λ text. vec_items text) result ≡ in_all self [] args.now }
    {
        let Printer {
            text,
            taken,
            is_after_percent,
        } = self;
        if is_after_percent || taken < args.len() {
            return None;
        }
        Some(text)
    }
}

/// Writes the argument at the end of `into`, as the letter requires. Returns `false` if the letter isn't `d`, `s`, or `t`, or doesn't allow
/// this argument.
fn push_shown(letter: u8, term: &Term, into: &mut Vec<u8>) -> Result<bool, NoMemory>
    ensures { IfOk result
        (λ is_shown. option_map (λ text. into.old.items ++ text) (shown letter term.now)
        ≡ (if is_shown then Some into.new.items else None)) }
{
    match (letter, term) {
        (b'd', Term::Int(number)) => push_number(*number, into)?,
        (b's', Term::Str(text)) => into.extend_from_slice(text.as_bytes())?,
        (b't', _) => write_term(term, into)?,
        _ => return Ok(false),
    }
    Ok(true)
}

fn push_number(number: i64, into: &mut Vec<u8>) -> Result<(), NoMemory>
    ensures { OnOk result (into.new.items ≡ into.old.items ++ signed_decimal number) }
{
    let mut buffer = Buffer::new();
    into.extend_from_slice(buffer.format(number).as_bytes())?;
    Ok(())
}
