//! Reads types.

ghost use Rattle.std.specs.Prelude.{◌≡◌, IfOk, Some, None, if◌then◌else◌};
ghost use Rattle.tb_parse.specs.Helpers.Parsing.{sort, word_sort, named_sort, is_list};
ghost use Rattle.tb_parse.specs.Helpers.Reading.{Meets, runs, next};

use crate::ParseFault;
use crate::reader::Reader;
use std::alloc::Global;
use tb_lex::Symbol;
use tb_terms::{Boxed, Name, NoMemory, Sort};

/// Reads a type. Returns it with the position of its innermost name. `room` bounds how deep types are nested.
#[tactic(auto, unfolding(crate::specs::Helpers::Parsing::sort))]
pub(crate) fn sort(
    alloc: Global,
    reader: &mut Reader<'_, '_>,
    room: usize,
) -> Result<(Sort, usize), ParseFault>
    ensures { Meets (runs (sort room) reader.old) result reader.new }
{
    let at = reader.position();
    if room == 0 {
        return Err(ParseFault::Syntax(at));
    }
    let name = reader.free_name(alloc)?;
    if !eat_list(&name, reader) {
        return Ok((named_sort(alloc, name)?, at));
    }
    let (members, inner) = sort(alloc, reader, room - 1)?;
    reader.skip_sign(Symbol::RightParen)?;
    Ok((Sort::List(Boxed::new(alloc, members)?), inner))
}

/// Takes the opening parenthesis if it comes next and the name is `list`. Returns whether it did.
fn eat_list(name: &Name, reader: &mut Reader<'_, '_>) -> bool
    ensures found { result ≡ is_list name.now reader.old.kinds }
    ensures behind { reader.new
        ≡ (if is_list name.now reader.old.kinds then next reader.old else reader.old) }
{
    name.as_bytes() == b"list".as_slice() && reader.eat_sign(Symbol::LeftParen)
}

/// Returns the type that a name represents: if the name isn't the word of another type, that of a tool.
fn named_sort(alloc: Global, name: Name) -> Result<Sort, NoMemory>
    ensures { IfOk result (λ made. made ≡ named_sort name (word_sort name)) }
{
    match word_sort(alloc, name.as_bytes())? {
        Some(sort) => Ok(sort),
        None => Ok(Sort::Tool(name)),
    }
}

/// Returns the type that has this word, if there is one.
#[tactic(auto, unfolding(crate::specs::Helpers::Parsing::word_sort))]
pub(crate) fn word_sort(alloc: Global, word: &[u8]) -> Result<Option<Sort>, NoMemory>
    ensures { IfOk result (λ made. made ≡ word_sort word.now) }
{
    match word {
        b"bool" => Ok(Some(Sort::Bool)),
        b"int" => Ok(Some(Sort::Int)),
        b"str" => Ok(Some(Sort::Str)),
        b"list" => Ok(Some(Sort::List(Boxed::new(alloc, Sort::Any)?))),
        b"term" => Ok(Some(Sort::Any)),
        _ => Ok(None),
    }
}
