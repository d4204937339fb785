//! Writes the place with which a line about a script begins.
ghost use Rattle.std.specs.Prelude.{◌≡◌, ◌++◌, ◌∷◌, OnOk, codes, decimal};
ghost use Rattle.tb_source_map.specs.declared.spot.Spot.{Spot};
ghost use Rattle.tb_fault_place.specs.Standing.{place_text, spot_of_mark};

use itoa::Buffer;
use tb_source_map::{Mark, Spot, spot_at};
use tb_terms::NoMemory;

/// Appends the name of the file, and the line and the column of the mark's first byte if there is a mark, each with a colon after it.
/// Then appends a space. If memory runs out, a part of this text may be appended.
pub fn write_place(
    name: &str,
    text: &[u8],
    mark: &Option<Mark>,
    into: &mut Vec<u8>,
) -> Result<(), NoMemory>
    ensures { OnOk result (into.new.items ≡ into.old.items
        ++ place_text name.now (spot_of_mark text.now mark.now)) }
{
    into.extend_from_slice(name.as_bytes())?;
    match mark {
        None => {
            into.extend_from_slice(b": ")?;
            Ok(())
        }
        Some(mark) => {
            push_spot(spot_at(text, mark.from), into)?;
            Ok(())
        }
    }
}

fn push_spot(spot: Spot, into: &mut Vec<u8>) -> Result<(), NoMemory>
    ensures { OnOk result (into.new.items ≡ into.old.items
        ++ 58 ∷ decimal spot.line ++ 58 ∷ decimal spot.column ++ codes ": ") }
{
    into.push(b':')?;
    push_number(spot.line, into)?;
    into.push(b':')?;
    push_number(spot.column, into)?;
    into.extend_from_slice(b": ")?;
    Ok(())
}

fn push_number(number: usize, into: &mut Vec<u8>) -> Result<(), NoMemory>
    ensures { OnOk result (into.new.items ≡ into.old.items ++ decimal number) }
{
    let mut buffer = Buffer::new();
    into.extend_from_slice(buffer.format(number).as_bytes())?;
    Ok(())
}
