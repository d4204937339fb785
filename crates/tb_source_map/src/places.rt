//! Finds the places of all processes of a script.
ghost use Rattle.std.specs.Prelude.{◌≡◌, ◌++◌, ℕ, List, IfOk, IfErr, OnOk, map};
ghost use Rattle.tb_script.specs.Loading.{HasFault};
ghost use Rattle.tb_source_map.specs.Places.{ArePlaces, IsAcceptedText, place_of};
ghost use Rattle.tb_source_map.specs.Sites.{marks_of, sites_of};

use crate::mark::{Mark, mark_at};
use crate::sites::push_body;
use std::alloc::Global;
use tb_lex::{Token, lex};
use tb_parse::parse;
use tb_script::{ScriptFault, accept};
use tb_syntax::{ProcDef, Script};
use tb_terms::{Ident, Items, NoMemory};
use tb_types::Names;

/// The places of a process and of its atoms in the script.
#[derive(Drop)]
pub struct ProcessPlace {
    /// The name of the process.
    pub name: Ident,
    /// The word `process` of its definition.
    pub mark: Mark,
    /// The first token of each atom of its expansion. The atom with number n has its token at position n - 1.
    pub atoms: Items<Mark>,
}

/// The places of the processes of a script, in order of definition. The bodies of its program have the same order.
pub type Places = Items<ProcessPlace>;

/// Returns the places of a script that is accepted, or the reason why the script is rejected.
pub fn all_places(alloc: Global, bytes: &[u8]) -> Result<Places, ScriptFault>
    ensures ok { IfOk result (ArePlaces bytes.now) }
    ensures accepted { IfOk result (λ places. IsAcceptedText bytes.now) }
    ensures err { IfErr result (HasFault bytes.now) }
{
    match accept(alloc, bytes) {
        Ok(()) => Ok(places_of_bytes(alloc, bytes)?),
        Err(fault) => Err(fault),
    }
}

/// Returns the places of a script that is accepted.
fn places_of_bytes(alloc: Global, bytes: &[u8]) -> Result<Places, NoMemory>
    ensures { IfOk result (ArePlaces bytes.now) }
{
    let Ok(tokens) = lex(alloc, bytes) else {
        return Err(NoMemory);
    };
    let Ok(script) = parse(alloc, &tokens) else {
        return Err(NoMemory);
    };
    Ok(places_of(alloc, &script, tokens.as_slice())?)
}

fn places_of(alloc: Global, script: &Script, tokens: &[Token]) -> Result<Places, NoMemory>
    ensures { IfOk result (λ places. places
        ≡ map (place_of tokens.now script.now) script.now.procs) }
{
    let names = Names::of(alloc, script)?;
    let mut places = Items::new(alloc);
    for def in script.procs.as_slice() {
        places.push(place_of(alloc, &names, tokens, def)?)?;
    }
    Ok(places)
}

fn place_of(
    alloc: Global,
    names: &Names,
    tokens: &[Token],
    def: &ProcDef,
) -> Result<ProcessPlace, NoMemory>
    ensures { IfOk result (λ place. place ≡ place_of tokens.now names.now.script.now def.now) }
{
    let mut atoms = Items::new(alloc);
    push_body(
        names,
        tokens,
        names.script.procs.len(),
        &def.body,
        &mut atoms,
    )?;
    Ok(ProcessPlace {
        name: def.name.copy(alloc)?,
        mark: mark_at(tokens, def.token),
        atoms,
    })
}
