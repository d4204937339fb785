//! The cast of a script: the data that a chart needs of the script.
#![tactic(auto)]

ghost use Rattle.std.specs.Prelude.{◌≡◌, ℕ, List, IfErr, IfOk, map, option_copied};
ghost use Rattle.tb_script.specs.Findings.{IsFound, Program'};
ghost use Rattle.tb_script.specs.Loading.{HasFault};
ghost use Rattle.tb_chart_cast.specs.Casts.{IsCast, IsCastOf, atoms_of, beside, created_by, created_by_act, role_of, seen_role, site_of};

use sqlite_items::at;
use std::alloc::Global;
use tb_body::{Act, Atom, Body, Program, Root, Tool};
use tb_chart::{Cast, Role, Site};
use tb_script::{ScriptFault, load};
use tb_source_map::{Mark, ProcessPlace, all_places};
use tb_terms::{Name, NoMemory};

/// Returns the cast of the script with these bytes, or the fault that `load` reports.
pub fn load_cast(alloc: Global, bytes: &[u8]) -> Result<Cast, ScriptFault>
    ensures ok { IfOk result (IsCastOf bytes.now) }
    ensures err { IfErr result (HasFault bytes.now) }
{
    match load(alloc, bytes) {
        Ok(program) => placed_cast(alloc, bytes, &program),
        Err(fault) => Err(fault),
    }
}

/// Returns the cast of the script with these bytes and this program, or the error of the script.
fn placed_cast(alloc: Global, bytes: &[u8], program: &Program) -> Result<Cast, ScriptFault>
    requires { IsFound bytes.now (Program' program.now) }
    ensures ok { IfOk result (IsCastOf bytes.now) }
    ensures err { IfErr result (HasFault bytes.now) }
{
    match all_places(alloc, bytes) {
        Ok(places) => Ok(cast_of(alloc, program, places.as_slice())?),
        Err(fault) => Err(fault),
    }
}

fn cast_of(alloc: Global, program: &Program, places: &[ProcessPlace]) -> Result<Cast, NoMemory>
    ensures { IfOk result (IsCast program.now places.now) }
{
    Ok(Cast {
        roots: roots_of(alloc, program.roots.as_slice())?,
        roles: roles_of(alloc, program.bodies.as_slice(), places)?,
        tools: tools_of(alloc, program.tools.as_slice())?,
    })
}

fn roots_of(alloc: Global, roots: &[Root]) -> Result<Vec<u32>, NoMemory>
    ensures { IfOk result (λ all. all.items ≡ map (λ root. root.process) roots.now) }
{
    let mut all = Vec::new(alloc);
    for root in roots {
        all.push(root.process)?;
    }
    Ok(all)
}

fn tools_of(alloc: Global, tools: &[Tool]) -> Result<Vec<Name>, NoMemory>
    ensures { IfOk result (λ all. all.items ≡ map (λ tool. tool.name) tools.now) }
{
    let mut all = Vec::new(alloc);
    for tool in tools {
        all.push(tool.name.share()?)?;
    }
    Ok(all)
}

/// Returns a role for each process definition, from its body and its place in the source.
fn roles_of(alloc: Global, bodies: &[Body], places: &[ProcessPlace]) -> Result<Vec<Role>, NoMemory>
    ensures { IfOk result
        (λ roles. map seen_role roles.items ≡ beside role_of bodies.now 0 places.now) }
{
    let mut roles = Vec::new(alloc);
    for (index, place) in places.iter().enumerate() {
        roles.push(role_of(alloc, at(bodies, index), place)?)?;
    }
    Ok(roles)
}

fn role_of(alloc: Global, body: Option<&Body>, place: &ProcessPlace) -> Result<Role, NoMemory>
    ensures { IfOk result (λ role. seen_role role ≡ role_of (option_copied body.entry) place.now) }
{
    let sites = sites_of(alloc, atoms_of(body), place.atoms.as_slice())?;
    let name = place.name.copy(alloc)?;
    Ok(Role { name, sites })
}

fn atoms_of(body: Option<&Body>) -> &[Atom]
    ensures { result.now ≡ atoms_of (option_copied body.entry) }
{
    match body {
        Some(body) => body.atoms.as_slice(),
        None => &[],
    }
}

fn sites_of(alloc: Global, atoms: &[Atom], marks: &[Mark]) -> Result<Vec<Site>, NoMemory>
    ensures { IfOk result (λ sites. sites.items ≡ beside site_of atoms.now 0 marks.now) }
{
    let mut sites = Vec::new(alloc);
    for (index, mark) in marks.iter().enumerate() {
        sites.push(site_of(at(atoms, index), *mark))?;
    }
    Ok(sites)
}

/// Returns the site of an atom: its place in the source, and the process that it creates.
fn site_of(atom: Option<&Atom>, mark: Mark) -> Site
    ensures { result ≡ site_of (option_copied atom.entry) mark }
{
    Site {
        from: mark.from,
        to: mark.to,
        creates: created_by(atom),
    }
}

fn created_by(atom: Option<&Atom>) -> Option<u32>
    ensures { result ≡ created_by (option_copied atom.entry) }
{
    match atom {
        Some(atom) => created_by_act(&atom.act),
        None => None,
    }
}

/// Returns the process definition that an act instantiates, by its index.
fn created_by_act(act: &Act) -> Option<u32>
    ensures { result ≡ created_by_act act.now }
{
    match act {
        Act::Create { process, .. } => Some(*process),
        _ => None,
    }
}
