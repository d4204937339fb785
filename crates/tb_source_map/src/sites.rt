//! Finds the places of the atoms of one process.
ghost use Rattle.std.specs.Prelude.{◌≡◌, ◌++◌, OnOk, option_map};
ghost use Rattle.std.specs.Option.{option_copied};
ghost use Rattle.tb_types.specs.Names.{process_named};
ghost use Rattle.tb_source_map.specs.Sites.{marks_of, sites, sites_called, sites_else, sites_with};

use crate::mark::{Mark, mark_at};
use sqlite_items::at;
use tb_lex::Token;
use tb_syntax::{Call, Proc, ProcDef};
use tb_terms::{Boxed, Items, NoMemory};
use tb_types::Names;

/// Adds the first tokens of the atoms of a process. In each call, at most `depth` bodies are nested, the body of the called process
/// included.
#[cycle(sites)]
#[tactic(auto, using(crate::proofs::MarkLemmas::marks_append))]
fn push_sites(
    names: &Names,
    tokens: &[Token],
    depth: usize,
    p: &Proc,
    into: &mut Items<Mark>,
) -> Result<(), NoMemory>
    ensures { OnOk result (into.new ≡ into.old ++ marks_of tokens.now
        (sites_with names.now.script.now (sites names.now.script.now depth) p.now)) }
{
    match p {
        Proc::Atom(def) => {
            into.push(mark_at(tokens, def.token))?;
            Ok(())
        }
        Proc::Call(call) => {
            push_called(names, tokens, depth, call, into)?;
            Ok(())
        }
        Proc::Seq(x, y)
        | Proc::Alt(x, y)
        | Proc::Star(x, y)
        | Proc::Par(x, y)
        | Proc::Disrupt(x, y) => {
            push_both(names, tokens, depth, x.get(), y.get(), into)?;
            Ok(())
        }
        Proc::If(_, x, y) => {
            push_sites(names, tokens, depth, x.get(), into)?;
            push_else(names, tokens, depth, y, into)?;
            Ok(())
        }
        Proc::Let(_, x) => {
            push_sites(names, tokens, depth, x.get(), into)?;
            Ok(())
        }
    }
}

#[cycle(sites)]
#[tactic(auto, using(crate::proofs::MarkLemmas::marks_append))]
fn push_both(
    names: &Names,
    tokens: &[Token],
    depth: usize,
    x: &Proc,
    y: &Proc,
    into: &mut Items<Mark>,
) -> Result<(), NoMemory>
    ensures { OnOk result (into.new ≡ into.old ++ marks_of tokens.now
        (sites_with names.now.script.now (sites names.now.script.now depth) x.now
        ++ sites_with names.now.script.now (sites names.now.script.now depth) y.now)) }
{
    push_sites(names, tokens, depth, x, into)?;
    push_sites(names, tokens, depth, y, into)?;
    Ok(())
}

#[cycle(sites)]
fn push_else(
    names: &Names,
    tokens: &[Token],
    depth: usize,
    y: &Option<Boxed<Proc>>,
    into: &mut Items<Mark>,
) -> Result<(), NoMemory>
    ensures { OnOk result (into.new ≡ into.old ++ marks_of tokens.now (sites_else
        (option_map (sites_with names.now.script.now (sites names.now.script.now depth)) y.now))) }
{
    match y {
        None => Ok(()),
        Some(y) => {
            push_sites(names, tokens, depth, y.get(), into)?;
            Ok(())
        }
    }
}

/// Adds the first tokens of the atoms of the called process, if a process has this name. At most `depth` bodies are nested, its body
/// included.
#[cycle(sites)]
fn push_called(
    names: &Names,
    tokens: &[Token],
    depth: usize,
    call: &Call,
    into: &mut Items<Mark>,
) -> Result<(), NoMemory>
    ensures { OnOk result (into.new ≡ into.old ++ marks_of tokens.now (sites_called
        (sites names.now.script.now depth)
        (process_named names.now.script.now.procs call.now.name))) }
{
    let Some(def) = definition_of(names, call.name.as_bytes()) else {
        return Ok(());
    };
    push_body(names, tokens, depth, &def.body, into)?;
    Ok(())
}

/// Adds the first tokens of the atoms of a body. At most `depth` bodies are nested, this body included.
#[cycle(sites)]
pub(crate) fn push_body(
    names: &Names,
    tokens: &[Token],
    depth: usize,
    body: &Proc,
    into: &mut Items<Mark>,
) -> Result<(), NoMemory>
    ensures { OnOk result (into.new ≡ into.old
        ++ marks_of tokens.now (sites names.now.script.now depth body.now)) }
{
    if depth == 0 {
        return Ok(());
    }
    push_sites(names, tokens, depth - 1, body, into)?;
    Ok(())
}

/// Returns the definition of the process with this name.
#[tactic(auto, using(tb_expand::proofs::Lookups::defined_at, tb_expand::proofs::Lookups::not_defined))]
fn definition_of<'a>(names: &Names<'a>, name: &[u8]) -> Option<&'a ProcDef>
    ensures { option_copied result ≡ process_named names.now.script.now.procs name.now }
{
    match names.process_position(name) {
        None => None,
        Some(position) => at(names.script.procs.as_slice(), position),
    }
}
