//! Reads processes.

ghost use Rattle.std.specs.Prelude.{◌≡◌, IfOk};
ghost use Rattle.tb_syntax.specs.declared.proc.Proc.{Proc};
ghost use Rattle.tb_syntax.specs.declared.proc.Proc.TheVariants as tree;
ghost use Rattle.tb_parse.specs.declared.built.Built.{Built};
ghost use Rattle.tb_parse.specs.Helpers.Parsing.{proc, prim, transfer, turns, prim_of, lower_proc, upper_proc, timed, block, conditional, sides};
ghost use Rattle.tb_parse.specs.Helpers.Heights.{built, as_built, creation, chained, member, sign_of};
ghost use Rattle.tb_parse.specs.Helpers.Reading.{Meets, runs};

use crate::ParseFault;
use crate::atoms::{call_of, create, times, vars};
use crate::built::{Built, Chain, either, joined, leaf, only, turn, within};
use crate::exprs::{arguments, expr};
use crate::reader::Reader;
use std::alloc::Global;
use tb_lex::{LowerWord, Symbol, TokenKind};
use tb_syntax::{ActDef, Ast, AtomDef, Proc, TimeDefs, is_atom_word};
use tb_terms::{Ident, Items, NoMemory};

/// Reads a whole process. `room` bounds how deep processes are nested, and how long a chain or a list in one is.
#[tactic(auto, unfolding(crate::specs::Helpers::Parsing::proc))]
pub(crate) fn proc(
    alloc: Global,
    reader: &mut Reader<'_, '_>,
    room: usize,
) -> Result<Built, ParseFault>
    ensures { Meets (runs (as_built (proc room)) reader.old) result reader.new }
{
    chain(alloc, reader, room, Chain::Disrupt)
}

/// Reads one member of a chain or more, with the operator of the chain between each two.
#[cycle(procs)]
fn chain(
    alloc: Global,
    reader: &mut Reader<'_, '_>,
    room: usize,
    link: Chain,
) -> Result<Built, ParseFault>
    ensures { Meets (runs (as_built (chained link room)) reader.old) result reader.new }
{
    let sign = sign_of(link);
    let mut prefix = Items::new(alloc);
    for _turn in 0..room {
        let x = member(alloc, reader, room, link)?;
        if !reader.eat_sign(sign) {
            return Ok(joined(alloc, link, prefix, x)?);
        }
        prefix.push(x)?;
    }
    Err(ParseFault::Syntax(reader.position()))
}

fn sign_of(link: Chain) -> Symbol
    ensures { result ≡ sign_of link }
{
    match link {
        Chain::Disrupt => Symbol::Angles,
        Chain::Par => Symbol::Bars,
        Chain::Alt => Symbol::Plus,
        Chain::Seq => Symbol::Point,
    }
}

/// Reads a member of a chain: its operators bind tighter than the operator of the chain.
#[cycle(procs)]
fn member(
    alloc: Global,
    reader: &mut Reader<'_, '_>,
    room: usize,
    link: Chain,
) -> Result<Built, ParseFault>
    ensures { Meets (runs (as_built (member link room)) reader.old) result reader.new }
{
    match link {
        Chain::Disrupt => chain(alloc, reader, room, Chain::Par),
        Chain::Par => chain(alloc, reader, room, Chain::Alt),
        Chain::Alt => chain(alloc, reader, room, Chain::Seq),
        Chain::Seq => turns(alloc, reader, room),
    }
}

/// Reads one process or more, with `*` between each two, joined from the left.
#[cycle(procs)]
fn turns(alloc: Global, reader: &mut Reader<'_, '_>, room: usize) -> Result<Built, ParseFault>
    ensures { Meets (runs (as_built (turns (prim room) room)) reader.old) result reader.new }
{
    let mut whole = prim(alloc, reader, room)?;
    for _turn in 0..room {
        if !reader.eat_sign(Symbol::Star) {
            return Ok(whole);
        }
        let last = prim(alloc, reader, room)?;
        whole = turn(alloc, whole, last)?;
    }
    Err(ParseFault::Syntax(reader.position()))
}

/// Reads an atom, a call, a `let`, an `if`, or a process in parentheses.
#[tactic(auto, unfolding(crate::specs::Helpers::Parsing::prim))]
#[cycle(procs)]
fn prim(alloc: Global, reader: &mut Reader<'_, '_>, room: usize) -> Result<Built, ParseFault>
    ensures { Meets (runs (as_built (prim room)) reader.old) result reader.new }
{
    if room == 0 {
        return Err(ParseFault::Syntax(reader.position()));
    }
    prim_of(alloc, reader, room - 1)
}

#[tactic(auto, unfolding(crate::specs::Helpers::Parsing::prim_of))]
#[cycle(procs)]
fn prim_of(alloc: Global, reader: &mut Reader<'_, '_>, room: usize) -> Result<Built, ParseFault>
    ensures { Meets
        (runs (as_built (prim_of (transfer (prim room) room) room)) reader.old) result reader.new }
{
    let token = reader.position();
    match reader.take() {
        Some(TokenKind::Lower(name)) => lower_proc(alloc, reader, room, name, token),
        Some(TokenKind::Upper(name)) => {
            let name = name.copy(alloc)?;
            upper_proc(alloc, reader, room, name, token)
        }
        Some(TokenKind::Symbol(Symbol::LeftParen)) => {
            let whole = chain(alloc, reader, room, Chain::Disrupt)?;
            reader.skip_sign(Symbol::RightParen)?;
            Ok(whole)
        }
        _ => Err(ParseFault::Syntax(token)),
    }
}

/// Reads the rest of an assignment or of a call. Its name is at the position `token`, and has been taken already.
#[tactic(auto, using(crate::proofs::Trees::built_call), unfolding(crate::specs::Helpers::Parsing::upper_proc))]
fn upper_proc(
    alloc: Global,
    reader: &mut Reader<'_, '_>,
    room: usize,
    name: Ident,
    token: usize,
) -> Result<Built, ParseFault>
    ensures { Meets (runs (as_built (upper_proc room name token)) reader.old) result reader.new }
{
    if !reader.eat_sign(Symbol::Assign) {
        let call = call_of(alloc, reader, room, name, token)?;
        return Ok(leaf(alloc, Proc::Call(call))?);
    }
    let value = expr(alloc, reader, room)?;
    timed(alloc, reader, room, token, ActDef::Set(name, value))
}

/// Reads the time conditions of an atom that begins at the position `token`. Returns the whole atom.
fn timed(
    alloc: Global,
    reader: &mut Reader<'_, '_>,
    room: usize,
    token: usize,
    act: ActDef,
) -> Result<Built, ParseFault>
    ensures { Meets (runs (as_built (timed room token act)) reader.old) result reader.new }
{
    let times = times(alloc, reader, room)?;
    Ok(atom(alloc, act, times, token)?)
}

fn atom(alloc: Global, act: ActDef, times: TimeDefs, token: usize) -> Result<Built, NoMemory>
    ensures { IfOk result (λ made. made
        ≡ Built.Tree (tree.Atom (record { act = act; times = times; token = token })) 1) }
{
    leaf(alloc, Proc::Atom(AtomDef { act, times, token }))
}

/// Reads the rest of an atom after the word `create`, which is at the position `token`, with its time conditions.
fn creation(
    alloc: Global,
    reader: &mut Reader<'_, '_>,
    room: usize,
    token: usize,
) -> Result<Built, ParseFault>
    ensures { Meets (runs (as_built (creation room token)) reader.old) result reader.new }
{
    let act = create(alloc, reader, room)?;
    timed(alloc, reader, room, token, act)
}

/// Reads the rest of a process that begins with this word. The word is at the position `token`, and has been taken already.
#[tactic(auto, unfolding(crate::specs::Helpers::Parsing::lower_proc))]
#[cycle(procs)]
fn lower_proc(
    alloc: Global,
    reader: &mut Reader<'_, '_>,
    room: usize,
    name: &LowerWord,
    token: usize,
) -> Result<Built, ParseFault>
    ensures { Meets
        (runs (as_built (lower_proc (transfer (prim room) room) room name.now token)) reader.old)
        result reader.new }
{
    let word = name.as_bytes();
    if word == b"let".as_slice() {
        return block(alloc, reader, room);
    }
    if word == b"if".as_slice() {
        return test(alloc, reader, room);
    }
    if word == b"create".as_slice() {
        return creation(alloc, reader, room, token);
    }
    if !is_atom_word(word) {
        return Err(ParseFault::Syntax(token));
    }
    let name = name.copy(alloc)?;
    let act = ActDef::Named(name, arguments(alloc, reader, room)?);
    timed(alloc, reader, room, token, act)
}

/// Reads the rest of a `let` after this word.
#[tactic(auto, unfolding(crate::specs::Helpers::Parsing::block))]
#[cycle(procs)]
fn block(alloc: Global, reader: &mut Reader<'_, '_>, room: usize) -> Result<Built, ParseFault>
    ensures { Meets
        (runs (as_built (block (transfer (prim room) room) room)) reader.old) result reader.new }
{
    let vars = vars(alloc, reader, room)?;
    reader.skip_word(b"in")?;
    let x = chain(alloc, reader, room, Chain::Disrupt)?;
    reader.skip_word(b"endlet")?;
    Ok(within(alloc, vars, x)?)
}

/// Reads the rest of an `if` after this word.
#[tactic(auto, unfolding(crate::specs::Helpers::Parsing::conditional))]
#[cycle(procs)]
fn test(alloc: Global, reader: &mut Reader<'_, '_>, room: usize) -> Result<Built, ParseFault>
    ensures { Meets
        (runs (as_built (conditional (transfer (prim room) room) room)) reader.old) result reader.new }
{
    let value = expr(alloc, reader, room)?;
    reader.skip_word(b"then")?;
    let x = chain(alloc, reader, room, Chain::Disrupt)?;
    sides(alloc, reader, room, value, x)
}

/// Reads the rest of an `if` after its first process: `fi`, or `else`, a process, and `fi`.
#[tactic(auto, unfolding(crate::specs::Helpers::Parsing::sides))]
#[cycle(procs)]
fn sides(
    alloc: Global,
    reader: &mut Reader<'_, '_>,
    room: usize,
    test: Ast,
    x: Built,
) -> Result<Built, ParseFault>
    ensures { (p : Proc) → x ≡ built p → Meets
        (runs (as_built (sides (transfer (prim room) room) test p)) reader.old) result reader.new }
{
    if !reader.eat_word(b"else") {
        reader.skip_word(b"fi")?;
        return Ok(only(alloc, test, x)?);
    }
    let y = chain(alloc, reader, room, Chain::Disrupt)?;
    reader.skip_word(b"fi")?;
    Ok(either(alloc, test, x, y)?)
}
