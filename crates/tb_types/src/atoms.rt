//! The violations of atoms: of their arguments, by the kind of place and the expectation of each, and of their times.

ghost use Rattle.std.specs.Prelude.{◌≡◌, ◌++◌, OnOk};
ghost use Rattle.std.specs.List.{flat_map};
ghost use Rattle.tb_types.specs.Atoms.{word_of, is_wrong_count, first_position, other_position, first_expected_sort, other_expected_sort, arguments_faults, named_faults, set_faults, act_faults, time_faults, atom_faults};
ghost use Rattle.tb_terms.specs.declared.sort.Sort.TheVariants as sorts;
ghost use Rattle.tb_types.specs.Calls.{call_faults};
ghost use Rattle.tb_types.specs.ExpectedSorts.{expected_sort_of, site_faults, made, tested};
ghost use Rattle.tb_types.specs.Scopes.{visible, sort_in};

use crate::calls::{Manner, push_call};
use crate::expected_sorts::{ExpectedSort, Site, name_alone, push_site};
use crate::names::Names;
use crate::positions::Position;
use crate::scope::{Scope, sort_of};
use crate::violation::{Rule, Violation, note_if};
use std::alloc::Global;
use tb_syntax::{ActDef, Ast, AtomDef, AtomWord, Call, TimeDef, atom_word};
use tb_terms::{Ident, Items, NoMemory, Sort};

/// Returns the word of an atom. No source parses as an atom with another name; for such a name, the result is `Delta`.
fn word_of(name: &[u8]) -> AtomWord
    ensures { result ≡ word_of name.now }
{
    match atom_word(name) {
        Some(word) => word,
        None => AtomWord::Delta,
    }
}

fn is_wrong_count(fewest: usize, takes_more: bool, count: usize) -> bool
    ensures { result ≡ is_wrong_count fewest takes_more count }
{
    count < fewest || (!takes_more && fewest < count)
}

fn first_position(word: AtomWord) -> Position
    ensures { result ≡ first_position word }
{
    match word {
        AtomWord::Delta
        | AtomWord::Tau
        | AtomWord::Printf
        | AtomWord::SndMsg
        | AtomWord::SndNote
        | AtomWord::Execute
        | AtomWord::SndEval
        | AtomWord::RecValue
        | AtomWord::SndDo
        | AtomWord::RecEvent
        | AtomWord::SndAckEvent
        | AtomWord::SndTerminate
        | AtomWord::Shutdown => Position::Sent,
        AtomWord::RecMsg | AtomWord::RecNote => Position::Received,
        AtomWord::NoNote | AtomWord::Subscribe | AtomWord::Unsubscribe => Position::Noted,
        AtomWord::RecConnect | AtomWord::RecDisconnect => Position::Taken,
    }
}

fn other_position(word: AtomWord) -> Position
    ensures { result ≡ other_position word }
{
    match word {
        AtomWord::Delta
        | AtomWord::Tau
        | AtomWord::Printf
        | AtomWord::SndMsg
        | AtomWord::SndNote
        | AtomWord::RecConnect
        | AtomWord::RecDisconnect
        | AtomWord::SndEval
        | AtomWord::SndDo
        | AtomWord::SndAckEvent
        | AtomWord::SndTerminate
        | AtomWord::Shutdown => Position::Sent,
        AtomWord::RecMsg | AtomWord::RecNote | AtomWord::RecValue | AtomWord::RecEvent =>
            Position::Received,
        AtomWord::NoNote | AtomWord::Subscribe | AtomWord::Unsubscribe => Position::Noted,
        AtomWord::Execute => Position::Taken,
    }
}

/// Returns what an atom with this first argument requires of its other arguments.
fn other_expected_sort(word: AtomWord, first: &Ast) -> ExpectedSort<'_>
    ensures { expected_sort_of result ≡ other_expected_sort word first.now }
{
    match word {
        AtomWord::Delta
        | AtomWord::Tau
        | AtomWord::Printf
        | AtomWord::SndMsg
        | AtomWord::RecMsg
        | AtomWord::SndNote
        | AtomWord::RecNote
        | AtomWord::NoNote
        | AtomWord::Subscribe
        | AtomWord::Unsubscribe
        | AtomWord::RecConnect
        | AtomWord::RecDisconnect
        | AtomWord::SndEval
        | AtomWord::RecValue
        | AtomWord::SndDo
        | AtomWord::RecEvent
        | AtomWord::SndAckEvent
        | AtomWord::SndTerminate
        | AtomWord::Shutdown => ExpectedSort::Plain,
        AtomWord::Execute => ExpectedSort::Started(name_alone(&first.kind)),
    }
}

/// Adds all violations of an atom and its times.
pub(crate) fn push_atom(
    alloc: Global,
    names: &Names,
    scope: &Scope,
    atom: &AtomDef,
    into: &mut Items<Violation>,
) -> Result<(), NoMemory>
    ensures { OnOk result
        (into.new ≡ into.old ++ atom_faults names.now.script.now (visible scope.now) atom.now) }
{
    push_act(alloc, names, scope, &atom.act, atom.token, into)?;
    push_times(alloc, names, scope, atom.times.as_slice(), into)?;
    Ok(())
}

fn push_act(
    alloc: Global,
    names: &Names,
    scope: &Scope,
    act: &ActDef,
    token: usize,
    into: &mut Items<Violation>,
) -> Result<(), NoMemory>
    ensures { OnOk result
        (into.new ≡ into.old ++ act_faults names.now.script.now (visible scope.now) act.now token) }
{
    match act {
        ActDef::Set(name, value) => {
            push_set(alloc, names, scope, name, value, token, into)?;
            Ok(())
        }
        ActDef::Create(call, variable) => {
            push_create(alloc, names, scope, call, variable, into)?;
            Ok(())
        }
        ActDef::Named(name, arguments) => {
            let word = word_of(name.as_bytes());
            let is_wrong = is_wrong_count(word.fewest(), word.takes_more(), arguments.len());
            note_if(is_wrong, Rule::Arity, token, into)?;
            push_arguments(alloc, names, scope, word, arguments.as_slice(), into)?;
            Ok(())
        }
    }
}

fn push_set(
    alloc: Global,
    names: &Names,
    scope: &Scope,
    name: &Ident,
    value: &Ast,
    token: usize,
    into: &mut Items<Violation>,
) -> Result<(), NoMemory>
    ensures { OnOk result (into.new ≡ into.old ++ set_faults names.now.script.now
        (visible scope.now) (sort_in (visible scope.now) name.now) value.now token) }
{
    let position = Position::Sent;
    match sort_of(scope, name) {
        None => {
            note_if(true, Rule::Undeclared, token, into)?;
            let expected_sort = ExpectedSort::Plain;
            push_site(
                alloc,
                names,
                scope,
                &Site {
                    position,
                    expected_sort,
                },
                value,
                into,
            )?;
            Ok(())
        }
        Some(sort) => {
            let expected_sort = ExpectedSort::OfSort(sort);
            push_site(
                alloc,
                names,
                scope,
                &Site {
                    position,
                    expected_sort,
                },
                value,
                into,
            )?;
            Ok(())
        }
    }
}

fn push_create(
    alloc: Global,
    names: &Names,
    scope: &Scope,
    call: &Call,
    variable: &Ast,
    into: &mut Items<Violation>,
) -> Result<(), NoMemory>
    ensures { OnOk result (into.new ≡ into.old
        ++ (call_faults names.now.script.now (visible scope.now) Manner.Made call.now
        ++ site_faults names.now.script.now (visible scope.now) Position.Taken made variable.now)) }
{
    push_call(alloc, names, scope, Manner::Made, call, into)?;
    let site = Site {
        position: Position::Taken,
        expected_sort: ExpectedSort::Made,
    };
    push_site(alloc, names, scope, &site, variable, into)?;
    Ok(())
}

fn push_arguments(
    alloc: Global,
    names: &Names,
    scope: &Scope,
    word: AtomWord,
    arguments: &[Ast],
    into: &mut Items<Violation>,
) -> Result<(), NoMemory>
    ensures { OnOk result (into.new ≡ into.old
        ++ arguments_faults names.now.script.now (visible scope.now) word arguments.now) }
{
    match arguments {
        [] => Ok(()),
        [first, others @ ..] => {
            push_first(alloc, names, scope, word, first, into)?;
            let site = Site {
                position: other_position(word),
                expected_sort: other_expected_sort(word, first),
            };
            push_others(alloc, names, scope, &site, others, into)?;
            Ok(())
        }
    }
}

/// Adds the violations of the first argument.
fn push_first(
    alloc: Global,
    names: &Names,
    scope: &Scope,
    word: AtomWord,
    first: &Ast,
    into: &mut Items<Violation>,
) -> Result<(), NoMemory>
    ensures { OnOk result (into.new ≡ into.old ++ site_faults names.now.script.now
        (visible scope.now) (first_position word) (first_expected_sort word) first.now) }
{
    let text = Sort::Str;
    let site = Site {
        position: first_position(word),
        expected_sort: first_expected_sort(word, &text),
    };
    push_site(alloc, names, scope, &site, first, into)?;
    Ok(())
}

/// Returns what an atom requires of its first argument. `text` is the type of strings.
fn first_expected_sort(word: AtomWord, text: &Sort) -> ExpectedSort<'_>
    requires { text.now ≡ sorts.Str }
    ensures { expected_sort_of result ≡ first_expected_sort word }
{
    match word {
        AtomWord::Delta
        | AtomWord::Tau
        | AtomWord::SndMsg
        | AtomWord::RecMsg
        | AtomWord::SndNote
        | AtomWord::RecNote
        | AtomWord::NoNote
        | AtomWord::Subscribe
        | AtomWord::Unsubscribe
        | AtomWord::Shutdown => ExpectedSort::Plain,
        AtomWord::Printf => ExpectedSort::OfSort(text),
        AtomWord::Execute => ExpectedSort::Command,
        AtomWord::RecConnect => ExpectedSort::Connected,
        AtomWord::RecDisconnect => ExpectedSort::Disconnected,
        AtomWord::SndEval
        | AtomWord::RecValue
        | AtomWord::SndDo
        | AtomWord::RecEvent
        | AtomWord::SndAckEvent
        | AtomWord::SndTerminate => ExpectedSort::OfTool,
    }
}

fn push_others(
    alloc: Global,
    names: &Names,
    scope: &Scope,
    site: &Site,
    others: &[Ast],
    into: &mut Items<Violation>,
) -> Result<(), NoMemory>
    ensures { OnOk result (into.new ≡ into.old
        ++ flat_map (site_faults names.now.script.now (visible scope.now) site.now.position
        (expected_sort_of site.now.expected_sort)) others.now) }
{
    for other in others {
        push_site(alloc, names, scope, site, other, into)?;
    }
    Ok(())
}

fn push_times(
    alloc: Global,
    names: &Names,
    scope: &Scope,
    times: &[TimeDef],
    into: &mut Items<Violation>,
) -> Result<(), NoMemory>
    ensures { OnOk result (into.new ≡ into.old
        ++ flat_map (time_faults names.now.script.now (visible scope.now)) times.now) }
{
    for time in times {
        push_tested(alloc, names, scope, &Sort::Int, &time.value, into)?;
    }
    Ok(())
}

/// Adds the violations of a test or a time value, which must fit this type.
pub(crate) fn push_tested(
    alloc: Global,
    names: &Names,
    scope: &Scope,
    sort: &Sort,
    expr: &Ast,
    into: &mut Items<Violation>,
) -> Result<(), NoMemory>
    ensures { OnOk result (into.new ≡ into.old ++ site_faults names.now.script.now
        (visible scope.now) Position.Sent (tested sort.now) expr.now) }
{
    let site = Site {
        position: Position::Sent,
        expected_sort: ExpectedSort::Tested(sort),
    };
    push_site(alloc, names, scope, &site, expr, into)?;
    Ok(())
}
