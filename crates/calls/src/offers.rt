//! Calls for bodies of processes, which are written as in scripts: the offers of a process, whether an atom is ready, and the sent values
//! and the patterns of atoms.

use crate::fault::Fault;
use crate::shared::shared_body;
use crate::texts::{
    first, found, none, number, one, said, term, term_text, terms, two, utf8, yes_or_no,
};
use crate::walkers::{count_bound, explored, seen_after};
use std::alloc::Global;
use tb_body::{Act, Body, Program};
use tb_code::{Code, Span, compile};
use tb_func::{Store, eval, pattern};
use tb_match::{Binds, copy_binds, match_list, match_term};
use tb_process_steps::{Rewriter, is_ready};
use tb_script::{ScriptFault, load};
use tb_terms::{
    Expr, Exprs, Items, NoMemory, Patterns, Sort, Terms, copy_patterns, has_sort, initial,
    write_term,
};
use tb_walk::Walk;

pub(crate) fn answer(
    alloc: Global,
    name: &str,
    args: &[Vec<u8>],
) -> Result<Option<Vec<u8>>, Fault> {
    if !is_call(name) {
        return Ok(None);
    }
    let (text, others) = first(args)?;
    let body = body_for(alloc, name, text)?;
    over(alloc, name, &body, others)
}

fn is_call(name: &str) -> bool {
    match name {
        "offers" | "offers_shared" | "accepts" | "walkers_agree" | "is_ready" => true,
        "eval" | "match_list" | "has_sort" | "initial" | "compile" => true,
        _ => false,
    }
}

/// Returns the body for a call, made from its first argument: a body, the name of a body, the times of an atom, or a type.
fn body_for(alloc: Global, name: &str, text: &[u8]) -> Result<Body, Fault> {
    match name {
        "offers_shared" => shared_body(alloc, text),
        "is_ready" => timed_body(alloc, text),
        "has_sort" | "initial" => sorted_body(alloc, text),
        _ => body(alloc, text),
    }
}

/// Returns the answer of a call for a body, or `None` if there is no such call.
fn over(
    alloc: Global,
    name: &str,
    body: &Body,
    args: &[Vec<u8>],
) -> Result<Option<Vec<u8>>, Fault> {
    let found = match name {
        "offers" | "offers_shared" => offers(alloc, body, args),
        "accepts" => accepted(alloc, body, args),
        "walkers_agree" => agree(alloc, body, args),
        "is_ready" => ready(alloc, body, args),
        "eval" => evaluated(alloc, body, args),
        "match_list" => matched(alloc, body, args),
        "has_sort" => of_sort(alloc, body, args),
        "initial" => initial_of(alloc, body, args),
        "compile" => compiled(alloc, body, args),
        _ => return Ok(None),
    };
    Ok(Some(found?))
}

/// Processes that bodies can call. In the expansion of such a call, a `let` sets the X of the process.
const CALLED: &str = "process One(X : int) is if equal(X, 1) then tau fi \
                      process Less(X : int) is One(sub(X, 1)) \
                      process Then(X : int) is tau . if equal(X, 1) then tau fi \
                      process From(X : int) is tau delay(X) \
                      process Until(X : int) is tau timeout(X) \
                      process Later(X : int) is tau . tau delay(X) \
                      tool calc is { } toolbus()";

/// Returns the body of a script's first process.
fn first_body(alloc: Global, script: &str) -> Result<Body, Fault> {
    match load(alloc, script.as_bytes()) {
        Ok(program) => copy_first(alloc, &program),
        Err(fault) => Err(fault_of(&fault)),
    }
}

fn copy_first(alloc: Global, program: &Program) -> Result<Body, Fault> {
    match program.bodies.as_slice().first() {
        Some(body) => Ok(body.copy(alloc)?),
        None => Err(Fault::Argument),
    }
}

fn fault_of(fault: &ScriptFault) -> Fault {
    match fault {
        ScriptFault::NoMemory => Fault::NoMemory,
        _ => Fault::Argument,
    }
}

/// Returns the body that this text represents. In the text, X is an integer, at first 0, and Y is any term, at first the term `none`.
fn body(alloc: Global, text: &[u8]) -> Result<Body, Fault> {
    let text = utf8(text)?;
    let script = format!(in alloc; "process P(X : int, Y : term) is {text} {CALLED}")?;
    first_body(alloc, script.as_str())
}

/// Returns the body of an atom with these times.
fn timed_body(alloc: Global, times: &[u8]) -> Result<Body, Fault> {
    let times = utf8(times)?;
    let text = format!(in alloc; "tau {times}")?;
    body(alloc, text.as_bytes())
}

/// Returns the body of an atom, with a variable of this type.
fn sorted_body(alloc: Global, sort: &[u8]) -> Result<Body, Fault> {
    let sort = utf8(sort)?;
    let script = format!(in alloc; "process P(X : {sort}) is tau {CALLED}")?;
    first_body(alloc, script.as_str())
}

/// Returns the offers of the process after these moves. If the two kinds of walkers disagree, returns the offers of both.
fn offers(alloc: Global, body: &Body, args: &[Vec<u8>]) -> Result<Vec<u8>, Fault> {
    let moves = one(args)?;
    let rewritten = seen_after::<Rewriter>(alloc, body, moves)?;
    let walked = seen_after::<Walk>(alloc, body, moves)?;
    both_text(alloc, walked.as_str(), rewritten.as_str())
}

fn both_text(alloc: Global, walked: &str, rewritten: &str) -> Result<Vec<u8>, Fault> {
    if rewritten == walked {
        return said(alloc, walked);
    }
    let text = format!(in alloc; "{walked}, and by rewriting {rewritten}")?;
    said(alloc, text.as_str())
}

/// Returns the number of variables that the first offer of a process binds for these terms. The offer must receive.
fn accepted(alloc: Global, body: &Body, args: &[Vec<u8>]) -> Result<Vec<u8>, Fault> {
    let terms = terms(alloc, args)?;
    counted(alloc, body, &terms)
}

fn counted(alloc: Global, body: &Body, terms: &Terms) -> Result<Vec<u8>, Fault> {
    let rewritten = count_bound::<Rewriter>(alloc, body, terms)?;
    let walked = count_bound::<Walk>(alloc, body, terms)?;
    if rewritten != walked {
        return said(alloc, "another number by rewriting");
    }
    count_text(alloc, walked)
}

fn count_text(alloc: Global, count: Option<usize>) -> Result<Vec<u8>, Fault> {
    let Some(count) = count else {
        return said(alloc, "no match");
    };
    let text = format!(in alloc; "{count} bound")?;
    said(alloc, text.as_str())
}

/// Returns whether both kinds of walkers have the same offers and send the same values, at the start and after each list of up to four
/// moves.
fn agree(alloc: Global, body: &Body, args: &[Vec<u8>]) -> Result<Vec<u8>, Fault> {
    none(args)?;
    let rewritten = explored::<Rewriter>(alloc, body)?;
    let walked = explored::<Walk>(alloc, body)?;
    let offers = rewritten.offers.as_str() == walked.offers.as_str();
    yes_or_no(
        alloc,
        offers && rewritten.values.as_slice() == walked.values.as_slice(),
    )
}

/// Returns whether the first atom of a body is ready at this age and this number of ticks, in a new process.
fn ready(alloc: Global, body: &Body, args: &[Vec<u8>]) -> Result<Vec<u8>, Fault> {
    let (age, now) = two(args)?;
    let (age, now) = (number(age)?, number(now)?);
    let Some(atom) = body.atoms.as_slice().first() else {
        return Err(Fault::Argument);
    };
    let store = Store::fresh(alloc, &body.sorts)?;
    let ready = is_ready(alloc, &store, age, now, &atom.times)?;
    yes_or_no(alloc, ready)
}

/// Returns the expressions that the first atom of a body sends.
fn sent(body: &Body) -> Result<&Exprs, Fault> {
    match body.atoms.as_slice().first() {
        Some(atom) => match &atom.act {
            Act::SndMsg(exprs) => Ok(exprs),
            _ => Err(Fault::Argument),
        },
        None => Err(Fault::Argument),
    }
}

/// Returns the value of the first expression that the first atom of a body sends.
fn evaluated(alloc: Global, body: &Body, args: &[Vec<u8>]) -> Result<Vec<u8>, Fault> {
    none(args)?;
    match sent(body)?.as_slice().first() {
        Some(expr) => fresh_value(alloc, body, expr),
        None => Err(Fault::Argument),
    }
}

/// Returns the value of an expression in a new process of this body.
fn fresh_value(alloc: Global, body: &Body, expr: &Expr) -> Result<Vec<u8>, Fault> {
    let store = Store::fresh(alloc, &body.sorts)?;
    found(alloc, eval(alloc, expr, &store))
}

/// Returns the patterns of the first atom of a body, which must receive.
fn patterns(alloc: Global, body: &Body) -> Result<Patterns, Fault> {
    let exprs = received(body)?;
    let store = Store::fresh(alloc, &body.sorts)?;
    all_patterns(alloc, exprs.as_slice(), &store)
}

fn all_patterns(alloc: Global, exprs: &[Expr], store: &Store) -> Result<Patterns, Fault> {
    let mut patterns = Items::new(alloc);
    for expr in exprs {
        match pattern(alloc, expr, store)? {
            Some(pattern) => patterns.push(pattern)?,
            None => return Err(Fault::Argument),
        }
    }
    Ok(patterns)
}

fn received(body: &Body) -> Result<&Exprs, Fault> {
    match body.atoms.as_slice().first() {
        Some(atom) => match &atom.act {
            Act::RecMsg(exprs) => Ok(exprs),
            _ => Err(Fault::Argument),
        },
        None => Err(Fault::Argument),
    }
}

/// Returns the binds of terms that match the patterns of the first atom of a body. For a single term, `match_term` must find the same
/// match. The call matches copies of the patterns, and writes copies of the binds.
fn matched(alloc: Global, body: &Body, args: &[Vec<u8>]) -> Result<Vec<u8>, Fault> {
    let terms = terms(alloc, args)?;
    matched_terms(alloc, body, &terms)
}

fn matched_terms(alloc: Global, body: &Body, terms: &Terms) -> Result<Vec<u8>, Fault> {
    let patterns = patterns(alloc, body)?;
    copies_match(alloc, &patterns, terms)
}

fn copies_match(alloc: Global, patterns: &Patterns, terms: &Terms) -> Result<Vec<u8>, Fault> {
    let copies = copy_patterns(alloc, patterns)?;
    both_matches(alloc, &copies, terms)
}

fn both_matches(alloc: Global, patterns: &Patterns, terms: &Terms) -> Result<Vec<u8>, Fault> {
    let found = match_text(alloc, match_list(alloc, patterns, terms))?;
    if let ([pattern], [term]) = (patterns.as_slice(), terms.as_slice()) {
        return alone_too(alloc, found, match_term(alloc, pattern, term));
    }
    Ok(found)
}

/// Returns the found match, if `match_term` finds the same one.
fn alone_too(
    alloc: Global,
    found: Vec<u8>,
    alone: Result<Option<Binds>, NoMemory>,
) -> Result<Vec<u8>, Fault> {
    let alone = match_text(alloc, alone)?;
    if alone.as_slice() != found.as_slice() {
        return said(alloc, "another match by itself");
    }
    Ok(found)
}

fn match_text(alloc: Global, found: Result<Option<Binds>, NoMemory>) -> Result<Vec<u8>, Fault> {
    match found {
        Ok(Some(binds)) => copies_text(alloc, &binds),
        Ok(None) => said(alloc, "no match"),
        Err(NoMemory) => Err(Fault::NoMemory),
    }
}

fn copies_text(alloc: Global, binds: &Binds) -> Result<Vec<u8>, Fault> {
    let copies = copy_binds(alloc, binds)?;
    binds_text(alloc, &copies)
}

fn binds_text(alloc: Global, binds: &Binds) -> Result<Vec<u8>, Fault> {
    let mut text = said(alloc, "match")?;
    for bind in binds.as_slice() {
        let slot = format!(in alloc; " {}=", bind.slot)?;
        text.extend_from_slice(slot.as_bytes())?;
        write_term(&bind.value, &mut text)?;
    }
    Ok(text)
}

/// Returns the type of a body's first variable.
fn sort(body: &Body) -> Result<&Sort, Fault> {
    match body.sorts.as_slice().first() {
        Some(sort) => Ok(sort),
        None => Err(Fault::Argument),
    }
}

/// Returns the initial value of a type.
fn initial_of(alloc: Global, body: &Body, args: &[Vec<u8>]) -> Result<Vec<u8>, Fault> {
    none(args)?;
    let term = initial(alloc, sort(body)?)?;
    term_text(alloc, &term)
}

/// Returns whether a term has a type.
fn of_sort(alloc: Global, body: &Body, args: &[Vec<u8>]) -> Result<Vec<u8>, Fault> {
    let sort = sort(body)?;
    let term = term(alloc, one(args)?)?;
    yes_or_no(alloc, has_sort(&term, sort))
}

/// Returns the number of positions of a body's code, the number of entries of all its lists, and the first position from which on each
/// position has a list.
fn compiled(alloc: Global, body: &Body, args: &[Vec<u8>]) -> Result<Vec<u8>, Fault> {
    none(args)?;
    let code = compile(alloc, body)?;
    code_text(alloc, &code)
}

fn code_text(alloc: Global, code: &Code) -> Result<Vec<u8>, Fault> {
    let (positions, entries) = (code.nodes.len(), code.entries.len());
    let from = first_listed(code.spans.as_slice());
    let text = format!(in alloc; "{positions} positions, {entries} entries from {from} on")?;
    said(alloc, text.as_str())
}

/// Returns the first position from which on each position has a list.
fn first_listed(spans: &[Span]) -> usize {
    let mut first: usize = 0;
    for (at, span) in spans.iter().enumerate() {
        if span.count == 0 {
            first = at.saturating_add(1);
        }
    }
    first
}
