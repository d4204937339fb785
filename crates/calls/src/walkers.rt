//! Walkers of any kind, and the moves that they make.
ghost use Rattle.std.specs.Prelude.{◌≡◌, ◌<◌, ◌≤◌, IfOk, IfSome, IsTrue, OnOk, is_some, slice_get, ◌+◌, ◌*◌};
ghost use Rattle.std.specs.Option.{ForSome};
ghost use Rattle.tb_process_steps.specs.Binds.{takes_binds};
ghost use Rattle.tb_process_steps.specs.Walks.{offers_of};

use std::alloc::Global;
use tb_body::Body;
use tb_func::Store;
use tb_match::Binds;
use tb_process_steps::Walker;
use tb_terms::{Items, NoMemory, Term, Terms, write_terms};

/// The highest number of ticks that a process sees.
const MOST_MOVES: u64 = 16;

/// Returns the binds of the offered atom for the term 7, or no binds if the atom doesn't accept this term.
fn bound<W: Walker>(alloc: Global, plan: &W::Plan, walker: &W, k: usize) -> Result<Binds, NoMemory>
    requires on { W.view.is_on plan.now walker.now }
    requires fresh { IsTrue (is_some (W.view.seen walker.now)) }
    ensures { IfOk result
        (λ binds. ForSome (slice_get (offers_of (W.view.walking plan.now walker.now)) k)
        (λ offered. IsTrue (takes_binds offered.store binds))) }
{
    if k >= walker.offer_count() {
        return Err(NoMemory);
    }
    let mut terms = Items::new(alloc);
    terms.push(Term::Int(7))?;
    match walker.accepts(alloc, plan, k, &terms)? {
        Some(binds) => Ok(binds),
        None => Ok(Items::new(alloc)),
    }
}

/// Finds the offers, and takes the offer at index `k`, if there is one. Returns whether there is one.
fn take<W: Walker>(
    alloc: Global,
    plan: &W::Plan,
    walker: &mut W,
    k: usize,
    now: u64,
) -> Result<bool, NoMemory>
    requires on { W.view.is_on plan.now walker.old }
    ensures on { W.view.is_on plan.now walker.new }
    ensures ticks { IfOk result (λ _. (W.view.walking plan.now walker.new).ticks
        ≡ (W.view.walking plan.now walker.old).ticks) }
{
    walker.look(alloc, plan, now)?;
    if k >= walker.offer_count() {
        return Ok(false);
    }
    let binds = bound(alloc, plan, walker, k)?;
    walker.fire(alloc, plan, k, binds)?;
    Ok(true)
}

/// Finds the offers, and takes the offer at index `k` a tick later, without another look. Returns whether this offer was taken. The call
/// takes the offer and continues with it in two separate calls of the walker.
fn take_later<W: Walker>(
    alloc: Global,
    plan: &W::Plan,
    walker: &mut W,
    k: usize,
    now: u64,
) -> Result<bool, NoMemory>
    requires on { W.view.is_on plan.now walker.old }
    requires ticks { (W.view.walking plan.now walker.old).ticks < MOST_MOVES }
    ensures on { W.view.is_on plan.now walker.new }
    ensures ticks { IfOk result (λ _. (W.view.walking plan.now walker.new).ticks
        ≤ (W.view.walking plan.now walker.old).ticks + 1) }
{
    walker.look(alloc, plan, now)?;
    if k >= walker.offer_count() {
        return Ok(false);
    }
    walker.tick(plan);
    if walker.is_fresh() {
        return Ok(false);
    }
    let taken = walker.take(alloc, plan, k)?;
    let mut none = Items::new(alloc);
    walker.advance(plan, taken, &mut none);
    Ok(true)
}

/// Makes a move. Returns the number of ticks after the move, or `None` if there is no such offer. A move is `t`, which is a tick; a digit,
/// which is the index of the taken offer; or a letter from `a` to `e`, whose offer is taken a tick after the look.
fn go<W: Walker>(
    alloc: Global,
    plan: &W::Plan,
    walker: &mut W,
    ticks: u64,
    one: u8,
) -> Result<Option<u64>, NoMemory>
    requires on { W.view.is_on plan.now walker.old }
    requires ticks { (W.view.walking plan.now walker.old).ticks ≤ ticks }
    requires few { ticks < MOST_MOVES }
    ensures on { W.view.is_on plan.now walker.new }
    ensures ticks { IfOk result (λ some. IfSome some
        (λ after. ((W.view.walking plan.now walker.new).ticks ≤ after) × (after ≤ ticks + 1))) }
{
    match one {
        b't' => {
            walker.tick(plan);
            Ok(Some(ticks + 1))
        }
        b'0'..=b'9' => {
            if take(alloc, plan, walker, (one - b'0') as usize, ticks + 3)? {
                return Ok(Some(ticks));
            }
            Ok(None)
        }
        b'a'..=b'e' => {
            if take_later(alloc, plan, walker, (one - b'a') as usize, ticks + 3)? {
                return Ok(Some(ticks + 1));
            }
            Ok(None)
        }
        _ => Ok(None),
    }
}

/// Writes `end` if a process has ended, and its offers. An offer is the atom's number, a point, its age, and `!` if the atom isn't ready.
fn write_offers<W: Walker>(
    alloc: Global,
    plan: &W::Plan,
    walker: &mut W,
    now: u64,
    text: &mut String,
) -> Result<(), NoMemory>
    requires on { W.view.is_on plan.now walker.old }
    ensures on { W.view.is_on plan.now walker.new }
    ensures stays { W.view.walking plan.now walker.new ≡ W.view.walking plan.now walker.old }
    ensures fresh { OnOk result (IsTrue (is_some (W.view.seen walker.new))) }
{
    walker.look(alloc, plan, now)?;
    if walker.is_done() {
        text.push_str("end")?;
    }
    for k in 0..walker.offer_count() {
        let offer = walker.offer(k);
        let gap = if k > 0 { " " } else { "" };
        let bang = if offer.ready { "" } else { "!" };
        write!(text, "{gap}{}.{}{bang}", offer.atom, offer.age)?;
    }
    Ok(())
}

/// Returns the offers of a process of this body after these moves, during which at most `MOST_MOVES` ticks come. The process starts at 3
/// ticks of the bus.
pub(crate) fn seen_after<W: Walker>(
    alloc: Global,
    body: &Body,
    moves: &[u8],
) -> Result<String, NoMemory> {
    let plan = W::plan(alloc, body)?;
    let mut walker = W::start(alloc, &plan, Store::fresh(alloc, &body.sorts)?)?;
    let mut ticks: u64 = 0;
    for one in moves {
        if ticks >= MOST_MOVES {
            return Ok(String::from_str(alloc, "too many moves")?);
        }
        match go(alloc, &plan, &mut walker, ticks, *one)? {
            Some(after) => ticks = after,
            None => return Ok(String::from_str(alloc, "no such offer")?),
        }
    }
    let mut text = String::new(alloc);
    write_offers(
        alloc,
        &plan,
        &mut walker,
        ticks.saturating_add(3),
        &mut text,
    )?;
    Ok(text)
}

/// The offers of a process, and the values that these offers send or look at.
#[derive(Drop)]
pub(crate) struct Sightings {
    pub(crate) offers: String,
    pub(crate) values: Vec<u8>,
}

/// Writes the values that each offer sends or looks at.
fn write_values<W: Walker>(
    alloc: Global,
    plan: &W::Plan,
    walker: &W,
    values: &mut Vec<u8>,
) -> Result<(), NoMemory>
    requires on { W.view.is_on plan.now walker.now }
    requires fresh { IsTrue (is_some (W.view.seen walker.now)) }
{
    for k in 0..walker.offer_count() {
        if let Some(terms) = walker.sent(alloc, plan, k, None)? {
            write_terms(&terms, values)?;
        }
        values.push(b';')?;
    }
    Ok(())
}

/// Writes the offers and the values of a process, now and after each list of up to `more` moves. A move is a tick or a taken offer.
#[cycle(explore)]
fn explore<W: Walker>(
    alloc: Global,
    plan: &W::Plan,
    walker: W,
    now: u64,
    more: u64,
    seen: &mut Sightings,
) -> Result<(), NoMemory>
    requires on { W.view.is_on plan.now walker }
    requires ticks { (W.view.walking plan.now walker).ticks + more ≤ MOST_MOVES }
    requires now { now + more ≤ 2 * MOST_MOVES }
{
    let mut walker = walker;
    write_offers(alloc, plan, &mut walker, now, &mut seen.offers)?;
    seen.offers.push_str("; ")?;
    write_values(alloc, plan, &walker, &mut seen.values)?;
    if more == 0 {
        return Ok(());
    }
    let mut older = walker.copy(alloc)?;
    older.tick(plan);
    explore(alloc, plan, older, now + 1, more - 1, seen)?;
    for k in 0..walker.offer_count() {
        let mut next = walker.copy(alloc)?;
        take(alloc, plan, &mut next, k, now)?;
        explore(alloc, plan, next, now, more - 1, seen)?;
    }
    Ok(())
}

/// Returns the offers and the values of a process of this body, at the start and after each list of up to four moves.
pub(crate) fn explored<W: Walker>(alloc: Global, body: &Body) -> Result<Sightings, NoMemory> {
    let plan = W::plan(alloc, body)?;
    let walker = W::start(alloc, &plan, Store::fresh(alloc, &body.sorts)?)?;
    let mut seen = Sightings {
        offers: String::new(alloc),
        values: Vec::new(alloc),
    };
    explore(alloc, &plan, walker, 3, 4, &mut seen)?;
    Ok(seen)
}

/// Returns the number of variables that the first offer of a process binds for these terms. Returns `None` if there is no offer, if the
/// offer doesn't have exactly one pattern, or if it doesn't accept the terms.
pub(crate) fn count_bound<W: Walker>(
    alloc: Global,
    body: &Body,
    terms: &Terms,
) -> Result<Option<usize>, NoMemory> {
    let plan = W::plan(alloc, body)?;
    let mut walker = W::start(alloc, &plan, Store::fresh(alloc, &body.sorts)?)?;
    walker.look(alloc, &plan, 3)?;
    let walker = walker.copy(alloc)?;
    if walker.is_done() || !walker.is_fresh() || walker.offer_count() == 0 {
        return Ok(None);
    }
    match walker.patterns(alloc, &plan, 0, None)? {
        Some(patterns) if patterns.len() == 1 => {}
        _ => return Ok(None),
    }
    match walker.accepts(alloc, &plan, 0, terms)? {
        Some(binds) => Ok(Some(binds.len())),
        None => Ok(None),
    }
}
