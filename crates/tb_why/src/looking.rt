//! The offers of the processes of a bus.

ghost use Rattle.std.specs.Prelude.{◌≡◌, ◌<◌, ℕ, IfOk, IsTrue, length, map, slice_get, Some, is_some};
ghost use Rattle.std.specs.Option.{ForSome};
ghost use Rattle.tb_process_steps.specs.Offers.{Offered};
ghost use Rattle.tb_process_steps.specs.Walks.{offers_of, seen_offers};
ghost use Rattle.tb_living.specs.Lives.{IsLive, proc_in};
ghost use Rattle.tb_core.specs.Helpers.LiveBuses.{bus_of, IsSound};
ghost use Rattle.tb_why.specs.Standing.{offering_of, standing_of, standings};

use crate::standing::{Offering, Standing};
use std::alloc::Global;
use tb_core::LiveBus;
use tb_process_steps::{Offer, Walker};
use tb_search::Living;
use tb_terms::{Items, NoMemory};

/// Returns the offer at position `k` of a walker. The walker has looked for its offers before.
fn offering<W: Walker>(
    alloc: Global,
    plan: &W::Plan,
    walker: &W,
    k: usize,
) -> Result<Offering, NoMemory>
    requires on { W.view.is_on plan.now walker.now }
    requires fresh { IsTrue (is_some (W.view.seen walker.now)) }
    requires within { ForSome (W.view.seen walker.now) (λ offers. k < length offers) }
    ensures { (now : ℕ) (offered : Offered) → W.view.seen walker.now
        ≡ Some (seen_offers (W.view.body_of plan.now).atoms now
        (W.view.walking plan.now walker.now))
        → slice_get (offers_of (W.view.walking plan.now walker.now)) k ≡ Some offered
        → IfOk result
        (λ offer. offer ≡ offering_of (W.view.body_of plan.now).atoms now offered) }
{
    let Offer { atom, age, ready } = walker.offer(k);
    let sent = walker.sent(alloc, plan, k, None)?;
    let patterns = walker.patterns(alloc, plan, k, None)?;
    Ok(Offering {
        atom,
        age,
        ready,
        sent,
        patterns,
    })
}

/// Returns all offers of a walker, in order. The walker has looked for its offers before.
fn offerings<W: Walker>(
    alloc: Global,
    plan: &W::Plan,
    walker: &W,
) -> Result<Items<Offering>, NoMemory>
    requires on { W.view.is_on plan.now walker.now }
    requires fresh { IsTrue (is_some (W.view.seen walker.now)) }
    ensures { (now : ℕ) → W.view.seen walker.now
        ≡ Some (seen_offers (W.view.body_of plan.now).atoms now
        (W.view.walking plan.now walker.now))
        → IfOk result (λ offers. offers ≡ map (offering_of (W.view.body_of plan.now).atoms now)
        (offers_of (W.view.walking plan.now walker.now))) }
{
    let mut offers = Items::new(alloc);
    for k in 0..walker.offer_count() {
        offers.push(offering(alloc, plan, walker, k)?)?;
    }
    Ok(offers)
}

/// Returns a process with its offers, on a bus that has seen `now` ticks. A copy of the walker looks for the offers, so the process
/// remains unchanged.
fn standing<W: Walker>(
    alloc: Global,
    plans: &Items<W::Plan>,
    living: &Living<W>,
    now: u64,
) -> Result<Standing, NoMemory>
    requires { IsLive W.view plans.now now living.now }
    ensures { IfOk result (λ standing. standing
        ≡ standing_of (map W.view.body_of plans.now) now (proc_in W.view plans.now living.now)) }
{
    let plan = &plans.as_slice()[living.body as usize];
    let mut walker = living.walker.copy(alloc)?;
    walker.look(alloc, plan, now)?;
    let offers = offerings(alloc, plan, &walker)?;
    Ok(Standing {
        number: living.number,
        body: living.body,
        offers,
    })
}

/// Returns the living processes of a bus, in order, each with its offers.
pub fn stand<W: Walker>(alloc: Global, bus: &LiveBus<W>) -> Result<Items<Standing>, NoMemory>
    requires { IsSound W.view bus.now }
    ensures { IfOk result (λ all. all ≡ standings (bus_of W.view bus.now)) }
{
    let mut all = Items::new(alloc);
    for living in bus.living.as_slice() {
        all.push(standing(alloc, &bus.plans, living.get(), bus.ticks)?)?;
    }
    Ok(all)
}
