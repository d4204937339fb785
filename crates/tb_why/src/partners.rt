//! The reasons of `snd-msg` and `rec-msg`: no other process receives the message, or sends one that matches.

ghost use Rattle.std.specs.Prelude.{◌≡◌, IfOk, None, Some, is_some, if◌then◌else◌};
ghost use Rattle.std.specs.List.{list_any};
ghost use Rattle.tb_match.specs.Matches.{match_list};
ghost use Rattle.tb_process_steps.specs.Atoms.{act_of};
ghost use Rattle.tb_bus.specs.Buses.{atoms_of};
ghost use Rattle.tb_why.specs.Reasons.{first_later, first_offer, gives_later, has_receiver, has_sender, later_in, matches, partner_reason, receiver_reason, receives, receives_from, received_now, sender_reason, sends, sends_to, sent_now, takes_later, with_patterns, with_terms};
ghost use Rattle.tb_why.specs.Tools.{unless};
ghost use Rattle.tb_why.specs.Helpers.Scenes.{act_found};
ghost use Rattle.tb_why.specs.declared.standing.Offering.{Offering as Seen};

use crate::reason::{Partner, Reason};
use crate::standing::{Offering, Standing};
use crate::tools::unless;
use sqlite_items::at;
use std::alloc::Global;
use tb_body::{Act, Atom, Body};
use tb_match::match_list;
use tb_terms::{NoMemory, Patterns, Terms};

/// Returns the act of the atom with this number, from 1.
pub(crate) fn act_at(atoms: &[Atom], number: u32) -> Option<&Act>
    ensures { act_found result ≡ act_of atoms.now number }
{
    match at(atoms, (number as usize).saturating_sub(1)) {
        Some(atom) => Some(&atom.act),
        None => None,
    }
}

/// Returns whether the atom with this number sends a message.
fn sends(atoms: &[Atom], number: u32) -> bool
    ensures { result ≡ sends (act_of atoms.now number) }
{
    match act_at(atoms, number) {
        Some(Act::SndMsg(_)) => true,
        _ => false,
    }
}

/// Returns whether the atom with this number receives a message.
fn receives(atoms: &[Atom], number: u32) -> bool
    ensures { result ≡ receives (act_of atoms.now number) }
{
    match act_at(atoms, number) {
        Some(Act::RecMsg(_)) => true,
        _ => false,
    }
}

/// Returns the atoms of the body with this index, or none if there is no such body.
pub(crate) fn atoms_of(bodies: &[Body], body: u32) -> &[Atom]
    ensures { result.now ≡ atoms_of bodies.now body }
{
    match at(bodies, body as usize) {
        Some(body) => body.atoms.as_slice(),
        None => &[],
    }
}

/// Returns whether the terms match the patterns.
fn fits(alloc: Global, patterns: &Patterns, terms: &Terms) -> Result<bool, NoMemory>
    ensures { IfOk result (λ fits. fits ≡ is_some (match_list patterns.now terms.now)) }
{
    Ok(match_list(alloc, patterns, terms)?.is_some())
}

/// Returns whether an offer whose times hold receives the terms.
fn takes(alloc: Global, atoms: &[Atom], offer: &Offering, terms: &Terms) -> Result<bool, NoMemory>
    ensures { IfOk result
        (λ takes. takes ≡ matches (received_now atoms.now offer.now) (Some terms.now)) }
{
    if !offer.ready || !receives(atoms, offer.atom) {
        return Ok(false);
    }
    match &offer.patterns {
        Some(patterns) => fits(alloc, patterns, terms),
        None => Ok(false),
    }
}

/// Returns whether an offer whose times hold sends terms that match the patterns.
fn gives(
    alloc: Global,
    atoms: &[Atom],
    offer: &Offering,
    patterns: &Patterns,
) -> Result<bool, NoMemory>
    ensures { IfOk result
        (λ gives. gives ≡ matches (Some patterns.now) (sent_now atoms.now offer.now)) }
{
    if !offer.ready || !sends(atoms, offer.atom) {
        return Ok(false);
    }
    match &offer.sent {
        Some(terms) => fits(alloc, patterns, terms),
        None => Ok(false),
    }
}

/// Returns whether an offer whose times don't all hold would receive the terms.
fn takes_later(
    alloc: Global,
    atoms: &[Atom],
    offer: &Offering,
    terms: &Terms,
) -> Result<bool, NoMemory>
    ensures { IfOk result (λ takes. takes ≡ takes_later terms.now atoms.now offer.now) }
{
    if offer.ready || !receives(atoms, offer.atom) {
        return Ok(false);
    }
    match &offer.patterns {
        Some(patterns) => fits(alloc, patterns, terms),
        None => Ok(false),
    }
}

/// Returns whether an offer whose times don't all hold would send terms that match the patterns.
fn gives_later(
    alloc: Global,
    atoms: &[Atom],
    offer: &Offering,
    patterns: &Patterns,
) -> Result<bool, NoMemory>
    ensures { IfOk result (λ gives. gives ≡ gives_later patterns.now atoms.now offer.now) }
{
    if offer.ready || !sends(atoms, offer.atom) {
        return Ok(false);
    }
    match &offer.sent {
        Some(terms) => fits(alloc, patterns, terms),
        None => Ok(false),
    }
}

/// Returns whether one of these offers receives the terms, and its times hold.
fn any_takes(
    alloc: Global,
    atoms: &[Atom],
    offers: &[Offering],
    terms: &Terms,
) -> Result<bool, NoMemory>
    ensures { IfOk result (λ any. any ≡ list_any
        (λ (offer : Seen). matches (received_now atoms.now offer) (Some terms.now)) offers.now) }
{
    for offer in offers {
        if takes(alloc, atoms, offer, terms)? {
            return Ok(true);
        }
    }
    Ok(false)
}

/// Returns whether one of these offers sends terms that match the patterns, and its times hold.
fn any_gives(
    alloc: Global,
    atoms: &[Atom],
    offers: &[Offering],
    patterns: &Patterns,
) -> Result<bool, NoMemory>
    ensures { IfOk result (λ any. any ≡ list_any
        (λ (offer : Seen). matches (Some patterns.now) (sent_now atoms.now offer)) offers.now) }
{
    for offer in offers {
        if gives(alloc, atoms, offer, patterns)? {
            return Ok(true);
        }
    }
    Ok(false)
}

/// Returns whether this process receives the terms, and isn't the process with this number.
fn receives_from(
    alloc: Global,
    bodies: &[Body],
    number: u32,
    terms: &Terms,
    other: &Standing,
) -> Result<bool, NoMemory>
    ensures { IfOk result
        (λ any. any ≡ receives_from bodies.now number (Some terms.now) other.now) }
{
    if other.number == number {
        return Ok(false);
    }
    let atoms = atoms_of(bodies, other.body);
    any_takes(alloc, atoms, other.offers.as_slice(), terms)
}

/// Returns whether this process sends terms that match the patterns, and isn't the process with this number.
fn sends_to(
    alloc: Global,
    bodies: &[Body],
    number: u32,
    patterns: &Patterns,
    other: &Standing,
) -> Result<bool, NoMemory>
    ensures { IfOk result
        (λ any. any ≡ sends_to bodies.now number (Some patterns.now) other.now) }
{
    if other.number == number {
        return Ok(false);
    }
    let atoms = atoms_of(bodies, other.body);
    any_gives(alloc, atoms, other.offers.as_slice(), patterns)
}

/// Returns whether a process other than the one with this number receives the terms.
fn has_receiver(
    alloc: Global,
    bodies: &[Body],
    number: u32,
    terms: &Terms,
    others: &[Standing],
) -> Result<bool, NoMemory>
    ensures { IfOk result
        (λ any. any ≡ has_receiver bodies.now number (Some terms.now) others.now) }
{
    for other in others {
        if receives_from(alloc, bodies, number, terms, other)? {
            return Ok(true);
        }
    }
    Ok(false)
}

/// Returns whether a process other than the one with this number sends terms that match the patterns.
fn has_sender(
    alloc: Global,
    bodies: &[Body],
    number: u32,
    patterns: &Patterns,
    others: &[Standing],
) -> Result<bool, NoMemory>
    ensures { IfOk result
        (λ any. any ≡ has_sender bodies.now number (Some patterns.now) others.now) }
{
    for other in others {
        if sends_to(alloc, bodies, number, patterns, other)? {
            return Ok(true);
        }
    }
    Ok(false)
}

/// Returns the atom of the first of these offers that would receive the terms and whose times don't all hold.
fn first_taking_later(
    alloc: Global,
    atoms: &[Atom],
    offers: &[Offering],
    terms: &Terms,
) -> Result<Option<u32>, NoMemory>
    ensures { IfOk result
        (λ found. found ≡ first_offer (takes_later terms.now atoms.now) offers.now) }
{
    for offer in offers {
        if takes_later(alloc, atoms, offer, terms)? {
            return Ok(Some(offer.atom));
        }
    }
    Ok(None)
}

/// Returns the atom of the first of these offers that would send terms that match the patterns and whose times don't all hold.
fn first_giving_later(
    alloc: Global,
    atoms: &[Atom],
    offers: &[Offering],
    patterns: &Patterns,
) -> Result<Option<u32>, NoMemory>
    ensures { IfOk result
        (λ found. found ≡ first_offer (gives_later patterns.now atoms.now) offers.now) }
{
    for offer in offers {
        if gives_later(alloc, atoms, offer, patterns)? {
            return Ok(Some(offer.atom));
        }
    }
    Ok(None)
}

/// Returns the atom of the first such offer of this process. Returns `None` if this is the process with this number.
fn later_receiver(
    alloc: Global,
    bodies: &[Body],
    number: u32,
    terms: &Terms,
    other: &Standing,
) -> Result<Option<u32>, NoMemory>
    ensures { IfOk result
        (λ found. found ≡ later_in bodies.now number (takes_later terms.now) other.now) }
{
    if other.number == number {
        return Ok(None);
    }
    let atoms = atoms_of(bodies, other.body);
    first_taking_later(alloc, atoms, other.offers.as_slice(), terms)
}

/// Returns the atom of the first such offer of this process. Returns `None` if this is the process with this number.
fn later_sender(
    alloc: Global,
    bodies: &[Body],
    number: u32,
    patterns: &Patterns,
    other: &Standing,
) -> Result<Option<u32>, NoMemory>
    ensures { IfOk result
        (λ found. found ≡ later_in bodies.now number (gives_later patterns.now) other.now) }
{
    if other.number == number {
        return Ok(None);
    }
    let atoms = atoms_of(bodies, other.body);
    first_giving_later(alloc, atoms, other.offers.as_slice(), patterns)
}

/// Returns the first offer of another process that would receive the terms and whose times don't all hold.
fn first_later_receiver(
    alloc: Global,
    bodies: &[Body],
    number: u32,
    terms: &Terms,
    others: &[Standing],
) -> Result<Option<Partner>, NoMemory>
    ensures { IfOk result (λ found. found
        ≡ first_later bodies.now number (takes_later terms.now) others.now) }
{
    for other in others {
        if let Some(atom) = later_receiver(alloc, bodies, number, terms, other)? {
            return Ok(Some(partner(other, atom)));
        }
    }
    Ok(None)
}

/// Returns the first offer of another process that would send terms that match the patterns and whose times don't all hold.
fn first_later_sender(
    alloc: Global,
    bodies: &[Body],
    number: u32,
    patterns: &Patterns,
    others: &[Standing],
) -> Result<Option<Partner>, NoMemory>
    ensures { IfOk result (λ found. found
        ≡ first_later bodies.now number (gives_later patterns.now) others.now) }
{
    for other in others {
        if let Some(atom) = later_sender(alloc, bodies, number, patterns, other)? {
            return Ok(Some(partner(other, atom)));
        }
    }
    Ok(None)
}

/// Returns the offer of a process with this atom, as a partner.
fn partner(other: &Standing, atom: u32) -> Partner
    ensures { result ≡ record { process = other.now.number; body = other.now.body; atom = atom } }
{
    Partner {
        process: other.number,
        body: other.body,
        atom,
    }
}

/// Returns the reason if no other process is ready: `PartnerWaits` if there is a partner whose times don't all hold, `nobody` if not.
fn partner_reason(partner: Option<Partner>, nobody: Reason) -> Reason
    ensures { result ≡ partner_reason partner nobody }
{
    match partner {
        Some(partner) => Reason::PartnerWaits(partner),
        None => nobody,
    }
}

/// Checks the conditions of `snd-msg`: its values exist, and another process receives them.
pub(crate) fn receiver_reason(
    alloc: Global,
    bodies: &[Body],
    number: u32,
    sent: &Option<Terms>,
    others: &[Standing],
) -> Result<Option<Reason>, NoMemory>
    ensures { IfOk result (λ reason. reason
        ≡ with_terms (receiver_reason bodies.now number others.now) sent.now) }
{
    let Some(terms) = sent else {
        return Ok(Some(Reason::NoValue));
    };
    let received = has_receiver(alloc, bodies, number, terms, others)?;
    let later = first_later_receiver(alloc, bodies, number, terms, others)?;
    Ok(unless(received, partner_reason(later, Reason::NobodyReceives)))
}

/// Checks the conditions of `rec-msg`: its patterns exist, and another process sends terms that match.
pub(crate) fn sender_reason(
    alloc: Global,
    bodies: &[Body],
    number: u32,
    patterns: &Option<Patterns>,
    others: &[Standing],
) -> Result<Option<Reason>, NoMemory>
    ensures { IfOk result (λ reason. reason
        ≡ with_patterns (sender_reason bodies.now number others.now) patterns.now) }
{
    let Some(patterns) = patterns else {
        return Ok(Some(Reason::NoPattern));
    };
    let sent = has_sender(alloc, bodies, number, patterns, others)?;
    let later = first_later_sender(alloc, bodies, number, patterns, others)?;
    Ok(unless(sent, partner_reason(later, Reason::NobodySends)))
}
