//! The expansions of a script's processes.

ghost use Rattle.std.specs.Prelude.{◌≡◌, ◌<◌, Some, Contains, true, false, length, slice_get, IfOk, IfErr, OnOk};
ghost use Rattle.std.proofs.Props.{props};
ghost use Rattle.tb_body.specs.declared.body.Body.{Body};
ghost use Rattle.tb_syntax.specs.declared.script.ProcDef.{ProcDef};
ghost use Rattle.tb_types.specs.Conditions.{Proper};
ghost use Rattle.tb_expand.specs.Expansion.{expansion_of, is_too_large};
ghost use Rattle.tb_expand.specs.Helpers.Wholes.{AllWhole, is_whole};
ghost use Rattle.tb_expand.specs.Faults.{HasFault, HasNoCycle, IsBodyFault, IsBodyOf, IsCallFault, IsExpansion};
ghost use Rattle.tb_expand.specs.Helpers.Measuring.{AreSizes, is_over};

use crate::call_order::order_of;
use crate::fault::ExpandFault;
use crate::number::number;
use crate::size::Size;
use crate::sizes::sizes_of;
use crate::whole::expansion_of;
use sqlite_items::at;
use std::alloc::Global;
use tb_body::{Body, MOST_BODY_LEVELS};
use tb_syntax::{ProcDef, Script};
use tb_terms::{Items, NoMemory};
use tb_types::Names;

/// The greatest number of atoms of an expansion.
const MOST_ATOMS: usize = 20_000;

/// The expansions of a script's processes. Each expansion is built on request. The sizes are computed in advance, so a too large
/// expansion is never started.
#[derive(Drop)]
pub struct Expansions<'n, 's> {
    /// The script whose processes are expanded.
    pub script: &'s Script,
    names: &'n Names<'s>,
    sizes: Items<Size>,
    ghost same: { names.now.script.now ≡ script.now } by { Prim.hlevel props },
    ghost proper: { Proper script.now } by { Prim.hlevel props },
    ghost no_cycle: { HasNoCycle script.now } by { Prim.hlevel props },
    ghost whole: { AllWhole script.now } by { Prim.hlevel props },
    ghost sized: { AreSizes script.now sizes } by { Prim.hlevel props },
}

impl<'n, 's> Expansions<'n, 's> {
    /// Prepares the expansions of the well-formed script that has these names. Fails if calls form a cycle. Builds no expansion yet.
    #[tactic(auto, using(crate::proofs::ProperCalls::names_differ))]
    pub fn of(alloc: Global, names: &'n Names<'s>) -> Result<Expansions<'n, 's>, ExpandFault>
        requires { Proper names.now.script.now }
        ensures script { IfOk result (λ expansions. expansions.script.now ≡ names.now.script.now) }
        ensures no_cycle { OnOk result (HasNoCycle names.now.script.now) }
        ensures fault { IfErr result (IsCallFault names.now.script.now) }
    {
        let order = order_of(alloc, names)?;
        let sizes = sizes_of(alloc, names, order.as_slice())?;
        Ok(Expansions {
            script: names.script,
            names,
            sizes,
        })
    }

    /// Builds the body of the process at this position among the definitions.
    pub fn body(&self, alloc: Global, position: usize) -> Result<Body, ExpandFault>
        requires { position < length self.now.script.now.procs }
        ensures body { (d : ProcDef) → slice_get self.now.script.now.procs position ≡ Some d
            → IfOk result (IsBodyOf self.now.script.now d) }
        ensures fault { (d : ProcDef) → slice_get self.now.script.now.procs position ≡ Some d
            → IfErr result (IsBodyFault self.now.script.now d) }
    {
        let def = &self.script.procs.as_slice()[position];
        if self.is_too_large(position, def) {
            return Err(ExpandFault::TooLarge(def.name.copy(alloc)?));
        }
        Ok(built(alloc, self.names, def)?)
    }

    /// Checks that the process at this position among the definitions has a body, without building the body. Fails as `body` does.
    pub fn check_body(&self, alloc: Global, position: usize) -> Result<(), ExpandFault>
        requires { position < length self.now.script.now.procs }
        ensures body { (d : ProcDef) → slice_get self.now.script.now.procs position ≡ Some d
            → OnOk result ((body : Body) × IsBodyOf self.now.script.now d body) }
        ensures fault { (d : ProcDef) → slice_get self.now.script.now.procs position ≡ Some d
            → IfErr result (IsBodyFault self.now.script.now d) }
    {
        let def = &self.script.procs.as_slice()[position];
        if self.is_too_large(position, def) {
            return Err(ExpandFault::TooLarge(def.name.copy(alloc)?));
        }
        Ok(())
    }

    /// Returns whether the expansion of the process at this position passes a limit.
    #[tactic(auto, using(crate::proofs::Bodies::large_by_size, crate::proofs::Bodies::size_is_there))]
    fn is_too_large(&self, position: usize, def: &ProcDef) -> bool
        requires { slice_get self.now.script.now.procs position ≡ Some def.now }
        ensures { result ≡ is_too_large (expansion_of self.now.script.now def.now) }
    {
        match at(self.sizes.as_slice(), position) {
            Some(size) => is_over(*size),
            None => unreachable!(),
        }
    }
}

fn is_over(size: Size) -> bool
    ensures { result ≡ is_over size }
{
    size.atoms > MOST_ATOMS || size.levels > MOST_BODY_LEVELS
}

/// Builds the body of a process whose expansion is within the limits.
fn built(alloc: Global, names: &Names, def: &ProcDef) -> Result<Body, NoMemory>
    requires proper { Proper names.now.script.now }
    requires there { Contains names.now.script.now.procs def.now }
    requires whole { is_whole names.now.script.now
        (length names.now.script.now.procs) def.now.body ≡ true }
    requires small { is_too_large (expansion_of names.now.script.now def.now) ≡ false }
    ensures { IfOk result (IsExpansion names.now.script.now def.now) }
{
    let (tree, built) = expansion_of(alloc, names, def)?;
    let formals = number(def.formals.len())?;
    match Body::new(alloc, tree, built.atoms, built.sorts, formals)? {
        Some(body) => Ok(body),
        None => unreachable!(),
    }
}

/// Builds the body of the process at this position among the definitions of a script. Use `Expansions` to build several bodies of a
/// script.
pub fn expand(alloc: Global, s: &Script, root: usize) -> Result<Body, ExpandFault>
    requires proper { Proper s.now }
    requires in_range { root < length s.now.procs }
    ensures body { (d : ProcDef) → slice_get s.now.procs root ≡ Some d
        → IfOk result (IsBodyOf s.now d) }
    ensures fault { (d : ProcDef) → slice_get s.now.procs root ≡ Some d
        → IfErr result (HasFault s.now d) }
{
    let names = Names::of(alloc, s)?;
    let expansions = Expansions::of(alloc, &names)?;
    Ok(expansions.body(alloc, root)?)
}
