//! Theorems about process terms, their offers, and their stores. The calls change nothing: their contracts are the theorems.

ghost use Rattle.std.specs.Prelude.{◌≡◌, ◌≤◌, ◌++◌, ℕ, List, [], Some, IsTrue, Contains, map, length, slice_get};
ghost use Rattle.std.specs.List.Sorted.{IsStrictlyIncreasing};
ghost use Rattle.tb_terms.specs.declared.term.Term.{Term};
ghost use Rattle.tb_terms.specs.declared.expr.Expr.{Expr};
ghost use Rattle.tb_func.specs.declared.slot.Slot.{Slot};
ghost use Rattle.tb_func.specs.Stores.{are_well_sorted};
ghost use Rattle.tb_body.specs.declared.atom.Atom.{Atom};
ghost use Rattle.tb_body.specs.declared.body.Body.{Body};
ghost use Rattle.tb_body.specs.declared.tree.Tree.{Tree};
ghost use Rattle.tb_match.specs.declared.bind.Bind.{Bind};
ghost use Rattle.tb_process_steps.specs.Binds.{takes_binds};
ghost use Rattle.tb_process_steps.specs.Ageing.{IsAged, AreAged};
ghost use Rattle.tb_process_steps.specs.Atoms.{accepted, is_ready, times_of};
ghost use Rattle.tb_process_steps.specs.Processes.{Process, Disrupt, aged};
ghost use Rattle.tb_process_steps.specs.Offers.{Offered, in_wait, offers};
ghost use Rattle.tb_process_steps.specs.Reached.{Reaches, IsReached, IsAgedUpTo, IsNewBehind};
ghost use Rattle.tb_process_steps.specs.Transfers.{AreApart, Comes, OnlyLeft, RightWent, atoms_of};
ghost use Rattle.tb_process_steps.specs.Helpers.Runnings.{waited};
ghost use Rattle.tb_process_steps.specs.Walks.{Walking, entering, offers_of, sent_by, patterns_by, accepted_by, fired, ticked, sorts_of};

/// States that a store takes the binds of an atom that accepts terms: each slot exists, and each value has the type of its slot.
pub fn accepted_binds_are_taken()
    ensures { (store : List Slot) (exprs : List Expr) (terms : List Term) (binds : List Bind) →
        accepted store exprs terms ≡ Some binds → IsTrue (takes_binds store binds) }
{}

/// States that the store of an offer, also after the offer is taken, has the slot types of the process's store. If the values have
/// their slots' types in the process's store, they have them in the store of the offer. They keep them after the offer is taken, if
/// this store takes the binds.
pub fn offers_keep_sorts()
    ensures sorts { (term : Process) (store : List Slot) (offered : Offered)
        → Contains (offers term store) offered → sorts_of offered.store ≡ sorts_of store }
    ensures values { (term : Process) (store : List Slot) (offered : Offered)
        → Contains (offers term store) offered
        → IsTrue (are_well_sorted store) → IsTrue (are_well_sorted offered.store) }
    ensures fired_sorts { (binds : List Bind) (ticks : ℕ) (offered : Offered)
        → sorts_of (fired binds ticks offered).store ≡ sorts_of offered.store }
    ensures fired_values { (binds : List Bind) (ticks : ℕ) (offered : Offered)
        → IsTrue (takes_binds offered.store binds) → IsTrue (are_well_sorted offered.store)
        → IsTrue (are_well_sorted (fired binds ticks offered).store) }
{}

/// States that no age is greater than the number of ticks, in a term that a body reaches and in its offers.
pub fn ages_are_within_the_ticks()
    ensures term { (tree : Tree) (ticks : ℕ) (term : Process)
        → Reaches tree ticks term → IsAgedUpTo ticks term }
    ensures offers { (tree : Tree) (ticks : ℕ) (term : Process) (store : List Slot)
        (offered : Offered) → Reaches tree ticks term
        → Contains (offers term store) offered → offered.age ≤ ticks }
{}

/// States that in a term that a body reaches, all ages on the right of a sequence and within a star are 0.
pub fn ages_behind_are_new()
    ensures { (tree : Tree) (ticks : ℕ) (term : Process)
        → Reaches tree ticks term → IsNewBehind term }
{}

/// States that in each store, the atom numbers of the offers of a term that a body reaches ascend strictly. So no two of these offers
/// have the same atom. Each of these atoms is an atom of the body.
pub fn offers_ascend()
    ensures ascend { (body : Body) (ticks : ℕ) (term : Process) (store : List Slot)
        → Reaches body.tree ticks term
        → IsStrictlyIncreasing (map (λ (offered : Offered). offered.atom) (offers term store)) }
    ensures once { (body : Body) (ticks : ℕ) (term : Process) (store : List Slot)
        (one other : Offered) → Reaches body.tree ticks term → Contains (offers term store) one
        → Contains (offers term store) other → one.atom ≡ other.atom → one ≡ other }
    ensures there { (body : Body) (ticks : ℕ) (term : Process) (store : List Slot)
        (offered : Offered) → Reaches body.tree ticks term → Contains (offers term store) offered
        → (1 ≤ offered.atom) × (offered.atom ≤ length body.atoms) }
{}

/// States that a body reaches the term of a process that enters it. If a body reaches a term, it also reaches the term after an offer is
/// taken and after a tick.
pub fn walks_stay_reached()
    ensures entering { (body : Body) (store : List Slot) → IsReached body (entering body store) }
    ensures fired { (body : Body) (walking : Walking) (k : ℕ) (offered : Offered)
        (binds : List Bind) → IsReached body walking
        → slice_get (offers_of walking) k ≡ Some offered
        → IsReached body (fired binds walking.ticks offered) }
    ensures ticked { (body : Body) (walking : Walking) → IsReached body walking
        → IsReached body (ticked walking) }
{}

/// States that a tick removes no offer and adds none. One by one, the offers after the tick have the same atoms and stores, and are one
/// tick older. The rest of each offer has aged too, except the parts that the process enters by taking the offer.
pub fn offers_age()
    ensures term { (term : Process) (store : List Slot)
        → AreAged (offers term store) (offers (aged term) store) }
    ensures walking { (walking : Walking)
        → AreAged (offers_of walking) (offers_of (ticked walking)) }
    ensures count { (walking : Walking)
        → length (offers_of (ticked walking)) ≡ length (offers_of walking) }
    ensures at { (walking : Walking) (k : ℕ) (offered : Offered)
        → slice_get (offers_of walking) k ≡ Some offered
        → (later : Offered) × (slice_get (offers_of (ticked walking)) k ≡ Some later)
        × IsAged offered later }
{}

/// States that a tick changes neither the values that an offered atom sends, nor its patterns, nor its binds for given terms. If the
/// atom has no times, the tick doesn't change whether it is ready, at any ticks of the bus.
pub fn ageing_keeps_terms()
    ensures sent { (atoms : List Atom) (offered later : Offered) → IsAged offered later
        → sent_by atoms later ≡ sent_by atoms offered }
    ensures patterns { (atoms : List Atom) (offered later : Offered) → IsAged offered later
        → patterns_by atoms later ≡ patterns_by atoms offered }
    ensures accepted { (atoms : List Atom) (terms : List Term) (offered later : Offered)
        → IsAged offered later → accepted_by atoms terms later ≡ accepted_by atoms terms offered }
    ensures ready { (atoms : List Atom) (now next : ℕ) (offered later : Offered)
        → IsAged offered later → times_of atoms offered.atom ≡ []
        → is_ready later.store later.age next (times_of atoms later.atom)
        ≡ is_ready offered.store offered.age now (times_of atoms offered.atom) }
{}

/// States that the right side of a disrupt waits and ages while only the left side takes steps. The disrupt has the offers of its
/// current left side. After them come the offers of the right side, aged by all ticks that the disrupt has seen.
pub fn right_sides_wait()
    ensures { (x y term : Process) (ticks : ℕ) → OnlyLeft x y ticks term
        → (r : Process) × Comes x ticks r × (term ≡ Disrupt r (waited ticks y))
        × ((store : List Slot) → offers term store
        ≡ map (in_wait (waited ticks y)) (offers r store) ++ offers (waited ticks y) store) }
{}

/// States that after a step of a disrupt's right side, the term is one to which offers and ticks lead from the right side alone. So each
/// offer has an atom of the right side. If the sides have no atom in common, no offer has an atom of the left side.
pub fn right_sides_are_alone()
    ensures alone { (x y term : Process) (ticks : ℕ) → RightWent x y ticks term
        → Comes y ticks term }
    ensures atoms { (x y term : Process) (ticks : ℕ) (store : List Slot) (offered : Offered)
        → RightWent x y ticks term → Contains (offers term store) offered
        → Contains (atoms_of y) offered.atom }
    ensures gone { (x y term : Process) (ticks : ℕ) (store : List Slot) (offered : Offered)
        → AreApart x y → RightWent x y ticks term → Contains (offers term store) offered
        → Contains (atoms_of x) offered.atom → ⊥ }
{}
