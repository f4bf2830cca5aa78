//! The order of firings: a law, as the contract of a function that does nothing.
ghost use Rattle.std.specs.Prelude.{◌≡◌, Some, None};
ghost use Rattle.std.specs.declared.cmp.Ordering.TheVariants.{Equal};
ghost use Rattle.net_types.specs.declared.firing.Act.{Act as Acts};
ghost use Rattle.net_types.specs.declared.firing.Firing.{Firing as Firings};
ghost use Rattle.net_types.specs.Order.{act_order, firing_order, next_act, ActFits, ActLe, IsNextAct};

use crate::firing::{Act, Firing};

/// Firings are ordered by unit, then by act, and acts by their place among the variants of [`Act`], then by number.
/// Only equal firings are not told apart.
pub fn firings_are_ordered()
    ensures acts { (a b : Acts) → ⟦<Act as Ord>⟧.cmp a b ≡ act_order a b }
    ensures firings { (f g : Firings) → ⟦<Firing as Ord>⟧.cmp f g ≡ firing_order f g }
    ensures equal { (f g : Firings) → ⟦<Firing as Ord>⟧.cmp f g ≡ Equal → f ≡ g }
{}

/// What [`Act::next`] gives is the next act in the order: nothing stands between. The last has none after it.
pub fn acts_follow()
    ensures next { (a b : Acts) → ActFits a → next_act a ≡ Some b → IsNextAct a b }
    ensures fits { (a b : Acts) → ActFits a → next_act a ≡ Some b → ActFits b }
    ensures last { (a c : Acts) → ActFits a → next_act a ≡ None → ActFits c → ActLe c a }
{}
