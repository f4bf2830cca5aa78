//! The two ends of a ring, which count how often the ring showed nothing.
ghost use Rattle.std.specs.Prelude.{◌≡◌, ◌<◌, ◌≤◌, [], ◌∷◌, ◌++◌, length, IsOk, OnOk, IfOk, IfErr, IsSome, IfSome, IfNone};
ghost use Rattle.el_base.specs.Rises.{Rose};
ghost use Rattle.elastic_link.specs.Rings.{items_out, items_in, room_out, items_known, full_count, empty_count, IsRing, SameOut, SameIn, KeptOut, KeptIn};

use el_base::Memory;
use rtrb::{Consumer, Producer, Protocol, PushError, RingBuffer};
use std::alloc::Global;

/// The end that pushes.
#[derive(Drop)]
pub struct RingOut<T, P: Protocol<T>> {
    ring: Producer<T, Global, P>,
    fulls: u64,
}

/// The end that pops.
#[derive(Drop)]
pub struct RingIn<T, P: Protocol<T>> {
    ring: Consumer<T, Global, P>,
    empties: u64,
}

/// Both ends of a new ring.
///
/// # Errors
///
/// [`Memory`] where memory is wanting.
pub(crate) fn ring<T: Drop, P: Protocol<T>>(
    alloc: Global,
    slots: usize,
) -> Result<(RingOut<T, P>, RingIn<T, P>), Memory>
    ensures pair { IfOk result (λ r. IsRing r.0 r.1) }
    ensures pushed { IfOk result (λ r. items_out r.0 ≡ []) }
    ensures room { IfOk result (λ r. room_out r.0 ≡ slots) }
    ensures popped { IfOk result (λ r. items_in r.1 ≡ []) }
    ensures known { IfOk result (λ r. items_known r.1 ≡ []) }
{
    let (producer, consumer) = RingBuffer::with_protocol::<Global, P>(alloc, slots)?;
    Ok((
        RingOut {
            ring: producer,
            fulls: 0,
        },
        RingIn {
            ring: consumer,
            empties: 0,
        },
    ))
}

impl<T, P: Protocol<T>> RingOut<T, P> {
    /// Pushes the item, or hands it back where the ring showed no free slot.
    pub(crate) fn push(&mut self, item: T) -> Result<(), T>
        requires allowed { P.allows (items_out self.old) item }
        ensures same { SameOut self.old self.new }
        ensures ok { OnOk result (items_out self.new ≡ items_out self.old ++ item ∷ []) }
        ensures back { IfErr result (λ back. back ≡ item) }
        ensures items { IfErr result (λ _. items_out self.new ≡ items_out self.old) }
        ensures full { IfErr result (λ _. Rose (full_count self.old) (full_count self.new)) }
        ensures succeeds { 0 < room_out self.old → IsOk result }
        ensures count { full_count self.old ≤ full_count self.new }
    {
        match self.ring.push(item) {
            Ok(()) => Ok(()),
            Err(PushError::Full(back)) => {
                self.fulls = self.fulls.saturating_add(1);
                Err(back)
            }
        }
    }
}

impl<T, P: Protocol<T>> RingIn<T, P> {
    /// Pops the oldest item; `None` where the ring showed none.
    pub(crate) fn pop(&mut self) -> Option<T>
        ensures same { SameIn self.old self.new }
        ensures some { IfSome result (λ x. items_in self.new ≡ items_in self.old ++ x ∷ []) }
        ensures allowed { IfSome result (λ x. P.allows (items_in self.old) x) }
        ensures none { IfNone result (items_in self.new ≡ items_in self.old) }
        ensures empty { IfNone result (Rose (empty_count self.old) (empty_count self.new)) }
        ensures succeeds { 0 < length (items_known self.old) → IsSome result }
        ensures count { empty_count self.old ≤ empty_count self.new }
    {
        match self.ring.pop() {
            Ok(x) => Some(x),
            Err(_) => {
                self.empties = self.empties.saturating_add(1);
                None
            }
        }
    }

    /// With both ends in one thread: what was popped, and what is in the ring, are what was pushed.
    pub(crate) fn beside(&mut self, out: &mut RingOut<T, P>)
        requires { IsRing out.old self.old }
        ensures same { KeptIn self.old self.new }
        ensures out { KeptOut out.old out.new }
        ensures fifo { items_in self.new ++ items_known self.new ≡ items_out out.new }
    {
        self.ring.slots_beside(&mut out.ring);
    }
}
