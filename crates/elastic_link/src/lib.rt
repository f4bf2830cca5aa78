//! Links between two owners: a ring of tokens one way, a ring of credits the other way. No call but `link` takes memory,
//! and none waits.
#![tactic(auto)]

ghost use Rattle.std.specs.Prelude.{◌≡◌, ◌<◌, ◌≤◌, IfOk};
ghost use Rattle.elastic_link.specs.Ends.{token_room, credit_room, IsNewPut, IsNewTake, IsLink};
ghost use Rattle.el_base.specs.Limits.{max_slots};

mod message;
mod put_end;
mod rings;
mod take_end;

use el_base::Memory;
pub use message::{Credit, Token};
use message::{Counted, Stamped};
pub use put_end::PutEnd;
use rings::ring;
pub use rings::{RingIn, RingOut};
use std::alloc::Global;
pub use take_end::TakeEnd;

/// The two ends of a new link of 1 to 1,024 slots. The put end has a credit of stamp 0 in hand for each slot.
///
/// # Errors
///
/// [`Memory`] where memory is wanting.
pub fn link(alloc: Global, slots: u32) -> Result<(PutEnd, TakeEnd), Memory>
    requires some { 0 < slots }
    requires most { slots ≤ max_slots }
    ensures link { IfOk result (λ ends. IsLink ends.0 ends.1) }
    ensures put { IfOk result (λ ends. IsNewPut slots ends.0) }
    ensures take { IfOk result (λ ends. IsNewTake ends.1) }
    ensures token_room { IfOk result (λ ends. token_room ends.0 ≡ slots) }
    ensures credit_room { IfOk result (λ ends. credit_room ends.1 ≡ slots) }
{
    let (tokens_out, tokens_in) = ring::<Token, Stamped>(alloc, slots as usize)?;
    let (credits_out, credits_in) = ring::<Credit, Counted>(alloc, slots as usize)?;
    let put = PutEnd::new(tokens_out, credits_in, slots as u64);
    let take = TakeEnd::new(tokens_in, credits_out, slots as u64);
    Ok((put, take))
}
