//! What a firing does to one end of a link.
ghost use Rattle.std.specs.Prelude.{◌≡◌, ◌≤◌, ◌<◌, ◌+◌, ◌^◌, max, length, [], ◌∷◌, ◌++◌, IfSome, IfNone, IsSome, Some, None};
ghost use mathlib.Core.List.{IsPrefix};
ghost use Rattle.el_base.specs.Rises.{Rose};
ghost use Rattle.elastic_link.specs.Ends.{tokens_put, messages_received, credits_in_hand, no_slot_count, no_message_count, SamePutEnd, tokens_taken, token_held, messages_sent, messages_repaid, credits_owed, credits_repaid, repaid_stamp, SameTakeEnd};
ghost use Rattle.elastic_link.specs.Credits.{newest_stamp, IsStamp, one_more, credits_in};
ghost use Rattle.net_worker.specs.Ends.{IsPutAbove, IsNotPut, IsUnspent};

use elastic_link::{PutEnd, TakeEnd, Token};

/// Puts a value with a stamp one above the clock and the newest credit, where a credit and a slot are at hand. Where no stamp
/// is left above the clock the end is not asked.
pub(crate) fn put_above(end: &mut PutEnd, value: u64, clock: u64) -> Option<u64>
    requires { IsStamp clock }
    ensures same { SamePutEnd end.old end.new }
    ensures received { IsPrefix (messages_received end.old) (messages_received end.new) }
    ensures put { IfSome result (IsPutAbove end.old end.new value clock) }
    ensures kept { IfNone result (tokens_put end.new ≡ tokens_put end.old) }
    ensures none { IfNone result (IsNotPut end.old end.new clock) }
    ensures hand { IfNone result (IsUnspent end.old end.new) }
    ensures messages { no_message_count end.old ≤ no_message_count end.new }
    ensures slots { no_slot_count end.old ≤ no_slot_count end.new }
{
    if clock + 1 >= 1 << 62 {
        return None;
    }
    let credit = end.ready()?;
    let stamp = clock.max(credit) + 1;
    if stamp >= 1 << 62 {
        return None;
    }
    match end.put(Token { value, stamp }) {
        Ok(()) => Some(stamp),
        Err(_) => None,
    }
}

/// Takes the token that is held, and repays its credit with the stamp of the firing.
pub(crate) fn take_with(end: &mut TakeEnd, stamp: u64) -> Token
    requires held { IsSome (token_held end.old) }
    requires stamp { IsStamp stamp }
    requires later { repaid_stamp end.old ≤ stamp }
    requires repaid { credits_repaid end.old ≡ length (tokens_taken end.old) }
    requires few { credits_repaid end.old < 2 ^ 62 }
    ensures same { SameTakeEnd end.old end.new }
    ensures was_held { token_held end.old ≡ Some result }
    ensures taken { tokens_taken end.new ≡ tokens_taken end.old ++ result ∷ [] }
    ensures held { token_held end.new ≡ None }
    ensures messages { messages_repaid end.new
        ≡ messages_sent end.old ++ one_more (credits_owed end.old) stamp ∷ [] }
    ensures last { repaid_stamp end.new ≡ stamp }
    ensures all { credits_repaid end.new ≡ length (tokens_taken end.new) }
{
    let token = end.take();
    end.repay(stamp);
    token
}
