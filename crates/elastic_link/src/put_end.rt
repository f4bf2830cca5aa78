//! The end of a link that puts tokens.
ghost use Rattle.std.specs.Prelude.{◌≡◌, ◌+◌, ◌<◌, ◌≤◌, ◌^◌, length};
ghost use Rattle.elastic_link.specs.Rings.{items_out, items_in};
ghost use Rattle.elastic_link.specs.Credits.{credits_in, newest_stamp, ArePutBounds};

use crate::message::{Counted, Credit, Stamped, Token};
use crate::rings::{RingIn, RingOut};
use crate::take_end::TakeEnd;

/// The end of a link that puts tokens. It can move to another thread.
#[derive(Drop)]
pub struct PutEnd {
    tokens: RingOut<Token, Stamped>,
    credits: RingIn<Credit, Counted>,
    slots: u64,
    in_hand: u64,
    newest: u64,
    pub ghost room: { length (items_out tokens) + in_hand ≡ slots + credits_in (items_in credits) },
    pub ghost greatest: { newest ≡ newest_stamp (items_in credits) },
    pub ghost bounds: { ArePutBounds slots in_hand newest },
}

#[tactic(auto, using(crate::proofs::CreditLemmas::credit_steps))]
impl PutEnd {
    ghost use Rattle.std.specs.Prelude.{◌≡◌, ◌⊎◌, ◌+◌, ◌<◌, ◌≤◌, ◌^◌, [], ◌∷◌, ◌++◌, length, IsOk, OnOk, IfErr, IfSome, IfNone, IsTrue, IsFalse};
    ghost use mathlib.Core.List.{IsPrefix};
    ghost use Rattle.el_base.specs.Rises.{Rose};
    ghost use Rattle.el_base.specs.Limits.{max_slots};
    ghost use Rattle.elastic_link.specs.Rings.{items_out, items_in, room_out, items_known};
    ghost use Rattle.elastic_link.specs.Credits.{IsStamp, newest_stamp};
    ghost use Rattle.elastic_link.specs.Ends.{token_room, tokens_put, messages_received, credits_in_hand, slots_of, no_slot_count, no_message_count, SamePutEnd, SameTakeEnd, tokens_taken, KeptPutEnd, KeptTakeEnd, IsLink, IsSound};

    pub(crate) fn new(
        tokens: RingOut<Token, Stamped>,
        credits: RingIn<Credit, Counted>,
        slots: u64,
    ) -> PutEnd
        requires pushed { items_out tokens ≡ [] }
        requires popped { items_in credits ≡ [] }
        requires some { 0 < slots }
        requires most { slots ≤ max_slots }
        ensures tokens { result.tokens ≡ tokens }
        ensures credits { result.credits ≡ credits }
        ensures slots { slots_of result ≡ slots }
        ensures in_hand { credits_in_hand result ≡ slots }
    {
        PutEnd {
            tokens,
            credits,
            slots,
            in_hand: slots,
            newest: 0,
        }
    }

    /// Takes in the credits that the ring shows, message by message, until there is one for each slot in hand. Answers the
    /// greatest stamp of all messages taken in so far, 0 before the first, where a credit is in hand; `None` where there is
    /// none, and then the ring showed no message in this call.
    pub fn ready(&mut self) -> Option<u64>
        ensures same { SamePutEnd self.old self.new }
        ensures put { tokens_put self.new ≡ tokens_put self.old }
        ensures received { IsPrefix (messages_received self.old) (messages_received self.new) }
        ensures stamp { IfSome result (λ s. s ≡ newest_stamp (messages_received self.new)) }
        ensures bound { IfSome result (λ s. IsStamp s) }
        ensures some { IfSome result (λ _. 0 < credits_in_hand self.new) }
        ensures none { IfNone result (credits_in_hand self.new ≡ 0) }
        ensures empty { IfNone result
            (Rose (no_message_count self.old) (no_message_count self.new)) }
        ensures all { (slots_of self.new ≤ credits_in_hand self.new)
            ⊎ Rose (no_message_count self.old) (no_message_count self.new) }
        ensures count { no_message_count self.old ≤ no_message_count self.new }
        ensures other_count { no_slot_count self.new ≡ no_slot_count self.old }
    {
        while self.in_hand < self.slots && self.take_in() {}
        if self.in_hand == 0 {
            None
        } else {
            Some(self.newest)
        }
    }

    // Takes in one message, where the ring shows one.
    fn take_in(&mut self) -> bool
        requires { credits_in_hand self.old < slots_of self.old }
        ensures same { SamePutEnd self.old self.new }
        ensures put { tokens_put self.new ≡ tokens_put self.old }
        ensures received { IsPrefix (messages_received self.old) (messages_received self.new) }
        ensures taken { IsTrue result → credits_in_hand self.old < credits_in_hand self.new }
        ensures none { IsFalse result → credits_in_hand self.new ≡ credits_in_hand self.old }
        ensures empty { IsFalse result
            → Rose (no_message_count self.old) (no_message_count self.new) }
        ensures count { no_message_count self.old ≤ no_message_count self.new }
        ensures other_count { no_slot_count self.new ≡ no_slot_count self.old }
    {
        let Some(credit) = self.credits.pop() else {
            return false;
        };
        self.in_hand += credit.count;
        self.newest = self.newest.max(credit.stamp);
        true
    }

    /// Puts the token and spends a credit.
    ///
    /// # Errors
    ///
    /// The token, where the ring showed no free slot in this call; nothing has changed.
    pub fn put(&mut self, token: Token) -> Result<(), Token>
        requires credit { 0 < credits_in_hand self.old }
        requires stamp { IsStamp token.stamp }
        ensures same { SamePutEnd self.old self.new }
        ensures received { messages_received self.new ≡ messages_received self.old }
        ensures ok { OnOk result (tokens_put self.new ≡ tokens_put self.old ++ token ∷ []) }
        ensures spent { OnOk result (credits_in_hand self.old ≡ credits_in_hand self.new + 1) }
        ensures back { IfErr result (λ back. back ≡ token) }
        ensures kept { IfErr result (λ _. tokens_put self.new ≡ tokens_put self.old) }
        ensures unspent { IfErr result (λ _. credits_in_hand self.new ≡ credits_in_hand self.old) }
        ensures full { IfErr result (λ _. Rose (no_slot_count self.old) (no_slot_count self.new)) }
        ensures succeeds { 0 < token_room self.old → IsOk result }
        ensures count { no_slot_count self.old ≤ no_slot_count self.new }
        ensures other_count { no_message_count self.new ≡ no_message_count self.old }
    {
        self.tokens.push(token)?;
        self.in_hand -= 1;
        Ok(())
    }

    /// With both ends in one thread: the link is sound, whatever threads used its ends before. Moves nothing.
    pub fn settle(&mut self, take: &mut TakeEnd)
        requires { IsLink self.old take.old }
        ensures sound { IsSound self.new take.new }
        ensures put { KeptPutEnd self.old self.new }
        ensures take { KeptTakeEnd take.old take.new }
        ensures link { IsLink self.new take.new }
    {
        take.tokens.beside(&mut self.tokens);
        self.credits.beside(&mut take.credits);
    }

    /// With both ends in one thread: takes the oldest token that was put and not taken, whether it is held or in the ring;
    /// `None` where all were taken. Its credit is not repaid.
    pub fn drain(&mut self, take: &mut TakeEnd) -> Option<Token>
        requires { IsLink self.old take.old }
        ensures link { IsLink self.new take.new }
        ensures put { KeptPutEnd self.old self.new }
        ensures take { SameTakeEnd take.old take.new }
        ensures first { IsPrefix (tokens_taken take.new) (tokens_put self.new) }
        ensures some { IfSome result
            (λ x. tokens_taken take.new ≡ tokens_taken take.old ++ x ∷ []) }
        ensures none { IfNone result (tokens_taken take.new ≡ tokens_taken take.old) }
        ensures all { IfNone result (tokens_taken take.new ≡ tokens_put self.new) }
    {
        take.tokens.beside(&mut self.tokens);
        let token = take.next();
        take.tokens.beside(&mut self.tokens);
        token
    }
}
