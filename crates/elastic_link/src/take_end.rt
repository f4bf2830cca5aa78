//! The end of a link that takes tokens.
ghost use Rattle.std.specs.Prelude.{◌≡◌, ◌+◌, ◌<◌, ◌≤◌, ◌^◌, ◌++◌, true, length};
ghost use Rattle.std.specs.Option.{ForSome};
ghost use Rattle.elastic_link.specs.Rings.{items_out, items_in};
ghost use Rattle.elastic_link.specs.Held.{tokens_of, without_held};
ghost use Rattle.elastic_link.specs.Credits.{IsStamp, credits_in, never_falls, AreTakeBounds};

use crate::message::{Counted, Credit, Stamped, Token};
use crate::rings::{RingIn, RingOut};

/// The end of a link that takes tokens. It can move to another thread.
#[derive(Drop)]
pub struct TakeEnd {
    pub(crate) tokens: RingIn<Token, Stamped>,
    pub(crate) credits: RingOut<Credit, Counted>,
    slots: u64,
    held: Option<Token>,
    owed: u64,
    newest: u64,
    pub ghost held_last: { items_in tokens
        ≡ without_held held (items_in tokens) ++ tokens_of held },
    pub ghost repaid: { credits_in (items_out credits) + owed
        ≤ length (without_held held (items_in tokens)) },
    pub ghost stamps: { never_falls 0 (items_out credits) newest ≡ true },
    pub ghost held_stamp: { ForSome held (λ t. IsStamp t.stamp) },
    pub ghost bounds: { AreTakeBounds slots owed newest },
}

#[tactic(auto, using(crate::proofs::CreditLemmas::credit_steps))]
impl TakeEnd {
    ghost use Rattle.std.specs.Prelude.{◌≡◌, ◌+◌, ◌<◌, ◌≤◌, ◌^◌, [], ◌∷◌, ◌++◌, length, Some, None, IsSome, IfSome, IfNone};
    ghost use Rattle.el_base.specs.Rises.{Rose};
    ghost use Rattle.el_base.specs.Limits.{max_slots};
    ghost use Rattle.elastic_link.specs.Rings.{items_out, items_in};
    ghost use Rattle.elastic_link.specs.Credits.{IsStamp, one_more};
    ghost use Rattle.elastic_link.specs.Ends.{tokens_taken, token_held, messages_sent, messages_repaid, credits_owed, repaid_stamp, credits_repaid, no_token_count, no_credit_slot_count, SameTakeEnd, SameTokens, SameCredits, SentOrFull, tokens_known};

    pub(crate) fn new(
        tokens: RingIn<Token, Stamped>,
        credits: RingOut<Credit, Counted>,
        slots: u64,
    ) -> TakeEnd
        requires popped { items_in tokens ≡ [] }
        requires pushed { items_out credits ≡ [] }
        requires some { 0 < slots }
        requires most { slots ≤ max_slots }
        ensures tokens { result.tokens ≡ tokens }
        ensures credits { result.credits ≡ credits }
        ensures slots { result.slots ≡ slots }
        ensures held { token_held result ≡ None }
        ensures owed { credits_owed result ≡ 0 }
        ensures stamp { repaid_stamp result ≡ 0 }
    {
        TakeEnd {
            tokens,
            credits,
            slots,
            held: None,
            owed: 0,
            newest: 0,
        }
    }

    /// The next token, which is held until it is taken; `None` where none is held then, and the ring showed none in this
    /// call.
    pub fn peek(&mut self) -> Option<Token>
        ensures same { SameTakeEnd self.old self.new }
        ensures credits { SameCredits self.old self.new }
        ensures taken { tokens_taken self.new ≡ tokens_taken self.old }
        ensures held { result ≡ token_held self.new }
        ensures kept { IfSome (token_held self.old) (λ t. token_held self.new ≡ Some t) }
        ensures stamp { IfSome result (λ t. IsStamp t.stamp) }
        ensures none { IfNone result (Rose (no_token_count self.old) (no_token_count self.new)) }
        ensures count { no_token_count self.old ≤ no_token_count self.new }
    {
        if self.held.is_none() {
            self.held = self.tokens.pop();
        }
        self.held
    }

    /// Takes the token that is held.
    pub fn take(&mut self) -> Token
        requires { IsSome (token_held self.old) }
        ensures same { SameTakeEnd self.old self.new }
        ensures credits { SameCredits self.old self.new }
        ensures taken { tokens_taken self.new ≡ tokens_taken self.old ++ result ∷ [] }
        ensures was_held { token_held self.old ≡ Some result }
        ensures held { token_held self.new ≡ None }
        ensures count { no_token_count self.new ≡ no_token_count self.old }
    {
        match self.held {
            Some(token) => {
                self.held = None;
                token
            }
            None => unreachable!(),
        }
    }

    /// Takes the token that is held, or else the next one that the ring shows; `None` where there is neither. Its credit is not
    /// repaid.
    pub(crate) fn next(&mut self) -> Option<Token>
        ensures same { SameTakeEnd self.old self.new }
        ensures credits { SameCredits self.old self.new }
        ensures some { IfSome result
            (λ x. tokens_taken self.new ≡ tokens_taken self.old ++ x ∷ []) }
        ensures held { token_held self.new ≡ None }
        ensures none { IfNone result (tokens_taken self.new ≡ tokens_taken self.old) }
        ensures held_none { IfNone result (token_held self.old ≡ None) }
        ensures known_none { IfNone result (tokens_known self.old ≡ []) }
        ensures count { no_token_count self.old ≤ no_token_count self.new }
    {
        match self.held {
            Some(token) => {
                self.held = None;
                Some(token)
            }
            None => self.tokens.pop(),
        }
    }

    /// Owes one credit more, of stamp `now`, and sends all that is owed as one message; it stays owed only where the ring
    /// of credits showed no free slot in this call.
    pub fn repay(&mut self, now: u64)
        requires taken { credits_repaid self.old < length (tokens_taken self.old) }
        requires fewer { credits_repaid self.old < 2 ^ 62 }
        requires now { IsStamp now }
        requires later { repaid_stamp self.old ≤ now }
        ensures same { SameTakeEnd self.old self.new }
        ensures tokens { SameTokens self.old self.new }
        ensures messages { messages_repaid self.new
            ≡ messages_sent self.old ++ one_more (credits_owed self.old) now ∷ [] }
        ensures repaid { credits_repaid self.new ≡ credits_repaid self.old + 1 }
        ensures stamp { repaid_stamp self.new ≡ now }
        ensures sent { SentOrFull (credits_owed self.old + 1) self.old self.new }
        ensures count { no_credit_slot_count self.old ≤ no_credit_slot_count self.new }
    {
        self.owed += 1;
        self.newest = now;
        self.flush();
    }

    /// Sends what is owed as one message; it stays owed only where the ring of credits showed no free slot in this call.
    pub fn flush(&mut self)
        ensures same { SameTakeEnd self.old self.new }
        ensures tokens { SameTokens self.old self.new }
        ensures messages { messages_repaid self.new ≡ messages_repaid self.old }
        ensures repaid { credits_repaid self.new ≡ credits_repaid self.old }
        ensures stamp { repaid_stamp self.new ≡ repaid_stamp self.old }
        ensures sent { SentOrFull (credits_owed self.old) self.old self.new }
        ensures count { no_credit_slot_count self.old ≤ no_credit_slot_count self.new }
    {
        if self.owed > 0 {
            let message = Credit {
                count: self.owed,
                stamp: self.newest,
            };
            if self.credits.push(message).is_ok() {
                self.owed = 0;
            }
        }
    }
}
