//! The outputs on which a fork has sent its head.

ghost use Rattle.std.specs.Prelude.{◌≡◌, ◌==◌, Bool, true, false, List, get_or, length, replicate, IfOk};
ghost use Rattle.net_core.specs.Fire.{sent_to};
ghost use Rattle.el_base.specs.Limits.{IsNumbered};
ghost use Rattle.net_core.specs.private.Restores.{numbers_set};
ghost use Rattle.net_core.specs.private.Sents.{count_false};

use net_types::{List, Memory};
use std::alloc::Global;
use std::marker::Model;

/// One bit per output of a fork. A bit is set where it has the value `mark`, so that all are cleared in one step.
#[derive(Drop)]
pub struct Sent {
    bits: Vec<bool>,
    mark: bool,
    left: usize,
}

impl Model for Sent {
    ghost use Rattle.std.specs.Prelude.{◌≡◌, Bool, List, map};
    ghost use Rattle.net_core.specs.private.Sents.{count_false, is_marked};

    ghost Value = { List Bool };

    ghost view = { λ s. map (is_marked s.mark) s.bits.items };

    ghost invariant = { λ s. s.left ≡ count_false (map (is_marked s.mark) s.bits.items) };
}

impl Sent {
    /// No output of this many has been sent on.
    pub fn new(alloc: Global, outs: u32) -> Result<Sent, Memory>
        ensures { IfOk result (λ s. s ≡ replicate outs false) }
    {
        let bits = vec![in alloc; false; outs as usize]?;
        Ok(Sent {
            bits,
            mark: true,
            left: outs as usize,
        })
    }

    /// Whether an output has been sent on; past the outputs it counts as sent.
    #[inline(always)]
    pub fn is_set(&self, out: u32) -> bool
        ensures { result ≡ get_or self.now out true }
    {
        out as usize >= self.bits.len() || self.bits[out as usize] == self.mark
    }

    /// Whether one output is left.
    #[inline(always)]
    pub fn is_last(&self) -> bool
        ensures { result ≡ (count_false self.now == 1) }
    {
        self.left == 1
    }

    /// Notes a sending; the last one clears all bits.
    #[inline(always)]
    pub fn send(&mut self, out: u32)
        requires { get_or self.old out true ≡ false }
        ensures { self.new ≡ sent_to out self.old }
    {
        self.bits[out as usize] = self.mark;
        self.left -= 1;
        if self.left == 0 {
            self.mark = !self.mark;
            self.left = self.bits.len();
        }
    }

    /// How many outputs there are.
    fn count(&self) -> usize
        ensures { result ≡ length self.now }
    {
        self.bits.len()
    }

    /// The outputs that have been sent on, ascending.
    ///
    /// # Errors
    ///
    /// [`Memory`] where memory is wanting.
    pub fn outs(&self, alloc: Global) -> Result<List<u32>, Memory>
        requires { IsNumbered (length self.now) }
        ensures { IfOk result (λ l. l ≡ numbers_set 0 self.now) }
    {
        let count = self.count();
        let mut outs = List::new(alloc);
        for at in 0..count {
            if self.is_set(at as u32) {
                outs.push(at as u32)?;
            }
        }
        Ok(outs)
    }
}
