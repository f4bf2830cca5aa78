ghost use Rattle.std.specs.Prelude.{◌≡◌, ◌+◌, ◌<◌, ◌≤◌, ◌^◌, [], ◌∷◌, ◌++◌, length, set, IfOk, OnOk};
ghost use Rattle.struct_cfg.specs.Code.{HasGrown};
ghost use Rattle.struct_cfg.specs.Kernels.{empty};
ghost use Rattle.struct_cfg.specs.Drafts.{own_values, writes_from, with_steps, with_value, close, here, next_value};

use el_base::{List, Memory};
use ir::{CfgBlock, CfgJump, Instr, Write};
use std::alloc::Global;

/// A graph under construction: its closed blocks, and the steps of the open one with the value of each variable after them.
#[derive(Drop)]
pub struct Draft {
    pub blocks: List<CfgBlock>,
    pub steps: List<Instr>,
    pub env: List<u32>,
}

/// The numbers below `n`: what each variable is when a block begins.
#[tactic(auto, using(crate::proofs::Own::own_more))]
pub(crate) fn own_values(alloc: Global, n: usize) -> Result<List<u32>, Memory>
    requires { n ≤ 2 ^ 32 }
    ensures { IfOk result (λ vs. vs ≡ own_values n) }
{
    let mut values = List::new(alloc);
    for i in 0..n {
        values.push(i as u32)?;
    }
    Ok(values)
}

#[tactic(auto, using(crate::proofs::Own::writes_more))]
fn writes(alloc: Global, env: &[u32]) -> Result<List<Write>, Memory>
    requires { length env.now ≤ 2 ^ 32 }
    ensures { IfOk result (λ ws. ws ≡ writes_from 0 env.now) }
{
    let mut writes = List::new(alloc);
    for i in 0..env.len() {
        writes.push(Write {
            var: i as u32,
            value: env[i],
        })?;
    }
    Ok(writes)
}

impl Draft {
    /// Nothing is laid yet, and each of `n` variables is its own value.
    pub(crate) fn new(alloc: Global, n: usize) -> Result<Draft, Memory>
        requires { n ≤ 2 ^ 32 }
        ensures { IfOk result (λ d. d ≡ empty n) }
    {
        Ok(Draft {
            blocks: List::new(alloc),
            steps: List::new(alloc),
            env: own_values(alloc, n)?,
        })
    }

    /// The number of the open block.
    pub(crate) fn here(&self) -> u32
        requires { here self.now < 2 ^ 32 }
        ensures { result ≡ here self.now }
    {
        self.blocks.len() as u32
    }

    /// A variable gets a value; nothing is changed where there is no such variable.
    #[tactic(auto, using(crate::proofs::Grows::value_beyond))]
    pub(crate) fn set(&mut self, var: u32, value: u32)
        ensures { self.new ≡ with_value var value self.old }
    {
        if (var as usize) < self.env.len() {
            self.env.set(var as usize, value);
        }
    }

    /// The open block is closed by a jump, and the next one is open.
    pub(crate) fn close(&mut self, alloc: Global, jump: CfgJump) -> Result<(), Memory>
        requires { length self.old.env ≤ 2 ^ 32 }
        ensures made { OnOk result (self.new ≡ close jump self.old) }
        ensures few { OnOk result (HasGrown self.old self.new 1 0) }
    {
        let reads = own_values(alloc, self.env.len())?;
        let env = own_values(alloc, self.env.len())?;
        let writes = writes(alloc, self.env.as_slice())?;
        let steps = std::mem::replace(&mut self.steps, List::new(alloc));
        self.blocks.push(CfgBlock {
            reads,
            steps,
            writes,
            jump,
        })?;
        self.env = env;
        Ok(())
    }
}
