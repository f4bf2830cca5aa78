//! How much a visit of a block takes, and how great a graph is.
ghost use Rattle.std.specs.Prelude.{◌≡◌, ◌<◌, ◌^◌, nat_le};
ghost use Rattle.ir.specs.Graphs.{block_weight, handed_on, size};

use crate::graph::{Block, Ir, Jump};

impl Jump {
    /// The values that are handed on, those of both targets counted.
    pub fn handed_on(&self) -> u128
        ensures value { result ≡ handed_on self.now }
        ensures few { result < 2 ^ 66 }
    {
        match self {
            Jump::Go(to) => to.with.len() as u128,
            Jump::Two { cond: _, yes, no } => yes.with.len() as u128 + no.with.len() as u128,
            Jump::Return(_) => 0,
        }
    }
}

impl Block {
    /// The weight of a visit: 1 and the block's arguments, its steps, and the values that its jump hands on.
    pub fn weight(&self) -> u128
        ensures value { result ≡ block_weight self.now }
        ensures few { result < 2 ^ 67 }
    {
        let args = self.args.len() as u128;
        let steps = self.steps.len() as u128;
        1 + args + steps + self.jump.handed_on()
    }
}

impl Ir {
    /// Whether the size of the graph, which is the sum of the weights of its blocks, is at most that number.
    #[tactic(auto, using(crate::proofs::Sizes::size_more))]
    pub fn has_size_within(&self, limit: u128) -> bool
        ensures { result ≡ nat_le (size self.now) limit }
    {
        let mut left = limit;
        for block in self.blocks.as_slice() {
            let weight = block.weight();
            if left < weight {
                return false;
            }
            left -= weight;
        }
        true
    }
}
