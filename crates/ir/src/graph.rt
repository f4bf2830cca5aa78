ghost use Rattle.std.specs.Prelude.{◌≡◌};

use crate::instr::Instr;
use el_base::{Array, List, Name, Scalar, Ty};
use std::marker::Model;

/// A block: its arguments' widths, its steps, and where it leads. Values are numbered, arguments first.
#[derive(Drop)]
pub struct Block {
    pub args: List<u32>,
    pub steps: List<Instr>,
    pub jump: Jump,
}

/// Where a block leads.
#[derive(Drop)]
pub enum Jump {
    Go(To),
    /// To `yes` where the condition is not 0, else to `no`.
    Two { cond: u32, yes: To, no: To },
    Return(Option<u32>),
}

/// A block with the values that are handed to its arguments.
#[derive(Drop)]
pub struct To {
    pub block: u32,
    pub with: List<u32>,
}

/// A block graph. Block 0 has the scalars as its arguments.
///
/// Contracts see the record of its fields, and learn that it is well formed from [`Ir::look`].
pub struct Ir {
    pub name: Name,
    pub scalars: List<Scalar>,
    pub arrays: List<Array>,
    pub result: Option<Ty>,
    pub blocks: List<Block>,
}

// By hand, so that to let go of one is a call.
impl Drop for Ir {
    fn drop(self) {
        let Ir {
            name: _name,
            scalars: _scalars,
            arrays: _arrays,
            result: _result,
            blocks: _blocks,
        } = self;
    }
}

impl Model for Ir {
    ghost use Rattle.ir.specs.Graphs.{Graph, IsGraph};

    ghost Value = { Graph };

    ghost view = { λ g. record {
      name = g.name;
      scalars = g.scalars;
      arrays = g.arrays;
      result = g.result;
      blocks = g.blocks;
    } };

    ghost invariant = { λ g. IsGraph (record {
      name = g.name;
      scalars = g.scalars;
      arrays = g.arrays;
      result = g.result;
      blocks = g.blocks;
    }) };
}

impl Ir {
    ghost use Rattle.ir.specs.Graphs.{IsGraph};

    /// The blocks of a graph, which is well formed.
    pub fn look(&self) -> &[Block]
        ensures blocks { result.now ≡ self.now.blocks }
        ensures fine { IsGraph self.now }
    {
        self.blocks.as_slice()
    }
}
