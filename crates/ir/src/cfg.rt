ghost use Rattle.std.specs.Prelude.{◌≡◌};

use crate::instr::Instr;
use el_base::{Array, List, Name, Scalar, Ty};
use std::marker::Model;

/// A block over variables: it reads variables first, then makes its steps, then its writes in order, and then jumps.
/// Its values are numbered, reads first, then steps.
pub struct CfgBlock {
    pub reads: List<u32>,
    pub steps: List<Instr>,
    pub writes: List<Write>,
    pub jump: CfgJump,
}

// By hand, so that to let go of one is a call.
impl Drop for CfgBlock {
    fn drop(self) {
        let CfgBlock {
            reads: _reads,
            steps: _steps,
            writes: _writes,
            jump: _jump,
        } = self;
    }
}

/// A variable gets a value of the block.
#[derive(Clone, Copy, PartialEq, Eq)]
pub struct Write {
    pub var: u32,
    pub value: u32,
}

/// Where a block leads: the targets are numbers of blocks.
#[derive(Clone, Copy, PartialEq, Eq)]
pub enum CfgJump {
    Go(u32),
    Two { cond: u32, yes: u32, no: u32 },
    Return(Option<u32>),
}

/// A graph over variables: `vars` are their widths, and the first ones are the scalars, in order.
///
/// Contracts see the record of its fields, and learn that it is well formed from [`Cfg::look`].
#[derive(Drop)]
pub struct Cfg {
    pub name: Name,
    pub scalars: List<Scalar>,
    pub arrays: List<Array>,
    pub result: Option<Ty>,
    pub vars: List<u32>,
    pub blocks: List<CfgBlock>,
}

impl Model for Cfg {
    ghost use Rattle.ir.specs.Variables.{VarGraph, IsVarGraph};

    ghost Value = { VarGraph };

    ghost view = { λ g. record {
      name = g.name;
      scalars = g.scalars;
      arrays = g.arrays;
      result = g.result;
      vars = g.vars;
      blocks = g.blocks;
    } };

    ghost invariant = { λ g. IsVarGraph (record {
      name = g.name;
      scalars = g.scalars;
      arrays = g.arrays;
      result = g.result;
      vars = g.vars;
      blocks = g.blocks;
    }) };
}

impl Cfg {
    ghost use Rattle.ir.specs.Variables.{IsVarGraph};

    /// The blocks of a graph, which is well formed.
    pub fn look(&self) -> &[CfgBlock]
        ensures blocks { result.now ≡ self.now.blocks }
        ensures fine { IsVarGraph self.now }
    {
        self.blocks.as_slice()
    }
}
