//! The edges between blocks.
ghost use Rattle.std.specs.Prelude.{◌≡◌, get_or, length, IfOk, OnOk};
ghost use Rattle.circuit_build.specs.Uses.{zeros};
ghost use Rattle.circuit_build.specs.Edges.{
  data_laid,
  edge_laid,
  connected,
  raised,
  sides_counted,
  edge_counts,
};

use crate::draft::{Draft, Edge, End, number};
use el_base::{List, Memory};
use ir::{Block, Jump};
use net_types::Place;
use std::alloc::Global;

#[tactic(auto, using(crate::proofs::Tables::zeros_more))]
pub(crate) fn zeros(alloc: Global, targets: usize) -> Result<List<u32>, Memory>
    ensures { IfOk result (λ table. table ≡ zeros targets) }
{
    let mut table = List::new(alloc);
    for i in 0..targets {
        table.push(0)?;
    }
    Ok(table)
}

// What a table has for a target.
pub(crate) fn count_at(table: &[u32], target: u32) -> u32
    ensures { result ≡ get_or table.now target 0 }
{
    table.get(target as usize).copied().unwrap_or(0)
}

// One more for a target.
#[tactic(auto, using(crate::proofs::Tables::raised_past))]
fn raise(table: &mut List<u32>, target: u32)
    ensures { table.new ≡ raised target table.old }
{
    let count = count_at(table.as_slice(), target);
    if (target as usize) < table.len() {
        table.set(target as usize, count.saturating_add(1));
    }
}

fn count_sides(table: &mut List<u32>, join: u32, jump: &Jump)
    ensures { table.new ≡ sides_counted join jump.now table.old }
{
    match jump {
        Jump::Go(to) => raise(table, to.block),
        Jump::Two { cond: _, yes, no } => {
            raise(table, yes.block);
            raise(table, no.block);
        }
        Jump::Return(_) => raise(table, join),
    }
}

/// How many edges each target has; the return join is the target after the blocks.
pub(crate) fn edge_counts(alloc: Global, blocks: &[Block]) -> Result<List<u32>, Memory>
    ensures { IfOk result (λ table. table ≡ edge_counts blocks.now) }
{
    let join = number(blocks.len());
    let mut table = zeros(alloc, blocks.len() + 1)?;
    raise(&mut table, 0);
    for block in blocks {
        count_sides(&mut table, join, &block.jump);
    }
    Ok(table)
}

impl Draft {
    // The channels of the values of an edge, each to a mux of its own.
    fn lay_data(&mut self, mux: u32, place: u32, ends: &[End]) -> Result<(), Memory>
        ensures { OnOk result (self.new ≡ data_laid mux place ends.now self.old) }
    {
        let mut mux = mux;
        for end in ends {
            self.feed(*end, mux, place)?;
            mux = mux.saturating_add(1);
        }
        Ok(())
    }

    // The channels of an edge of a number at the merge of its target, where that has one. No merge is unit 0.
    fn lay_edge(&mut self, number: u32, edge: &Edge) -> Result<(), Memory>
        ensures { OnOk result (self.new ≡ edge_laid number edge.now self.old) }
    {
        let unit = count_at(self.heads.as_slice(), edge.to);
        if unit == 0 {
            return Ok(());
        }
        let head = Place {
            unit,
            place: number,
        };
        self.wire(edge.control, head, 32, true)?;
        self.lay_data(
            unit.saturating_add(2),
            number.saturating_add(1),
            edge.with.as_slice(),
        )
    }

    /// The channels of all edges to merges, of so many targets.
    pub(crate) fn connect(&mut self, alloc: Global, targets: usize) -> Result<(), Memory>
        ensures { OnOk result (self.new ≡ connected targets self.old) }
    {
        let edges = std::mem::replace(&mut self.edges, List::new(alloc));
        let mut seen = zeros(alloc, targets)?;
        for edge in edges.as_slice() {
            let number = count_at(seen.as_slice(), edge.to);
            self.lay_edge(number, edge)?;
            raise(&mut seen, edge.to);
        }
        Ok(())
    }
}
