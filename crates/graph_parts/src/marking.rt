ghost use Rattle.std.specs.Prelude.{◌≡◌, ◌≢◌, ℕ, ◌+◌, ◌<◌, ◌^◌, length, IfOk, OnOk, slice_index, vec_len, get_or};
ghost use Rattle.graph_parts.specs.Graph.{Edge, InRow, AreTurned};
ghost use Rattle.graph_parts.specs.Search.{mark};
ghost use Rattle.graph_parts.specs.Parts.{IsParted, ArePartsOf, IsCleared, IsPartedMore, cleared_marks};

use crate::order::finish_order;
use crate::searching::search;
use crate::tables::rows;
use el_base::{List, Memory};
use std::alloc::Global;

/// A mark for each node: two nodes have one mark exactly where each can be reached from the other.
///
/// The edges are given by the nodes that they come from and those that they go to. It costs time and memory in proportion to
/// the nodes and the edges.
///
/// # Errors
///
/// [`Memory`] where memory is wanting.
pub fn parts(
    alloc: Global,
    nodes: usize,
    from: &[usize],
    to: &[usize],
) -> Result<Vec<usize>, Memory>
    requires most { nodes < 2 ^ 62 }
    requires len { length to.now ≡ length from.now }
    requires from { (e : ℕ) → e < length from.now → slice_index from.now e < nodes }
    requires to { (e : ℕ) → e < length to.now → slice_index to.now e < nodes }
    ensures { IfOk result (λ marks. ArePartsOf nodes (Edge from.now to.now) marks.items) }
{
    let ahead = rows(alloc, nodes, from, to)?;
    let back = rows(alloc, nodes, to, from)?;
    let order = finish_order(alloc, &ahead, from.len())?;
    let mut marks: Vec<usize> = vec![in alloc; 0; nodes]?;
    'latest: for root in order.iter().rev() {
        part(alloc, &ahead, &back, &mut marks, *root)?;
    }
    'rest: for root in 0..nodes {
        part(alloc, &ahead, &back, &mut marks, root)?;
    }
    Ok(marks)
}

/// Marks the part of the root, where it has no mark.
fn part(
    alloc: Global,
    ahead: &Vec<List<usize>>,
    back: &Vec<List<usize>>,
    marks: &mut Vec<usize>,
    root: usize,
) -> Result<(), Memory>
    requires most { length marks.old.items < 2 ^ 62 }
    requires rows { AreTurned (length marks.old.items) ahead.now.items back.now.items }
    requires parted { IsParted (length marks.old.items) (InRow ahead.now.items) marks.old.items }
    ensures { OnOk result (IsPartedMore (length marks.old.items) (InRow ahead.now.items)
        root marks.old.items marks.new.items) }
{
    if root < marks.len() {
        if marks[root] == 0 {
            let found = search(alloc, back, marks, root, 0, 1)?;
            search(alloc, ahead, marks, root, 1, root + 2)?;
            clear(found.as_slice(), marks);
        }
    }
    Ok(())
}

/// Takes the mark 1 from the nodes of the list.
fn clear(list: &[usize], marks: &mut Vec<usize>)
    requires { (i : ℕ) → i < length list.now → get_or list.now i 0 < length marks.old.items }
    ensures { IsCleared list.now (length list.now) marks.old.items marks.new.items }
{
    for node in list {
        clear_one(*node, marks);
    }
}

fn clear_one(node: usize, marks: &mut Vec<usize>)
    requires { node < length marks.old.items }
    ensures { marks.new.items ≡ cleared_marks node marks.old.items }
{
    if marks[node] == 1 {
        marks[node] = 0;
    }
}
