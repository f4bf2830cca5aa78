ghost use Rattle.std.specs.Prelude.{◌≡◌, ℕ, ◌+◌, ◌<◌, ◌++◌, ◌∷◌, [], map, length, IfOk, OnOk, vec_len, get_or};
ghost use Rattle.graph_parts.specs.Graph.{InRow};
ghost use Rattle.graph_parts.specs.Topological.{AreNodes, IsAcyclic, IsTopological};
ghost use Rattle.graph_parts.specs.Deepening.{IsDeepening, IsDeeper, IsEnded, IsAdvanced, met_seen, met_path};

use el_base::{List, Memory};
use std::alloc::Global;

/// A search in depth from nodes to those of their rows.
#[derive(Drop)]
struct Deepening {
    /// Whether the node was met.
    seen: Vec<bool>,
    /// How many nodes of the row were not looked at: those at its front.
    left: Vec<usize>,
    /// The nodes that were met and have not ended, each in the row of the one before it.
    path: Vec<usize>,
    /// The nodes that have ended.
    order: Vec<usize>,
}

/// The nodes of a graph without cycles, each once, and behind those of its row.
///
/// It costs time and memory in proportion to the nodes and the rows.
///
/// # Errors
///
/// [`Memory`] where memory is wanting.
pub fn topological_order(alloc: Global, rows: &[List<usize>]) -> Result<Vec<usize>, Memory>
    requires named { AreNodes rows.now }
    requires acyclic { IsAcyclic (InRow rows.now) }
    ensures { IfOk result (λ order. IsTopological rows.now order.items) }
{
    let mut search = Deepening {
        seen: vec![in alloc; false; rows.len()]?,
        left: lengths(alloc, rows)?,
        path: Vec::new(alloc),
        order: Vec::new(alloc),
    };
    for root in 0..rows.len() {
        deepen(rows, &mut search, root)?;
    }
    Ok(search.order)
}

fn lengths(alloc: Global, rows: &[List<usize>]) -> Result<Vec<usize>, Memory>
    ensures { IfOk result (λ lengths. lengths.items ≡ map length rows.now) }
{
    let mut lengths = Vec::new(alloc);
    for row in rows {
        lengths.push(row.as_slice().len())?;
    }
    Ok(lengths)
}

/// Ends the root, and all nodes that were not met before it.
fn deepen(rows: &[List<usize>], search: &mut Deepening, root: usize) -> Result<(), Memory>
    requires named { AreNodes rows.now }
    requires acyclic { IsAcyclic (InRow rows.now) }
    requires within { root < length rows.now }
    requires ended { IsEnded rows.now search.old }
    ensures { OnOk result (IsDeeper rows.now root search.old search.new) }
{
    meet(&mut search.seen, &mut search.path, root)?;
    'path: while let Some(node) = search.path.pop() {
        advance(rows, search, node)?;
    }
    Ok(())
}

/// Looks at one node more of the row of the path's last node, or ends that node.
fn advance(rows: &[List<usize>], search: &mut Deepening, node: usize) -> Result<(), Memory>
    requires named { AreNodes rows.now }
    requires acyclic { IsAcyclic (InRow rows.now) }
    requires deepening { IsDeepening rows.now search.old (search.old.path.items ++ node ∷ []) }
    ensures { OnOk result (IsAdvanced rows.now node search.old search.new) }
{
    let left = search.left[node];
    if left == 0 {
        search.order.push(node)?;
    } else {
        search.path.push(node)?;
        meet(
            &mut search.seen,
            &mut search.path,
            rows[node].as_slice()[left - 1],
        )?;
        search.left[node] = left - 1;
    }
    Ok(())
}

/// Puts the node on the path where it was not met.
fn meet(seen: &mut Vec<bool>, path: &mut Vec<usize>, node: usize) -> Result<(), Memory>
    requires { node < length seen.old.items }
    ensures seen { OnOk result (seen.new.items ≡ met_seen node seen.old.items) }
    ensures path { OnOk result (path.new.items ≡ met_path node seen.old.items path.old.items) }
{
    if !seen[node] {
        seen[node] = true;
        path.push(node)?;
    }
    Ok(())
}
