ghost use Rattle.std.specs.Prelude.{◌≡◌, ℕ, ◌<◌, ◌++◌, ◌∷◌, [], length, IfOk, OnOk, slice_index, slice_set, vec_len, get_or};
ghost use Rattle.std.specs.List.{All};
ghost use Rattle.graph_parts.specs.Graph.{AreRows};

use el_base::{List, Memory};
use std::alloc::Global;

/// For each of the nodes the targets of the edges out of it, in time and memory in proportion to the nodes and the edges.
///
/// # Errors
///
/// [`Memory`] where memory is wanting.
pub fn rows(
    alloc: Global,
    nodes: usize,
    from: &[usize],
    to: &[usize],
) -> Result<Vec<List<usize>>, Memory>
    requires len { length to.now ≡ length from.now }
    requires from { (e : ℕ) → e < length from.now → slice_index from.now e < nodes }
    requires to { (e : ℕ) → e < length to.now → slice_index to.now e < nodes }
    ensures { IfOk result (λ rows. AreRows nodes from.now to.now rows.items) }
{
    let mut rows = no_rows(alloc, nodes)?;
    for (e, source) in from.iter().enumerate() {
        add(&mut rows, *source, to[e])?;
    }
    Ok(rows)
}

fn no_rows(alloc: Global, count: usize) -> Result<Vec<List<usize>>, Memory>
    ensures len { IfOk result (λ rows. vec_len rows ≡ count) }
    ensures none { IfOk result (λ rows. All (λ row. row ≡ []) rows.items) }
{
    let mut rows = Vec::new(alloc);
    for _ in 0..count {
        rows.push(List::new(alloc))?;
    }
    Ok(rows)
}

fn add(rows: &mut Vec<List<usize>>, source: usize, target: usize) -> Result<(), Memory>
    requires { source < vec_len rows.old }
    ensures { OnOk result (rows.new.items ≡
        slice_set rows.old.items source (get_or rows.old.items source [] ++ target ∷ [])) }
{
    rows[source].push(target)?;
    Ok(())
}
