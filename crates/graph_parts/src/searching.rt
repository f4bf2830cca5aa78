ghost use Rattle.std.specs.Prelude.{◌≡◌, ◌≢◌, ℕ, ◌<◌, length, IfOk, OnOk, vec_len, get_or};
ghost use Rattle.graph_parts.specs.Graph.{InRow};
ghost use Rattle.graph_parts.specs.Search.{mark, IsSearched, IsSeen, seen_marks, seen_found};

use el_base::{List, Memory};
use std::alloc::Global;

/// Moves the root, and what can be reached from it by nodes of the mark `old`, to the mark `new`, and lists what was moved.
pub(crate) fn search(
    alloc: Global,
    rows: &Vec<List<usize>>,
    marks: &mut Vec<usize>,
    root: usize,
    old: usize,
    new: usize,
) -> Result<Vec<usize>, Memory>
    requires size { length rows.now.items ≡ length marks.old.items }
    requires named { (u v : ℕ) → InRow rows.now.items u v → v < length marks.old.items }
    requires within { root < length marks.old.items }
    requires root { mark marks.old.items root ≡ old }
    requires differ { old ≢ new }
    ensures { IfOk result (λ found. IsSearched rows.now.items root old new
        marks.old.items marks.new.items found.items) }
{
    let mut found = Vec::new(alloc);
    marks[root] = new;
    found.push(root)?;
    let mut next = 0;
    'nodes: while next < found.len() {
        let node = found[next];
        see_row(rows[node].as_slice(), marks, &mut found, old, new)?;
        next += 1;
    }
    Ok(found)
}

/// Moves the nodes of the row that have the mark `old`, and lists them.
fn see_row(
    row: &[usize],
    marks: &mut Vec<usize>,
    found: &mut Vec<usize>,
    old: usize,
    new: usize,
) -> Result<(), Memory>
    requires named { (i : ℕ) → i < length row.now → get_or row.now i 0 < length marks.old.items }
    requires differ { old ≢ new }
    ensures { OnOk result (IsSeen row.now (length row.now) old new
        marks.old.items found.old.items marks.new.items found.new.items) }
{
    for node in row {
        see(*node, marks, found, old, new)?;
    }
    Ok(())
}

fn see(
    node: usize,
    marks: &mut Vec<usize>,
    found: &mut Vec<usize>,
    old: usize,
    new: usize,
) -> Result<(), Memory>
    requires { node < length marks.old.items }
    ensures marks { OnOk result (marks.new.items ≡ seen_marks node old new marks.old.items) }
    ensures found { OnOk result (found.new.items ≡
        seen_found node old marks.old.items found.old.items) }
{
    if marks[node] == old {
        marks[node] = new;
        found.push(node)?;
    }
    Ok(())
}
