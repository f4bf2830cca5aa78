//! The writes that are kept.
ghost use Rattle.std.specs.Prelude.{◌≡◌, length, IfOk};
ghost use Rattle.ir.specs.declared.cfg.Write.{Write};
ghost use Rattle.block_trim.specs.Trimming.{is_unchanged, kept_writes};
ghost use Rattle.block_trim.specs.Code.{NameVariables, noted, kept_by};

use ir::{List, Memory, Write};
use std::alloc::Global;

/// The last write to each variable, where it gives the variable anything but what the block reads of it.
///
/// `places` has a place for each variable, of any content, and is written over.
///
/// # Errors
///
/// [`Memory`] where memory is wanting.
#[tactic(auto, using(crate::proofs::Notes::kept_same))]
pub(crate) fn kept_writes(
    alloc: Global,
    reads: &[u32],
    writes: &[Write],
    places: &mut [usize],
) -> Result<List<Write>, Memory>
    requires { NameVariables (length places.old) writes.now }
    ensures { IfOk result (λ kept. kept ≡ kept_writes reads.now writes.now) }
{
    note_places(writes, places);
    keep(alloc, reads, writes, places)
}

// Each write notes its place at its variable, so that the last one stands there.
fn note_places(writes: &[Write], places: &mut [usize])
    requires { NameVariables (length places.old) writes.now }
    ensures { places.new ≡ noted 0 writes.now places.old }
{
    for (place, write) in writes.iter().enumerate() {
        places[write.var as usize] = place;
    }
}

// The writes whose places stand at their variables and that change something.
fn keep(
    alloc: Global,
    reads: &[u32],
    writes: &[Write],
    places: &[usize],
) -> Result<List<Write>, Memory>
    requires { NameVariables (length places.now) writes.now }
    ensures { IfOk result (λ kept. kept ≡ kept_by reads.now places.now 0 writes.now) }
{
    let mut kept = List::new(alloc);
    for (place, write) in writes.iter().enumerate() {
        if places[write.var as usize] == place && !is_unchanged(reads, write) {
            kept.push(*write)?;
        }
    }
    Ok(kept)
}

// Whether a write gives its variable what the block reads of it.
fn is_unchanged(reads: &[u32], write: &Write) -> bool
    ensures { result ≡ is_unchanged reads.now write.now }
{
    match reads.get(write.value as usize) {
        Some(read) => *read == write.var,
        None => false,
    }
}
