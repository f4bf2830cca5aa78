//! What a saved state comes to, from text to text.
ghost use Rattle.std.specs.Prelude.{◌≤◌, length, Ok, Err, IfOk, IfErr};
ghost use Rattle.el_base.specs.Limits.{IsNumbered, max_firings};
ghost use Rattle.net_types.specs.declared.net.Net.{Net};
ghost use Rattle.net_core.specs.Runs.{AtRest};
ghost use Rattle.net_core.specs.States.{IsOf, state_of};
ghost use Rattle.snapshot.specs.Refusals.{MaySave, Says as SaysState};
ghost use Rattle.net_runs.specs.Given.{Bytes};
ghost use Rattle.net_runs.specs.Resumes.{IsLaterFault, IsResumeFault, IsSnapshotFault, Resumes, ResumesTo, TellsRest};

use crate::refusal::RunRefusal;
use crate::results::{put_count, results_of};
use crate::resume_refusal::ResumeRefusal;
use el_base::Log;
use net_check::Checked;
use net_core::State;
use net_replay::{Ended, finish};
use snapshot::{Saved, SnapRefusal, read_snapshot, saved_counts_fit};
use std::alloc::Global;

/// The text of the results that the state of a snapshot comes to at rest, and where it is asked for the number of all
/// firings, those before the snapshot among them.
///
/// The bytes have to be fewer than 2^32, and the limit is in firings, those before the snapshot among them.
///
/// # Errors
///
/// `Snapshot` where the bytes are no text of a state of the net that may be saved. `Limit` where more firings than the limit
/// were made before the snapshot, or as many as it leaves lead on to a state in which one is enabled. Else, of a state at
/// rest that is come to within the limit, `Stuck` where the exit has not fired, and `Stray` where it has and an address lay
/// past an array, with the name of the first such array. `Memory` where memory ran out.
pub fn resume_text(
    alloc: Global,
    net: &Checked,
    snapshot: &[u8],
    limit: u64,
    count: bool,
) -> Result<Vec<u8>, ResumeRefusal>
    requires short { IsNumbered (length snapshot.now) }
    requires limit { limit ≤ max_firings }
    ensures ok { IfOk result (λ text.
        Resumes net.now snapshot.now limit count (Ok text.items)) }
    ensures err { IfErr result (λ refused.
        Resumes net.now snapshot.now limit count (Err refused)) }
{
    match read_snapshot(alloc, net, snapshot) {
        Ok(saved) => resume_from(alloc, net, &saved, limit, count),
        Err(refused) => Err(snapshot_fault(refused)),
    }
}

fn snapshot_fault(refused: SnapRefusal) -> ResumeRefusal
    ensures { (net : Net) (bytes : Bytes)
        → SaysState net bytes (Err refused) → IsSnapshotFault net bytes result }
{
    match refused {
        SnapRefusal::Line { .. } => ResumeRefusal::Snapshot(refused),
        SnapRefusal::Ends => ResumeRefusal::Snapshot(refused),
        SnapRefusal::Memory => ResumeRefusal::Memory,
    }
}

/// The same of a saved state.
fn resume_from(
    alloc: Global,
    net: &Checked,
    saved: &Saved,
    limit: u64,
    count: bool,
) -> Result<Vec<u8>, ResumeRefusal>
    requires may { MaySave net.now saved.now }
    requires limit { limit ≤ max_firings }
    ensures ok { IfOk result (λ text. ResumesTo net.now limit count text.items saved.now) }
    ensures err { IfErr result (IsResumeFault net.now saved.now limit) }
{
    if limit < saved.made {
        return Err(ResumeRefusal::Limit { limit });
    }
    saved_counts_fit();
    let mut state = State::from_parts(alloc, net, &saved.parts)?;
    let mut log = Log::with_room(alloc, 0)?;
    match finish(net, &mut state, saved.made, limit, false, &mut log) {
        Ended::Rest { made } => rest_text(alloc, net, &state, made, count),
        Ended::Limit => Err(ResumeRefusal::Limit { limit }),
    }
}

/// The results of a state at rest, and where it is asked for the number of all firings.
fn rest_text(
    alloc: Global,
    net: &Checked,
    state: &State,
    made: u64,
    count: bool,
) -> Result<Vec<u8>, ResumeRefusal>
    requires of { IsOf net.now state.now }
    requires rest { AtRest net.now (state_of state.now) }
    ensures ok { IfOk result (λ text.
        TellsRest net.now count text.items made (state_of state.now)) }
    ensures err { IfErr result (IsLaterFault net.now (state_of state.now)) }
{
    let mut text = match results_of(alloc, net, state) {
        Ok(text) => text,
        Err(RunRefusal::Stuck) => return Err(ResumeRefusal::Stuck),
        Err(RunRefusal::Stray { array, name }) => return Err(ResumeRefusal::Stray { array, name }),
        Err(RunRefusal::Memory) => return Err(ResumeRefusal::Memory),
        Err(RunRefusal::Inputs(_)) => unreachable!(),
        Err(RunRefusal::Schedule(_)) => unreachable!(),
        Err(RunRefusal::NotEnabled { .. }) => unreachable!(),
        Err(RunRefusal::Limit { .. }) => unreachable!(),
    };
    put_count(&mut text, count, made)?;
    Ok(text)
}
