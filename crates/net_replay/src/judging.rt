ghost use Rattle.std.specs.Prelude.{MatchResult};
ghost use Rattle.net_core.specs.Runs.{AtRest};
ghost use Rattle.net_core.specs.States.{IsOf, state_of};
ghost use Rattle.net_replay.specs.Judgements.{IsFault, IsSound, IsFirstStray, HasNoStrays};
ghost use Rattle.std.specs.Prelude.{MatchOption};

use crate::fault::RunFault;
use net_check::Checked;
use net_core::State;

/// Whether a state at rest has exited, and no address lay past an array. It takes no memory.
///
/// # Errors
///
/// `Stuck` where the exit has not fired; `Stray` with the first array of the header that has strays where the exit has
/// fired and one has. It answers no other fault.
pub fn judge(net: &Checked, state: &State) -> Result<(), RunFault>
    requires of { IsOf net.now state.now }
    requires rest { AtRest net.now (state_of state.now) }
    ensures { MatchResult result (λ _. IsSound net.now (state_of state.now))
        (IsFault net.now (state_of state.now)) }
{
    if !state.exited() {
        return Err(RunFault::Stuck);
    }
    match first_stray(net, state) {
        Some(array) => Err(RunFault::Stray { array }),
        None => Ok(()),
    }
}

/// The first array of the header that has strays.
fn first_stray(net: &Checked, state: &State) -> Option<u32>
    ensures { MatchOption result (HasNoStrays net.now (state_of state.now))
        (IsFirstStray net.now (state_of state.now)) }
{
    for at in 0..net.net().arrays.as_slice().len() {
        let array = at as u32;
        if state.strays(array) > 0 {
            return Some(array);
        }
    }
    None
}
