//! The text of the results of a state at rest.
ghost use Rattle.std.specs.Prelude.{◌≡◌, ◌++◌, ◌<◌, All, length, true, IfOk, IfErr, OnOk};
ghost use Rattle.net_core.specs.Runs.{AtRest};
ghost use Rattle.net_core.specs.States.{IsOf, state_of};
ghost use Rattle.net_replay.specs.Schedules.{FiringFits};
ghost use Rattle.net_runs.specs.Results.{AreResultsOf, IsRestFault, IsRunText, IsStrayFault};
ghost use Rattle.net_runs.specs.Results.{count_line, cycles_line, log_lines};

use crate::options::RunOptions;
use crate::refusal::RunRefusal;
use el_base::put_u64;
use inputs_text::print_results;
use net_check::Checked;
use net_core::State;
use net_replay::{RunFault, judge, print_schedule};
use net_types::{Firing, Memory};
use std::alloc::Global;

/// The results of a run at rest, and where they are asked for the numbers of its firings and of its cycles and the firings.
pub(crate) fn run_text_of(
    alloc: Global,
    net: &Checked,
    state: &State,
    options: RunOptions,
    firings: u64,
    cycles: u64,
    log: &[Firing],
) -> Result<Vec<u8>, RunRefusal>
    requires of { IsOf net.now state.now }
    requires rest { AtRest net.now (state_of state.now) }
    ensures ok { IfOk result (λ text.
        IsRunText net.now (state_of state.now) options firings cycles log.now text.items) }
    ensures err { IfErr result (IsRestFault net.now (state_of state.now)) }
{
    let mut text = results_of(alloc, net, state)?;
    put_count(&mut text, options.count, firings)?;
    put_cycles(&mut text, options.cycles, cycles)?;
    put_log(alloc, &mut text, options.log, log)?;
    Ok(text)
}

/// Appends the number of firings, where it is asked for.
pub(crate) fn put_count(text: &mut Vec<u8>, asked: bool, made: u64) -> Result<(), Memory>
    ensures { OnOk result (text.new.items ≡ text.old.items ++ count_line asked made) }
{
    if !asked {
        return Ok(());
    }
    text.extend_from_slice(b"# firings ")?;
    put_u64(text, made)?;
    text.push(b'\n')?;
    Ok(())
}

fn put_cycles(text: &mut Vec<u8>, asked: bool, cycles: u64) -> Result<(), Memory>
    ensures { OnOk result (text.new.items ≡ text.old.items ++ cycles_line asked cycles) }
{
    if !asked {
        return Ok(());
    }
    text.extend_from_slice(b"# cycles ")?;
    put_u64(text, cycles)?;
    text.push(b'\n')?;
    Ok(())
}

fn put_log(alloc: Global, text: &mut Vec<u8>, asked: bool, firings: &[Firing]) -> Result<(), Memory>
    ensures text { OnOk result (text.new.items ≡ text.old.items ++ log_lines asked firings.now) }
    ensures fit { OnOk result (asked ≡ true → All FiringFits firings.now) }
{
    if !asked {
        return Ok(());
    }
    let lines = print_schedule(alloc, firings)?;
    text.extend_from_slice(b"%%\n")?;
    text.extend_from_slice(lines.as_slice())?;
    Ok(())
}

/// The results of a state at rest.
pub(crate) fn results_of(alloc: Global, net: &Checked, state: &State) -> Result<Vec<u8>, RunRefusal>
    requires of { IsOf net.now state.now }
    requires rest { AtRest net.now (state_of state.now) }
    ensures ok { IfOk result (λ text. AreResultsOf net.now (state_of state.now) text.items) }
    ensures err { IfErr result (IsRestFault net.now (state_of state.now)) }
{
    match judge(net, state) {
        Ok(()) => match print_results(alloc, net, state) {
            Ok(text) => Ok(text),
            Err(Memory) => Err(RunRefusal::Memory),
        },
        Err(RunFault::Stuck) => Err(RunRefusal::Stuck),
        Err(RunFault::Stray { array }) => Err(stray(net, array)),
        Err(RunFault::Limit { .. }) => unreachable!(),
        Err(RunFault::Memory) => unreachable!(),
    }
}

/// The refusal by the name of an array.
pub(crate) fn stray(net: &Checked, array: u32) -> RunRefusal
    requires { array < length net.now.arrays }
    ensures { IsStrayFault net.now array result }
{
    match net.net().arrays.as_slice()[array as usize].name.copy() {
        Ok(name) => RunRefusal::Stray { array, name },
        Err(Memory) => RunRefusal::Memory,
    }
}
