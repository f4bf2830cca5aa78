ghost use Rattle.std.specs.Prelude.{◌≡◌, ◌<◌, IfOk, IfErr, OnOk, length};
ghost use Rattle.std.specs.List.{All};
ghost use Rattle.net_check.specs.Checks.{IsChecked};
ghost use Rattle.net_check.specs.Refusals.{RefusalHolds};
ghost use Rattle.net_check.specs.Retimed.{NameChannels, changed_from, with_changes};
ghost use Rattle.net_check.specs.private.Times.{KeepsOthers, times_before, timed};

use crate::checked::refuse;
use crate::cycles::check_cycles;
use crate::refusal::{NetRefusal, Rule};
use crate::sizes::check_sizes;
use net_types::{Chan, List, Memory, Net};
use std::alloc::Global;

/// Other slots and another delay, in cycles, for the channel of this number.
#[derive(Clone, Copy, PartialEq, Eq)]
pub struct Change {
    pub chan: u32,
    pub slots: u32,
    pub delay: u32,
}

/// Makes the changes in order and tries C3 and C4, which alone read slots and delays; where one of them is broken, or memory
/// is wanting, the net is what it was.
pub(crate) fn retime_net(alloc: Global, net: &mut Net, changes: &[Change]) -> Result<(), NetRefusal>
    requires checked { IsChecked net.old }
    requires named { NameChannels changes.now net.old }
    ensures changed { OnOk result (net.new ≡ with_changes changes.now net.old) }
    ensures kept { IfErr result (λ e. net.new ≡ net.old) }
    ensures checked { OnOk result (IsChecked net.new) }
    ensures refused { IfErr result (λ e. RefusalHolds (with_changes changes.now net.old) e) }
{
    let before = times_of(alloc, net.chans.as_slice(), changes)?;
    make_changes(&mut net.chans, changes);
    match check_times(alloc, net) {
        Ok(()) => Ok(()),
        Err(refusal) => {
            make_changes(&mut net.chans, before.as_slice());
            Err(refusal)
        }
    }
}

/// For each change the slots and the delay that its channel has.
fn times_of(alloc: Global, chans: &[Chan], changes: &[Change]) -> Result<List<Change>, Memory>
    requires { All (λ (x : Change). x.chan < length chans.now) changes.now }
    ensures { IfOk result (λ before. before ≡ times_before chans.now changes.now) }
{
    let mut before = List::new(alloc);
    for change in changes {
        let chan = chans[change.chan as usize];
        before.push(Change {
            chan: change.chan,
            slots: chan.slots,
            delay: chan.delay,
        })?;
    }
    Ok(before)
}

/// Makes the changes in order.
fn make_changes(chans: &mut List<Chan>, changes: &[Change])
    requires { All (λ (x : Change). x.chan < length chans.old) changes.now }
    ensures { chans.new ≡ changed_from changes.now 0 chans.old }
{
    for change in changes {
        make_change(chans, *change);
    }
}

fn make_change(chans: &mut List<Chan>, change: Change)
    requires { change.chan < length chans.old }
    ensures { chans.new ≡ timed change chans.old }
{
    let at = change.chan as usize;
    let chan = chans.as_slice()[at];
    chans.set(
        at,
        Chan {
            from: chan.from,
            to: chan.to,
            width: chan.width,
            slots: change.slots,
            delay: change.delay,
            ctl: chan.ctl,
        },
    );
}

/// The rules that read slots and delays, on a net that keeps the others.
fn check_times(alloc: Global, net: &Net) -> Result<(), NetRefusal>
    requires { KeepsOthers net.now }
    ensures kept { OnOk result (IsChecked net.now) }
    ensures refused { IfErr result (λ e. RefusalHolds net.now e) }
{
    let sizes = check_sizes(net);
    refuse(Rule::C3, sizes)?;
    let cycles = check_cycles(alloc, net)?;
    refuse(Rule::C4, cycles)
}
