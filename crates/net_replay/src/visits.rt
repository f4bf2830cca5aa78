//! Firings that are tried, one after another, where marks stand.

ghost use Rattle.std.specs.Prelude.{◌≡◌, ◌<◌, ◌∷◌, [], true, length};
ghost use Rattle.net_core.specs.States.{IsOf, state_of};
ghost use Rattle.net_replay.specs.Finishes.{IsLogged};
ghost use Rattle.net_replay.specs.private.Advances.{Advances, MayAdvance};

use crate::marks::Marks;
use crate::skips::next_number;
use el_base::Log;
use net_check::Checked;
use net_core::State;
use net_types::Firing;

/// How many firings there may be in all, and whether they are kept in the log.
#[derive(Clone, Copy)]
pub(crate) struct Bounds {
    pub limit: u64,
    pub keep: bool,
}

/// Makes enabled firings until it finds none or as many are made as the limit allows, and gives how many are made then.
/// It looks where a firing before has changed something, and so may leave enabled firings unmade.
pub(crate) fn advance(
    net: &Checked,
    state: &mut State,
    log: &mut Log<Firing>,
    bounds: Bounds,
    made: u64,
) -> u64
    requires of { IsOf net.now state.old }
    requires may { MayAdvance (state_of state.old) bounds.limit bounds.keep made log.old }
    ensures of { IsOf net.now state.new }
    ensures made { Advances net.now (state_of state.old) (state_of state.new)
        bounds.limit bounds.keep made result log.old log.new }
{
    let mut marks = Marks::new(net, state);
    let mut count = made;
    for _ in 0..u64::MAX {
        if count == bounds.limit {
            return count;
        }
        let Some(mark) = marks.take() else {
            return count;
        };
        count = visit_mark(net, state, &mut marks, log, bounds, count, mark);
    }
    count
}

/// Tries the firings of the units of a mark.
fn visit_mark(
    net: &Checked,
    state: &mut State,
    marks: &mut Marks,
    log: &mut Log<Firing>,
    bounds: Bounds,
    made: u64,
    mark: usize,
) -> u64
    requires of { IsOf net.now state.old }
    requires may { MayAdvance (state_of state.old) bounds.limit bounds.keep made log.old }
    ensures of { IsOf net.now state.new }
    ensures made { Advances net.now (state_of state.old) (state_of state.new)
        bounds.limit bounds.keep made result log.old log.new }
{
    let first = marks.first(mark);
    let end = first
        .saturating_add(marks.width())
        .min(net.net().units.as_slice().len());
    let mut count = made;
    for at in first..end {
        count = visit(net, state, marks, log, bounds, count, at as u32);
    }
    count
}

/// Tries the firings of a unit, but those of which its queue or the place of the control token tells that they are not enabled.
fn visit(
    net: &Checked,
    state: &mut State,
    marks: &mut Marks,
    log: &mut Log<Firing>,
    bounds: Bounds,
    made: u64,
    unit: u32,
) -> u64
    requires of { IsOf net.now state.old }
    requires within { unit < length net.now.units }
    requires may { MayAdvance (state_of state.old) bounds.limit bounds.keep made log.old }
    ensures of { IsOf net.now state.new }
    ensures made { Advances net.now (state_of state.old) (state_of state.new)
        bounds.limit bounds.keep made result log.old log.new }
{
    let mut count = made;
    let mut number = 0;
    for _ in 0..u32::MAX {
        number = next_number(net, state, marks.control(), unit, number);
        let Some(act) = state.act_at(net, unit, number) else {
            return count;
        };
        count = try_act(net, state, marks, log, bounds, count, Firing { unit, act });
        number = number.saturating_add(1);
    }
    count
}

/// Makes a firing where it is enabled and the limit allows one more.
fn try_act(
    net: &Checked,
    state: &mut State,
    marks: &mut Marks,
    log: &mut Log<Firing>,
    bounds: Bounds,
    made: u64,
    firing: Firing,
) -> u64
    requires of { IsOf net.now state.old }
    requires may { MayAdvance (state_of state.old) bounds.limit bounds.keep made log.old }
    ensures of { IsOf net.now state.new }
    ensures made { Advances net.now (state_of state.old) (state_of state.new)
        bounds.limit bounds.keep made result log.old log.new }
{
    if made == bounds.limit {
        return made;
    }
    let Some(plan) = state.plan(net, firing) else {
        return made;
    };
    if !state.has_room(net, firing.unit, plan.put) {
        return made;
    }
    state.make(net, firing, plan);
    note(log, bounds.keep, firing);
    marks.wake(net, state, firing.unit, plan);
    made + 1
}

/// Adds a firing to the log where it is kept.
pub(crate) fn note(log: &mut Log<Firing>, keep: bool, firing: Firing)
    requires { keep ≡ true → 0 < log.old.room }
    ensures { IsLogged keep (firing ∷ []) log.old log.new }
{
    if keep {
        log.add(firing);
    }
}
