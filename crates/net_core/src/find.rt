//! The least enabled firing.

ghost use Rattle.std.specs.Prelude.{◌≡◌, ◌+◌, ◌<◌, ◌^◌, length, MatchOption};
ghost use Rattle.el_base.specs.Limits.{IsNumbered};
ghost use Rattle.lsq_core.specs.Views.{oldest_of};
ghost use Rattle.net_types.specs.Order.{act_rank, act_number};
ghost use Rattle.net_core.specs.Runs.{AtRest};
ghost use Rattle.net_core.specs.States.{IsOf, IsQueueAt, state_of};
ghost use Rattle.net_core.specs.Finds.{IsLeastFiring, IsLeastFrom, IsQuietFrom, IsLeastAct, IsQuiet};
ghost use Rattle.net_core.specs.private.Searches.{AreNumbersOf, IsFirstIn, IsNumberOf, NoneIn, act_from, act_of, family_rank, numbers_from, queue_families, queue_numbers, serials_from, start_from};

use crate::cell::UnitQueue;
use crate::searched::Searched;
use crate::state::State;
use lsq_core::Queue;
use net_check::Checked;
use net_types::{Act, Firing, Unit};

/// A kind of acts, told apart by a number.
#[derive(Clone, Copy)]
pub(crate) enum Family {
    Go,
    From,
    Send,
    Alloc,
    Addr,
    Data,
    Exec,
    Reply,
    Retire,
    End,
}

/// Numbers from `start` on and below `end`.
#[derive(Clone, Copy)]
pub(crate) struct Numbers {
    start: u64,
    end: u64,
}

/// The kinds of acts of a queue, in their order.
const QUEUE_FAMILIES: [Family; 7] = [
    Family::Alloc,
    Family::Addr,
    Family::Data,
    Family::Exec,
    Family::Reply,
    Family::Retire,
    Family::End,
];

impl Family {
    /// The act of this number.
    fn act(self, number: u64) -> Act
        requires { IsNumberOf self number }
        ensures { result ≡ act_of self number }
    {
        match self {
            Family::Go => Act::Go,
            Family::From => Act::From(number as u32),
            Family::Send => Act::Send(number as u32),
            Family::Alloc => Act::Alloc(number as u32),
            Family::Addr => Act::Addr(number as u32),
            Family::Data => Act::Data(number as u32),
            Family::Exec => Act::Exec(number),
            Family::Reply => Act::Reply(number as u32),
            Family::Retire => Act::Retire,
            Family::End => Act::End,
        }
    }

    /// Where the family stands among the kinds of acts.
    fn rank(self) -> u32
        ensures { result ≡ family_rank self }
    {
        match self {
            Family::Go => 0,
            Family::From => 1,
            Family::Send => 2,
            Family::Alloc => 3,
            Family::Addr => 4,
            Family::Data => 5,
            Family::Exec => 6,
            Family::Reply => 7,
            Family::Retire => 8,
            Family::End => 9,
        }
    }

    /// The numbers below `end` of the acts that do not stand before `from`.
    fn numbers(self, from: Act, end: u64) -> Numbers
        ensures { result ≡ numbers_from self from end }
    {
        let start = self.start(from, end);
        Numbers { start, end }
    }

    /// The first of these numbers; `end` where there is none.
    fn start(self, from: Act, end: u64) -> u64
        ensures { result ≡ start_from self from end }
    {
        let rank = rank_of(from);
        let own = self.rank();
        if rank < own {
            0
        } else if rank == own {
            number_of(from)
        } else {
            end
        }
    }
}

/// Where an act stands among the kinds of acts.
fn rank_of(act: Act) -> u32
    ensures { result ≡ act_rank act }
{
    match act {
        Act::Go => 0,
        Act::From(_) => 1,
        Act::Send(_) => 2,
        Act::Alloc(_) => 3,
        Act::Addr(_) => 4,
        Act::Data(_) => 5,
        Act::Exec(_) => 6,
        Act::Reply(_) => 7,
        Act::Retire => 8,
        Act::End => 9,
    }
}

/// The number of an act among those of its kind.
fn number_of(act: Act) -> u64
    ensures { result ≡ act_number act }
{
    match act {
        Act::Go => 0,
        Act::From(input) => input as u64,
        Act::Send(output) => output as u64,
        Act::Alloc(group) => group as u64,
        Act::Addr(port) => port as u64,
        Act::Data(port) => port as u64,
        Act::Exec(serial) => serial,
        Act::Reply(port) => port as u64,
        Act::Retire => 0,
        Act::End => 0,
    }
}

/// The serial numbers of entries that may execute, from that of the oldest on, where the act does not stand before `from`.
fn serials(queue: &UnitQueue, from: Act) -> Numbers
    requires { queue.now.queue.next < 2 ^ 63 }
    ensures { result ≡ serials_from from (length queue.now.queue.items)
        (oldest_of queue.now.queue) }
{
    let count = queue.len() as u64;
    match queue.oldest() {
        None => Numbers { start: 0, end: 0 },
        Some(oldest) => {
            let end = oldest + count;
            let start = Family::Exec.start(from, end);
            Numbers {
                start: if start < oldest { oldest } else { start },
                end,
            }
        }
    }
}

/// The numbers of the acts of a queue of one kind that do not stand before `from`.
fn queue_numbers(queue: &UnitQueue, family: Family, from: Act, ports: u64, groups: u64) -> Numbers
    requires serial { queue.now.queue.next < 2 ^ 63 }
    requires ports { ports ≡ length queue.now.ports }
    requires groups { groups ≡ length queue.now.groups }
    ensures { result ≡ queue_numbers family from queue.now }
{
    match family {
        Family::Go => family.numbers(from, 0),
        Family::From => family.numbers(from, 0),
        Family::Send => family.numbers(from, 0),
        Family::Alloc => family.numbers(from, groups),
        Family::Addr => family.numbers(from, ports),
        Family::Data => family.numbers(from, ports),
        Family::Exec => serials(queue, from),
        Family::Reply => family.numbers(from, ports),
        Family::Retire => family.numbers(from, 1),
        Family::End => family.numbers(from, 1),
    }
}

/// The kind of acts of a queue that stands at a place of their order.
fn queue_family(at: usize) -> Family
    requires { at < length queue_families }
    ensures { family_rank result ≡ 3 + at }
{
    QUEUE_FAMILIES[at]
}

/// The act from which on the acts of a unit are looked at.
fn act_from(place: Firing, unit: u32) -> Act
    ensures { result ≡ act_from place unit }
{
    if unit == place.unit {
        place.act
    } else {
        Act::Go
    }
}

impl State {
    /// The least enabled firing; `None` exactly where the state is at rest.
    pub fn find(&self, net: &Checked) -> Option<Firing>
        requires { IsOf net.now self.now }
        ensures { MatchOption result (AtRest net.now (state_of self.now))
            (λ f. IsLeastFiring net.now (state_of self.now) f) }
    {
        self.find_from(
            net,
            Firing {
                unit: 0,
                act: Act::Go,
            },
        )
    }

    /// The least enabled firing that is not before a place; `None` exactly where all enabled ones are before it.
    ///
    /// The place may be any firing. It costs one test for each firing that may be enabled from the place on.
    pub fn find_from(&self, net: &Checked, place: Firing) -> Option<Firing>
        requires { IsOf net.now self.now }
        ensures { MatchOption result (IsQuietFrom net.now (state_of self.now) place)
            (λ f. IsLeastFrom net.now (state_of self.now) place f) }
    {
        let count = net.net().units.as_slice().len();
        for at in place.unit as usize..count {
            let unit = at as u32;
            if let Some(act) = self.find_act(net, unit, act_from(place, unit)) {
                return Some(Firing { unit, act });
            }
        }
        None
    }

    /// The least enabled act of a unit that is not before another act; `None` exactly where all enabled ones are before it.
    ///
    /// It costs one test for each act of the unit that may be enabled from that act on.
    pub fn find_act(&self, net: &Checked, unit: u32, from: Act) -> Option<Act>
        requires of { IsOf net.now self.now }
        requires within { unit < length net.now.units }
        ensures { MatchOption result (IsQuiet net.now (state_of self.now) unit from)
            (λ act. IsLeastAct net.now (state_of self.now) unit from act) }
    {
        find_act_in(self, net, unit, from)
    }
}

/// The least enabled act of a unit that is not before another act, in a state that may be asked about the unit, as
/// [`State::find_act`] tells it.
pub fn find_act_in<S: Searched>(state: &S, net: &Checked, unit: u32, from: Act) -> Option<Act>
    requires of { IsOf net.now (S.stored state.now) }
    requires within { unit < length net.now.units }
    requires shown { S.shows state.now net.now unit }
    ensures { MatchOption result (IsQuiet net.now (state_of (S.stored state.now)) unit from)
        (λ act. IsLeastAct net.now (state_of (S.stored state.now)) unit from act) }
{
    match &net.net().units.as_slice()[unit as usize] {
        Unit::Fork { outs, .. } => {
            let numbers = Family::Send.numbers(from, *outs as u64);
            first_in(state, net, unit, Family::Send, numbers)
        }
        Unit::Cmerge { ins } => {
            let numbers = Family::From.numbers(from, *ins as u64);
            first_in(state, net, unit, Family::From, numbers)
        }
        Unit::Lsq { ports, groups, .. } => match state.queue(net, unit) {
            None => None,
            Some(queue) => {
                let ports = ports.len() as u64;
                let groups = groups.len() as u64;
                first_of_queue(state, net, unit, queue, ports, groups, from)
            }
        },
        _ => first_in(state, net, unit, Family::Go, Family::Go.numbers(from, 1)),
    }
}

/// The first enabled act of a family among those with these numbers.
fn first_in<S: Searched>(
    state: &S,
    net: &Checked,
    unit: u32,
    family: Family,
    numbers: Numbers,
) -> Option<Act>
    requires of { IsOf net.now (S.stored state.now) }
    requires shown { S.shows state.now net.now unit }
    requires numbers { AreNumbersOf family numbers.end }
    ensures { MatchOption result
        (NoneIn net.now (state_of (S.stored state.now)) unit family numbers.start numbers.end)
        (λ act. IsFirstIn net.now (state_of (S.stored state.now)) unit family
        numbers.start numbers.end act) }
{
    for number in numbers.start..numbers.end {
        let act = family.act(number);
        if state.enabled(net, Firing { unit, act }) {
            return Some(act);
        }
    }
    None
}

/// The least enabled act of a queue that is not before another act.
fn first_of_queue<S: Searched>(
    state: &S,
    net: &Checked,
    unit: u32,
    queue: &UnitQueue,
    ports: u64,
    groups: u64,
    from: Act,
) -> Option<Act>
    requires of { IsOf net.now (S.stored state.now) }
    requires shown { S.shows state.now net.now unit }
    requires queue { IsQueueAt net.now (S.stored state.now) unit queue.now }
    requires ports { (ports ≡ length queue.now.ports) × IsNumbered ports }
    requires groups { (groups ≡ length queue.now.groups) × IsNumbered groups }
    ensures { MatchOption result (IsQuiet net.now (state_of (S.stored state.now)) unit from)
        (λ act. IsLeastAct net.now (state_of (S.stored state.now)) unit from act) }
{
    let _ = queue.len();
    for at in 0..QUEUE_FAMILIES.len() {
        let family = queue_family(at);
        let numbers = queue_numbers(queue, family, from, ports, groups);
        if let Some(act) = first_in(state, net, unit, family, numbers) {
            return Some(act);
        }
    }
    None
}
