//! The parts of one firing, over lists of ends and over the rooms of a worker.
ghost use Rattle.std.specs.Prelude.{◌≡◌, ◌≢◌, ◌⊎◌, ℕ, ◌<◌, ◌≤◌, ◌^◌, suc, max, true, IfNone, IfSome, None, Some, length, get_or};
ghost use Rattle.elastic_link.specs.Credits.{IsStamp};
ghost use Rattle.net_types.specs.Nets.{chan_at};
ghost use Rattle.net_core.specs.Fire.{has_room, tokens_at};
ghost use Rattle.net_core.specs.Plans.{places_of};
ghost use Rattle.net_core.specs.States.{IsOf, state_of};
ghost use Rattle.net_core.specs.Uses.{is_fork, places_used};
ghost use Rattle.net_worker.specs.Asking.{PutsAsked, TakesAsked};
ghost use Rattle.net_worker.specs.Fires.{TakeStep};
ghost use Rattle.net_worker.specs.Firings.{HoldsIfAny, AllHold, IsPayable, AllPayable, AllDistinct, chans_into, AreTaken, IsHandedOver};
ghost use Rattle.net_worker.specs.Inside.{IsOfferedInside, IsNotOfferedInside};
ghost use Rattle.net_worker.specs.Offers.{held_stamp, greatest_in, IsOffered, IsNotOffered};
ghost use Rattle.net_worker.specs.MovesHere.{IsOutIfAny};
ghost use Rattle.net_worker.specs.Portions.{HasPins, SameHere};
ghost use Rattle.net_worker.specs.Workers.{held_by};

use crate::channel_ends::ChannelEnds;
use crate::ends::{put_above, take_with};
use crate::portion::Portion;
use elastic_link::{PutEnd, TakeEnd};
use net_check::Checked;
use net_core::{Put, Takes};
use net_types::Unit;

/// The stamp of the token that the end of a channel holds; 0 where the channel has no end.
fn stamp_at(takes: &mut ChannelEnds<TakeEnd>, chan: u32) -> u64
    requires { HoldsIfAny (get_or takes.old.items chan None) }
    ensures asked { TakesAsked takes.old.items takes.new.items }
    ensures chans { takes.new.chans ≡ takes.old.chans }
    ensures stamp { result ≡ held_stamp (held_by (get_or takes.old.items chan None)) }
    ensures fits { IsStamp result }
{
    let near = takes.last();
    stamp_near(takes, chan, near)
}

/// The same, where the end is looked for first at a place near which it may stand.
#[inline(always)]
pub(crate) fn stamp_near(takes: &mut ChannelEnds<TakeEnd>, chan: u32, near: usize) -> u64
    requires { HoldsIfAny (get_or takes.old.items chan None) }
    ensures asked { TakesAsked takes.old.items takes.new.items }
    ensures chans { takes.new.chans ≡ takes.old.chans }
    ensures stamp { result ≡ held_stamp (held_by (get_or takes.old.items chan None)) }
    ensures fits { IsStamp result }
{
    match takes.get_mut(chan, near) {
        Some(end) => match end.peek() {
            Some(token) => token.stamp,
            None => 0,
        },
        None => 0,
    }
}

/// The greatest of a stamp and those of the tokens that are held at places of a unit.
pub(crate) fn above(
    takes: &mut ChannelEnds<TakeEnd>,
    net: &Checked,
    unit: u32,
    places: Takes,
    clock: u64,
) -> u64
    requires held { AllHold net.now unit takes.old.items (places_of places) }
    requires clock { IsStamp clock }
    ensures asked { TakesAsked takes.old.items takes.new.items }
    ensures chans { takes.new.chans ≡ takes.old.chans }
    ensures greatest { result
        ≡ max clock (greatest_in net.now takes.old.items unit (places_of places)) }
    ensures fits { IsStamp result }
{
    match places {
        Takes::None => clock,
        Takes::One(p) => clock.max(stamp_at(takes, net.into_place(unit, p))),
        Takes::Two(p, q) => {
            let first = stamp_at(takes, net.into_place(unit, p));
            let second = stamp_at(takes, net.into_place(unit, q));
            clock.max(first.max(second))
        }
        Takes::Three(p, q, r) => {
            let first = stamp_at(takes, net.into_place(unit, p));
            let second = stamp_at(takes, net.into_place(unit, q));
            let third = stamp_at(takes, net.into_place(unit, r));
            clock.max(first.max(second.max(third)))
        }
    }
}

/// The places whose heads a firing uses: those from which it takes; a fork looks at its one input, taken or not.
pub(crate) fn used_places(unit: &Unit, takes: Takes) -> Takes
    ensures { places_of result ≡ places_used (is_fork unit.now) takes }
{
    match unit {
        Unit::Fork { .. } => Takes::One(0),
        _ => takes,
    }
}

/// One above a stamp; `None` where that is 2^62.
pub(crate) fn one_above(stamp: u64) -> Option<u64>
    requires { IsStamp stamp }
    ensures some { IfSome result (λ n. n ≡ suc stamp) }
    ensures fits { IfSome result (λ n. IsStamp n) }
    ensures none { IfNone result (2 ^ 62 ≤ suc stamp) }
{
    let next = stamp + 1;
    if next < 1 << 62 { Some(next) } else { None }
}

/// Puts the token of a firing where its output goes to another worker, with a stamp one above `above` and the newest
/// credit, and answers the stamp; else one above `above`. `None` where there is no room, no credit, no slot or no stamp.
pub(crate) fn offer(
    puts: &mut ChannelEnds<PutEnd>,
    portion: &Portion,
    net: &Checked,
    unit: u32,
    put: Option<Put>,
    above: u64,
) -> Option<u64>
    requires of { IsOf net.now portion.now.state }
    requires here { HasPins net.now portion.now unit }
    requires above { IsStamp above }
    ensures some { IfSome result (λ n. IsOffered net.now (state_of portion.now.state)
        unit put above n puts.old.items puts.new.items) }
    ensures asked { IfNone result (PutsAsked puts.old.items puts.new.items) }
    ensures chans { puts.new.chans ≡ puts.old.chans }
    ensures none { IfNone result (IsNotOffered net.now (state_of portion.now.state) unit put above
        puts.old.items puts.new.items) }
{
    let Some(put) = put else {
        return one_above(above);
    };
    let chan = net.out_of_place(unit, put.place);
    let near = puts.last();
    match puts.get_mut(chan, near) {
        Some(end) => put_above(end, put.value, above),
        None => offer_inner(portion, net, chan, above),
    }
}

/// One above `above`, where a channel of the state has room and a stamp is left.
pub(crate) fn offer_inner(portion: &Portion, net: &Checked, chan: u32, above: u64) -> Option<u64>
    requires of { IsOf net.now portion.now.state }
    requires here { IsOutIfAny net.now portion.now chan }
    requires above { IsStamp above }
    ensures some { IfSome result (λ n. (n ≡ suc above) × IsStamp n) }
    ensures room { IfSome result (λ _. length (tokens_at (state_of portion.now.state) chan)
        < (chan_at net.now chan).slots) }
    ensures none { IfNone result (
        ((chan_at net.now chan).slots ≤ length (tokens_at (state_of portion.now.state) chan))
        ⊎ (2 ^ 62 ≤ suc above)) }
{
    if portion.has_room_on(net, chan) {
        one_above(above)
    } else {
        None
    }
}

/// The stamp of a firing of a unit all of whose channels stay in the worker: one above `above`, where its output has room
/// and a stamp is left. No end is asked.
#[tactic(auto, using(crate::proofs::Inside::inside_some))]
pub(crate) fn offer_inside(
    portion: &Portion,
    net: &Checked,
    unit: u32,
    put: Option<Put>,
    above: u64,
) -> Option<u64>
    requires of { IsOf net.now portion.now.state }
    requires here { HasPins net.now portion.now unit }
    requires above { IsStamp above }
    ensures some { IfSome result
        (λ n. IsOfferedInside net.now (state_of portion.now.state) unit put above n) }
    ensures fits { IfSome result (λ n. IsStamp n) }
    ensures room { IfSome result (λ _. has_room net.now (state_of portion.now.state) unit put) }
    ensures none { IfNone result
        (IsNotOfferedInside net.now (state_of portion.now.state) unit put above) }
{
    match put {
        None => one_above(above),
        Some(put) => offer_inner(portion, net, net.out_of_place(unit, put.place), above),
    }
}

/// Takes the token of a channel from another worker, and repays its credit.
fn take_at(takes: &mut ChannelEnds<TakeEnd>, chan: u32, stamp: u64)
    requires stamp { IsStamp stamp }
    requires payable { IsPayable stamp (get_or takes.old.items chan None) }
    ensures long { length takes.new.items ≡ length takes.old.items }
    ensures chans { takes.new.chans ≡ takes.old.chans }
    ensures taken { TakeStep true stamp
        (get_or takes.old.items chan None) (get_or takes.new.items chan None) }
    ensures others { (c : ℕ) → c ≢ chan
        → get_or takes.new.items c None ≡ get_or takes.old.items c None }
{
    let near = takes.last();
    take_near(takes, chan, near, stamp);
}

/// The same, where the end is looked for first at a place near which it may stand.
#[inline(always)]
pub(crate) fn take_near(takes: &mut ChannelEnds<TakeEnd>, chan: u32, near: usize, stamp: u64)
    requires stamp { IsStamp stamp }
    requires payable { IsPayable stamp (get_or takes.old.items chan None) }
    ensures long { length takes.new.items ≡ length takes.old.items }
    ensures chans { takes.new.chans ≡ takes.old.chans }
    ensures taken { TakeStep true stamp
        (get_or takes.old.items chan None) (get_or takes.new.items chan None) }
    ensures others { (c : ℕ) → c ≢ chan
        → get_or takes.new.items c None ≡ get_or takes.old.items c None }
{
    if let Some(end) = takes.get_mut(chan, near) {
        take_with(end, stamp);
    }
}

/// Takes the tokens at places of a unit that come from other workers.
pub(crate) fn take_all(
    takes: &mut ChannelEnds<TakeEnd>,
    net: &Checked,
    unit: u32,
    places: Takes,
    stamp: u64,
)
    requires stamp { IsStamp stamp }
    requires payable { AllPayable net.now unit stamp takes.old.items (places_of places) }
    requires distinct { AllDistinct (chans_into net.now unit (places_of places)) }
    ensures taken { AreTaken net.now unit stamp (places_of places)
        takes.old.items takes.new.items }
    ensures chans { takes.new.chans ≡ takes.old.chans }
{
    match places {
        Takes::None => {}
        Takes::One(p) => take_at(takes, net.into_place(unit, p), stamp),
        Takes::Two(p, q) => {
            take_at(takes, net.into_place(unit, p), stamp);
            take_at(takes, net.into_place(unit, q), stamp);
        }
        Takes::Three(p, q, r) => {
            take_at(takes, net.into_place(unit, p), stamp);
            take_at(takes, net.into_place(unit, q), stamp);
            take_at(takes, net.into_place(unit, r), stamp);
        }
    }
}

/// Takes the token that a firing has put out of the state again, where it went to another worker.
pub(crate) fn hand_over(
    portion: &mut Portion,
    puts: &ChannelEnds<PutEnd>,
    net: &Checked,
    unit: u32,
    put: Option<Put>,
)
    requires of { IsOf net.now portion.old.state }
    requires here { HasPins net.now portion.old unit }
    requires long { length puts.now.items ≡ length net.now.chans }
    ensures of { IsOf net.now portion.new.state }
    ensures same { SameHere portion.old portion.new }
    ensures state { IsHandedOver net.now unit put puts.now.items
        (state_of portion.old.state) (state_of portion.new.state) }
{
    let Some(put) = put else {
        return;
    };
    let chan = net.out_of_place(unit, put.place);
    if puts.has(chan) {
        portion.take_out(net, chan);
    }
}
