//! The parts of a firing of a unit with channels from or to other workers, by the channels of its moves.
ghost use Rattle.std.specs.Prelude.{◌≡◌, ◌≢◌, ℕ, true, max, IfNone, IfSome, None, length, get_or};
ghost use Rattle.elastic_link.specs.Credits.{IsStamp};
ghost use Rattle.net_core.specs.Plans.{chans_of, laid_of};
ghost use Rattle.net_core.specs.States.{IsOf, state_of};
ghost use Rattle.net_worker.specs.Asking.{PutsAsked, TakesAsked};
ghost use Rattle.net_worker.specs.Fires.{TakeStep};
ghost use Rattle.net_worker.specs.Firings.{HoldsIfAny, IsPayable, AllDistinct, IsHandedOver};
ghost use Rattle.net_worker.specs.Inside.{AreBetween};
ghost use Rattle.net_worker.specs.Moved.{AllHoldOn, AllPayableOn, AreTakenOn, IsLaidBy, greatest_on, taken_or_seen};
ghost use Rattle.net_worker.specs.Offers.{held_stamp, IsOffered};
ghost use Rattle.net_worker.specs.Portions.{HasPins, SameHere};
ghost use Rattle.net_worker.specs.Views.{net_of};
ghost use Rattle.net_worker.specs.Workers.{held_by};

use crate::channel_ends::ChannelEnds;
use crate::ends::put_above;
use crate::parts::{offer_inner, one_above, stamp_near, take_near};
use crate::portion::Portion;
use crate::tables::Tables;
use elastic_link::{PutEnd, TakeEnd};
use net_check::Pins;
use net_core::{Laid, Put, Taken};

/// The token that a firing of a unit puts, by its place and by its channel.
#[derive(Clone, Copy)]
pub(crate) struct Offered {
    pub unit: u32,
    pub put: Option<Put>,
    pub laid: Option<Laid>,
}

/// The stamp of the token that the end of a channel holds; 0 where the channel has no end.
#[tactic(auto, using(crate::proofs::Moved::between_asked))]
#[inline(always)]
fn stamp_on(takes: &mut ChannelEnds<TakeEnd>, tables: &Tables, chan: u32) -> u64
    requires held { HoldsIfAny (get_or takes.old.items chan None) }
    requires between { AreBetween tables.now takes.old.items }
    ensures asked { TakesAsked takes.old.items takes.new.items }
    ensures between { AreBetween tables.now takes.new.items }
    ensures chans { takes.new.chans ≡ takes.old.chans }
    ensures stamp { result ≡ held_stamp (held_by (get_or takes.old.items chan None)) }
    ensures fits { IsStamp result }
{
    let Some(places) = tables.end_places(chan) else {
        return 0;
    };
    stamp_near(takes, chan, places.take as usize)
}

/// The greatest of a stamp and those of the tokens that are held on channels.
#[inline(always)]
pub(crate) fn above_on(
    takes: &mut ChannelEnds<TakeEnd>,
    tables: &Tables,
    used: Taken,
    clock: u64,
) -> u64
    requires held { AllHoldOn takes.old.items (chans_of used) }
    requires between { AreBetween tables.now takes.old.items }
    requires clock { IsStamp clock }
    ensures asked { TakesAsked takes.old.items takes.new.items }
    ensures between { AreBetween tables.now takes.new.items }
    ensures chans { takes.new.chans ≡ takes.old.chans }
    ensures greatest { result ≡ max clock (greatest_on takes.old.items (chans_of used)) }
    ensures fits { IsStamp result }
{
    match used {
        Taken::None => clock,
        Taken::One(c) => clock.max(stamp_on(takes, tables, c)),
        Taken::Two(c, d) => {
            let first = stamp_on(takes, tables, c);
            let second = stamp_on(takes, tables, d);
            clock.max(first.max(second))
        }
        Taken::Three(c, d, e) => {
            let first = stamp_on(takes, tables, c);
            let second = stamp_on(takes, tables, d);
            let third = stamp_on(takes, tables, e);
            clock.max(first.max(second.max(third)))
        }
    }
}

/// The channels whose heads a firing uses: those from which it takes; a fork looks at its one input, taken or not.
#[inline(always)]
pub(crate) fn used_on(fork: bool, pins: Pins, taken: Taken) -> Taken
    ensures { result ≡ taken_or_seen fork pins taken }
{
    if fork { Taken::One(pins.first) } else { taken }
}

/// Puts the token of a firing where its output goes to another worker, with a stamp one above `above` and the newest
/// credit, and answers the stamp; else one above `above`. `None` where there is no room, no credit, no slot or no stamp.
#[inline(always)]
pub(crate) fn offer_on(
    puts: &mut ChannelEnds<PutEnd>,
    portion: &Portion,
    tables: &Tables,
    offered: Offered,
    above: u64,
) -> Option<u64>
    requires of { IsOf (net_of tables.now) portion.now.state }
    requires here { HasPins (net_of tables.now) portion.now offered.unit }
    requires laid { IsLaidBy (net_of tables.now) offered }
    requires between { AreBetween tables.now puts.old.items }
    requires above { IsStamp above }
    ensures some { IfSome result (λ n. IsOffered (net_of tables.now) (state_of portion.now.state)
        offered.unit offered.put above n puts.old.items puts.new.items) }
    ensures asked { IfNone result (PutsAsked puts.old.items puts.new.items) }
    ensures chans { puts.new.chans ≡ puts.old.chans }
{
    let Some(laid) = offered.laid else {
        return one_above(above);
    };
    let Some(places) = tables.end_places(laid.chan) else {
        return offer_inner(portion, tables.net, laid.chan, above);
    };
    match puts.get_mut(laid.chan, places.put as usize) {
        Some(end) => put_above(end, laid.value, above),
        None => offer_inner(portion, tables.net, laid.chan, above),
    }
}

/// Takes the token of a channel from another worker, and repays its credit.
#[tactic(auto, using(crate::proofs::Moved::between_taken))]
#[inline(always)]
fn take_on(takes: &mut ChannelEnds<TakeEnd>, tables: &Tables, chan: u32, stamp: u64)
    requires stamp { IsStamp stamp }
    requires payable { IsPayable stamp (get_or takes.old.items chan None) }
    requires between { AreBetween tables.now takes.old.items }
    ensures long { length takes.new.items ≡ length takes.old.items }
    ensures between { AreBetween tables.now takes.new.items }
    ensures chans { takes.new.chans ≡ takes.old.chans }
    ensures taken { TakeStep true stamp
        (get_or takes.old.items chan None) (get_or takes.new.items chan None) }
    ensures others { (c : ℕ) → c ≢ chan
        → get_or takes.new.items c None ≡ get_or takes.old.items c None }
{
    let Some(places) = tables.end_places(chan) else {
        return;
    };
    take_near(takes, chan, places.take as usize, stamp);
}

/// Takes the tokens of those of these channels that come from other workers.
#[inline(always)]
pub(crate) fn take_moves(
    takes: &mut ChannelEnds<TakeEnd>,
    tables: &Tables,
    taken: Taken,
    stamp: u64,
)
    requires stamp { IsStamp stamp }
    requires payable { AllPayableOn stamp takes.old.items (chans_of taken) }
    requires between { AreBetween tables.now takes.old.items }
    requires distinct { AllDistinct (chans_of taken) }
    ensures taken { AreTakenOn stamp (chans_of taken) takes.old.items takes.new.items }
    ensures chans { takes.new.chans ≡ takes.old.chans }
{
    match taken {
        Taken::None => {}
        Taken::One(c) => take_on(takes, tables, c, stamp),
        Taken::Two(c, d) => {
            take_on(takes, tables, c, stamp);
            take_on(takes, tables, d, stamp);
        }
        Taken::Three(c, d, e) => {
            take_on(takes, tables, c, stamp);
            take_on(takes, tables, d, stamp);
            take_on(takes, tables, e, stamp);
        }
    }
}

/// Takes the token that a firing has put out of the state again, where it went to another worker.
#[inline(always)]
pub(crate) fn hand_over_on(
    portion: &mut Portion,
    puts: &ChannelEnds<PutEnd>,
    tables: &Tables,
    offered: Offered,
)
    requires of { IsOf (net_of tables.now) portion.old.state }
    requires here { HasPins (net_of tables.now) portion.old offered.unit }
    requires laid { IsLaidBy (net_of tables.now) offered }
    requires between { AreBetween tables.now puts.now.items }
    requires long { length puts.now.items ≡ length (net_of tables.now).chans }
    ensures of { IsOf (net_of tables.now) portion.new.state }
    ensures same { SameHere portion.old portion.new }
    ensures state { IsHandedOver (net_of tables.now) offered.unit offered.put puts.now.items
        (state_of portion.old.state) (state_of portion.new.state) }
{
    let Some(laid) = offered.laid else {
        return;
    };
    let Some(places) = tables.end_places(laid.chan) else {
        return;
    };
    if puts.has_near(laid.chan, places.put as usize) {
        portion.take_out(tables.net, laid.chan);
    }
}
