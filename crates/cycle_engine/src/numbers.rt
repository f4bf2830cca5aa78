//! The next act of a kind that may be enabled.

ghost use Rattle.std.specs.Prelude.{◌≡◌, ◌≤◌, ◌<◌, MatchOption, length};
ghost use Rattle.net_types.specs.Nets.{kind_of};
ghost use Rattle.net_types.specs.declared.firing.Act.TheVariants as acts;
ghost use Rattle.net_core.specs.States.{IsOf, state_of};
ghost use Rattle.cycle_engine.specs.private.Control.{ports_in};
ghost use Rattle.cycle_engine.specs.private.Fed.{HasFed, few_ports};
ghost use Rattle.cycle_engine.specs.private.Places.{HasNoneFrom, IsNextNumber, IsViewOf, KeepsControl, count_in};
ghost use Rattle.cycle_engine.specs.private.Used.{AreNumbered};

use crate::engine::Engine;
use crate::fed::FEW_PORTS;
use crate::places::{next_control, next_reply, next_told_addr, next_told_data, queue_of};
use net_check::Checked;
use net_core::UnitQueue;
use net_types::Act;

impl Engine {
    /// The least port from a number on at which a queue of so many ports allows an address. Of a queue of many ports only those are
    /// told that have a token for it.
    #[inline(always)]
    fn next_addr(&self, net: &Checked, unit: u32, from: u32, ports: u32) -> Option<u32>
        requires of { IsOf net.now self.now.state }
        requires fed { HasFed net.now (state_of self.now.state) self.now.used self.now.fed }
        requires numbers { AreNumbered net.now self.now.used.base.items
            (length self.now.used.last.items) }
        requires unit { unit < length net.now.units }
        requires ports { ports ≡ ports_in (kind_of net.now unit) }
        requires within { from ≤ ports }
        ensures { MatchOption result
            (HasNoneFrom net.now (state_of self.now.state) unit (acts.Addr 0) from)
            (IsNextNumber net.now (state_of self.now.state) unit (acts.Addr 0) from) }
    {
        let Some(queue) = queue_of(net, &self.state, unit) else {
            return None;
        };
        if ports <= FEW_PORTS {
            next_told_addr(net, &self.state, unit, queue, from)
        } else {
            self.next_fed_addr(net, unit, queue, from, ports)
        }
    }

    /// The least port from a number on at which a queue of so many ports allows an address and has a token for it.
    #[inline(never)]
    fn next_fed_addr(
        &self,
        net: &Checked,
        unit: u32,
        queue: &UnitQueue,
        from: u32,
        ports: u32,
    ) -> Option<u32>
        requires of { IsOf net.now self.now.state }
        requires fed { HasFed net.now (state_of self.now.state) self.now.used self.now.fed }
        requires numbers { AreNumbered net.now self.now.used.base.items
            (length self.now.used.last.items) }
        requires view { IsViewOf net.now (state_of self.now.state) unit queue.now }
        requires unit { unit < length net.now.units }
        requires ports { ports ≡ ports_in (kind_of net.now unit) }
        requires many { few_ports < ports_in (kind_of net.now unit) }
        requires within { from ≤ ports }
        ensures { MatchOption result
            (HasNoneFrom net.now (state_of self.now.state) unit (acts.Addr 0) from)
            (IsNextNumber net.now (state_of self.now.state) unit (acts.Addr 0) from) }
    {
        let _ = net;
        let first = self.fed.first(&self.used, unit, Act::Addr(0));
        let mut at = from;
        while at < ports {
            let Some(port) = next_told_addr(net, &self.state, unit, queue, at) else {
                return None;
            };
            if port >= ports {
                return None;
            }
            let Some(next) = self.fed.next(first, port, ports) else {
                return None;
            };
            if next == port {
                return Some(port);
            }
            at = next;
        }
        None
    }

    /// The least port from a number on at which a queue of so many ports allows data. Of a queue of many ports only those are told
    /// that have a token for them.
    #[inline(always)]
    fn next_data(&self, net: &Checked, unit: u32, from: u32, ports: u32) -> Option<u32>
        requires of { IsOf net.now self.now.state }
        requires fed { HasFed net.now (state_of self.now.state) self.now.used self.now.fed }
        requires numbers { AreNumbered net.now self.now.used.base.items
            (length self.now.used.last.items) }
        requires unit { unit < length net.now.units }
        requires ports { ports ≡ ports_in (kind_of net.now unit) }
        requires within { from ≤ ports }
        ensures { MatchOption result
            (HasNoneFrom net.now (state_of self.now.state) unit (acts.Data 0) from)
            (IsNextNumber net.now (state_of self.now.state) unit (acts.Data 0) from) }
    {
        let Some(queue) = queue_of(net, &self.state, unit) else {
            return None;
        };
        if ports <= FEW_PORTS {
            next_told_data(net, &self.state, unit, queue, from)
        } else {
            self.next_fed_data(net, unit, queue, from, ports)
        }
    }

    /// The least port from a number on at which a queue of so many ports allows data and has a token for them.
    #[inline(never)]
    fn next_fed_data(
        &self,
        net: &Checked,
        unit: u32,
        queue: &UnitQueue,
        from: u32,
        ports: u32,
    ) -> Option<u32>
        requires of { IsOf net.now self.now.state }
        requires fed { HasFed net.now (state_of self.now.state) self.now.used self.now.fed }
        requires numbers { AreNumbered net.now self.now.used.base.items
            (length self.now.used.last.items) }
        requires view { IsViewOf net.now (state_of self.now.state) unit queue.now }
        requires unit { unit < length net.now.units }
        requires ports { ports ≡ ports_in (kind_of net.now unit) }
        requires many { few_ports < ports_in (kind_of net.now unit) }
        requires within { from ≤ ports }
        ensures { MatchOption result
            (HasNoneFrom net.now (state_of self.now.state) unit (acts.Data 0) from)
            (IsNextNumber net.now (state_of self.now.state) unit (acts.Data 0) from) }
    {
        let _ = net;
        let first = self.fed.first(&self.used, unit, Act::Data(0));
        let mut at = from;
        while at < ports {
            let Some(port) = next_told_data(net, &self.state, unit, queue, at) else {
                return None;
            };
            if port >= ports {
                return None;
            }
            let Some(next) = self.fed.next(first, port, ports) else {
                return None;
            };
            if next == port {
                return Some(port);
            }
            at = next;
        }
        None
    }

    /// The least number from one on, and below so many, of an act of a kind that may be enabled, as far as the queue of the unit
    /// tells, the channel that is noted for control, and the tokens of ports.
    #[inline(always)]
    fn next_told(&self, net: &Checked, unit: u32, kind: Act, from: u32, count: u32) -> Option<u32>
        requires of { IsOf net.now self.now.state }
        requires fed { HasFed net.now (state_of self.now.state) self.now.used self.now.fed }
        requires numbers { AreNumbered net.now self.now.used.base.items
            (length self.now.used.last.items) }
        requires unit { unit < length net.now.units }
        requires count { count ≡ count_in (kind_of net.now unit) kind }
        requires within { from ≤ count }
        ensures { KeepsControl net.now (state_of self.now.state) self.now.control
            → MatchOption result
            (HasNoneFrom net.now (state_of self.now.state) unit kind from)
            (IsNextNumber net.now (state_of self.now.state) unit kind from) }
    {
        match kind {
            Act::From(_) => next_control(net, &self.state, self.control, unit, kind, from),
            Act::Alloc(_) => next_control(net, &self.state, self.control, unit, kind, from),
            Act::End => next_control(net, &self.state, self.control, unit, kind, from),
            Act::Addr(_) => self.next_addr(net, unit, from, count),
            Act::Data(_) => self.next_data(net, unit, from, count),
            Act::Reply(_) => next_reply(net, &self.state, unit, from),
            Act::Go => Some(from),
            Act::Send(_) => Some(from),
            Act::Exec(_) => Some(from),
            Act::Retire => Some(from),
        }
    }

    /// The least number from one on, and below so many, of an act of a kind that may be enabled, as far as is told; so many where
    /// there is none.
    #[inline(always)]
    pub(crate) fn next_number(
        &self,
        net: &Checked,
        unit: u32,
        kind: Act,
        from: u32,
        count: u32,
    ) -> u32
        requires of { IsOf net.now self.now.state }
        requires fed { HasFed net.now (state_of self.now.state) self.now.used self.now.fed }
        requires numbers { AreNumbered net.now self.now.used.base.items
            (length self.now.used.last.items) }
        requires unit { unit < length net.now.units }
        requires count { count ≡ count_in (kind_of net.now unit) kind }
        requires within { from ≤ count }
        ensures next { KeepsControl net.now (state_of self.now.state) self.now.control
            → IsNextNumber net.now (state_of self.now.state) unit kind from result }
        ensures from_on { from ≤ result }
        ensures within { result ≤ count }
    {
        match self.next_told(net, unit, kind, from, count) {
            None => count,
            Some(number) => number.max(from).min(count),
        }
    }
}
