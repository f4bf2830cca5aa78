//! A net under construction.
ghost use Rattle.std.specs.Prelude.{◌≡◌, ◌++◌, ◌∷◌, [], IfOk, OnOk, Some};
ghost use Rattle.circuit_build.specs.Drafts.{number, next, end_of, with_unit, with_chan, used, fed, undefined, buffered, sunk, spread, spread_end, uses_of_next, defined, control_forked, triggered, trigger_of, copied, copy_of};

use el_base::{List, Memory};
use net_types::{Chan, Place, Unit};

/// An output place whose channel is not laid yet, with the width of its tokens.
#[derive(Clone, Copy)]
pub struct End {
    pub place: Place,
    pub width: u32,
}

/// A side of a jump: its target, the end of its control token, and the ends of the values that it hands on.
#[derive(Drop)]
pub struct Edge {
    pub to: u32,
    pub control: Place,
    pub with: List<End>,
}

/// A queue that is laid: its unit, how many groups it has, and the next group and the next port that are not used.
#[derive(Clone, Copy)]
pub struct Queue {
    pub unit: u32,
    pub groups: u32,
    pub group: u32,
    pub port: u32,
}

/// A net under construction: its units and channels so far, the end of the control token, the next output of the open
/// block's control fork, how many uses each value of the open block has and the end of its next use, none for a value
/// without uses, the edges that are to be laid, for each target 1 and the number of its last edge, the unit of each merge,
/// and the queue of each array that has one.
pub struct Draft {
    pub units: List<Unit>,
    pub chans: List<Chan>,
    pub control: Place,
    pub trigger: Place,
    pub uses: List<u32>,
    pub ends: List<Option<End>>,
    pub edges: List<Edge>,
    pub tails: List<u32>,
    pub heads: List<u32>,
    pub queues: List<Option<Queue>>,
}

// By hand, so that to let go of one is a call.
impl Drop for Draft {
    fn drop(self) {
        let Draft {
            units: _units,
            chans: _chans,
            control: _control,
            trigger: _trigger,
            uses: _uses,
            ends: _ends,
            edges: _edges,
            tails: _tails,
            heads: _heads,
            queues: _queues,
        } = self;
    }
}

/// A length as a number of 32 bits; past them the greatest, to which no net of a kernel comes.
pub(crate) fn number(length: usize) -> u32
    ensures { result ≡ number length }
{
    length.min(u32::MAX as usize) as u32
}

/// What stands for a value that no end carries.
const NO_END: End = End {
    place: Place { unit: 0, place: 0 },
    width: 0,
};

/// A use of a value of these ends: its end, which is the next output of its fork from then on.
#[tactic(auto, using(std::proofs::lemmas::List::set_past))]
pub(crate) fn take(ends: &mut List<Option<End>>, value: u32) -> End
    ensures rest { ends.new ≡ used value ends.old }
    ensures end { result ≡ end_of ends.old value }
{
    let end = end_of(ends.as_slice(), value);
    let Place { unit, place } = end.place;
    let place = place.saturating_add(1);
    let next = End {
        place: Place { unit, place },
        width: end.width,
    };
    if (value as usize) < ends.len() {
        ends.set(value as usize, Some(next));
    }
    end
}

// The end of a value.
fn end_of(ends: &[Option<End>], value: u32) -> End
    ensures { result ≡ end_of ends.now value }
{
    match ends.get(value as usize) {
        Some(Some(end)) => *end,
        Some(None) | None => NO_END,
    }
}

impl Edge {
    /// A copy of an edge.
    pub(crate) fn copy(&self) -> Result<Edge, Memory>
        ensures { IfOk result (λ edge. edge ≡ self.now) }
    {
        Ok(Edge {
            to: self.to,
            control: self.control,
            with: self.with.copy()?,
        })
    }
}

impl Draft {
    /// Its units and its channels.
    pub(crate) fn into_parts(self) -> (List<Unit>, List<Chan>)
        ensures units { result.0 ≡ self.units }
        ensures chans { result.1 ≡ self.chans }
    {
        let Draft {
            units,
            chans,
            control: _control,
            trigger: _trigger,
            uses: _uses,
            ends: _ends,
            edges: _edges,
            tails: _tails,
            heads: _heads,
            queues: _queues,
        } = self;
        (units, chans)
    }

    /// The number of the next unit.
    pub(crate) fn next(&self) -> u32
        ensures { result ≡ next self.now }
    {
        number(self.units.len())
    }

    /// Lays a unit, whose number it returns.
    pub(crate) fn put(&mut self, unit: Unit) -> Result<u32, Memory>
        ensures draft { OnOk result (self.new ≡ with_unit unit self.old) }
        ensures number { IfOk result (λ n. n ≡ next self.old) }
    {
        let number = self.next();
        self.units.push(unit)?;
        Ok(number)
    }

    /// Lays a channel with one slot and delay 1.
    pub(crate) fn wire(
        &mut self,
        from: Place,
        to: Place,
        width: u32,
        ctl: bool,
    ) -> Result<(), Memory>
        ensures { OnOk result (self.new ≡ with_chan from to width ctl self.old) }
    {
        self.chans.push(Chan {
            from,
            to,
            width,
            slots: 1,
            delay: 1,
            ctl,
        })
    }

    /// Lays the channel of an end to an input of a unit.
    pub(crate) fn feed(&mut self, end: End, unit: u32, place: u32) -> Result<(), Memory>
        ensures { OnOk result (self.new ≡ fed end unit place self.old) }
    {
        self.wire(end.place, Place { unit, place }, end.width, false)
    }

    /// How many uses the next value of the block has.
    pub(crate) fn uses_of_next(&self) -> u32
        ensures { result ≡ uses_of_next self.now }
    {
        let number = self.ends.len();
        self.uses.as_slice().get(number).copied().unwrap_or(0)
    }

    /// The end of a value that has so many uses: a fork with an output for each, where there are more than one, and a sink
    /// where there is none.
    pub(crate) fn spread(&mut self, end: End, uses: u32) -> Result<Option<End>, Memory>
        ensures draft { OnOk result (self.new ≡ spread end uses self.old) }
        ensures end { IfOk result (λ e. e ≡ spread_end end uses self.old) }
    {
        if uses == 0 {
            self.sink(end)?;
            return Ok(None);
        }
        if uses == 1 {
            return Ok(Some(end));
        }
        let width = end.width;
        let unit = self.put(Unit::Fork { width, outs: uses })?;
        self.feed(end, unit, 0)?;
        Ok(Some(End {
            place: Place { unit, place: 0 },
            width,
        }))
    }

    /// The next value of the block stands at a place.
    pub(crate) fn define(&mut self, place: Place, width: u32) -> Result<(), Memory>
        ensures { OnOk result (self.new ≡ defined place width self.old) }
    {
        let uses = self.uses_of_next();
        let end = self.spread(End { place, width }, uses)?;
        self.ends.push(end)
    }

    /// The next step of the block has no value.
    pub(crate) fn define_nothing(&mut self) -> Result<(), Memory>
        ensures { OnOk result (self.new ≡ undefined self.old) }
    {
        self.ends.push(None)
    }

    /// The control token passes a fork with so many outputs beside the one by which it goes on, where there are any.
    pub(crate) fn fork_control(&mut self, triggers: u32) -> Result<(), Memory>
        ensures { OnOk result (self.new ≡ control_forked triggers self.old) }
    {
        if triggers == 0 {
            return Ok(());
        }
        let outs = triggers.saturating_add(1);
        let unit = self.put(Unit::Fork { width: 32, outs })?;
        self.wire(self.control, Place { unit, place: 0 }, 32, true)?;
        self.control = Place { unit, place: 0 };
        self.trigger = Place { unit, place: 1 };
        Ok(())
    }

    /// The next copy of the control token.
    pub(crate) fn next_trigger(&mut self) -> End
        ensures draft { self.new ≡ triggered self.old }
        ensures end { result ≡ trigger_of self.old }
    {
        let place = self.trigger;
        self.trigger = Place {
            unit: place.unit,
            place: place.place.saturating_add(1),
        };
        End { place, width: 32 }
    }

    /// The control token passes a fork with one output.
    pub(crate) fn buffer(&mut self) -> Result<(), Memory>
        ensures { OnOk result (self.new ≡ buffered self.old) }
    {
        let unit = self.put(Unit::Fork { width: 32, outs: 1 })?;
        self.wire(self.control, Place { unit, place: 0 }, 32, true)?;
        self.control = Place { unit, place: 0 };
        Ok(())
    }

    /// A use of a value: its end, which is the next output of its fork from then on.
    pub(crate) fn copy(&mut self, value: u32) -> End
        ensures draft { self.new ≡ copied value self.old }
        ensures end { result ≡ copy_of value self.old }
    {
        take(&mut self.ends, value)
    }

    /// An end goes to a sink.
    pub(crate) fn sink(&mut self, end: End) -> Result<(), Memory>
        ensures { OnOk result (self.new ≡ sunk end self.old) }
    {
        let unit = self.put(Unit::Sink { width: end.width })?;
        self.feed(end, unit, 0)
    }
}
