ghost use Rattle.std.specs.Prelude.{◌≡◌, IfOk};
ghost use Rattle.net_check.specs.Checks.{IsChecked};
ghost use Rattle.net_check.specs.declared.wires.Side.TheVariants.{In, Out};
ghost use Rattle.net_check.specs.private.Pinned.{ArePins, AreToldPins, no_pins};
ghost use Rattle.net_check.specs.private.Steers.{IsTableOf};

use crate::wires::Wires;
use net_types::{Memory, Net};
use std::alloc::Global;

/// The channels at the first places of a unit; the number of all channels at a place that has none.
#[derive(Clone, Copy)]
pub struct Pins {
    /// Into its input place 0.
    pub first: u32,
    /// Into its input place 1.
    pub second: u32,
    /// Into its input place 2.
    pub third: u32,
    /// Out of its output place 0.
    pub out: u32,
}

impl Pins {
    /// Of a unit without a channel, where there are so many channels.
    #[inline(always)]
    pub(crate) fn none(chans: u32) -> Pins
        ensures { result ≡ no_pins chans }
    {
        Pins {
            first: chans,
            second: chans,
            third: chans,
            out: chans,
        }
    }
}

/// The record of one unit, read from the tables.
fn pins_at(into: &Wires, out_of: &Wires, unit: u32) -> Pins
    ensures { AreToldPins into.now out_of.now unit result }
{
    Pins {
        first: into.at(unit, 0),
        second: into.at(unit, 1),
        third: into.at(unit, 2),
        out: out_of.at(unit, 0),
    }
}

/// The record of each unit, read from the tables once. It takes 16 bytes a unit.
///
/// # Errors
///
/// [`Memory`] where memory is wanting.
pub(crate) fn pins_by_unit(
    alloc: Global,
    net: &Net,
    into: &Wires,
    out_of: &Wires,
) -> Result<Vec<Pins>, Memory>
    requires checked { IsChecked net.now }
    requires ins { IsTableOf In net.now into.now }
    requires outs { IsTableOf Out net.now out_of.now }
    ensures { IfOk result (λ pins. ArePins pins.items net.now.chans) }
{
    let units = net.units.as_slice().len();
    let mut pins = Vec::with_capacity(alloc, units)?;
    for unit in 0..units {
        pins.push(pins_at(into, out_of, unit as u32))?;
    }
    Ok(pins)
}
