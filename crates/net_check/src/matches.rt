ghost use Rattle.std.specs.Prelude.{◌≡◌, ◌↔◌, ◌^◌, ◌&&◌, nat_lt, IsTrue, MatchOption, Some};
ghost use Rattle.net_types.specs.Numbered.{AreNumbered};
ghost use Rattle.net_types.specs.Rules.{width_fits, is_width, IsOfWidth, KeepsC2};
ghost use Rattle.net_types.specs.Nets.{kind_of};
ghost use Rattle.net_check.specs.Places.{CulpritC2};

use crate::refusal::{At, chan_at, unit_at};
use crate::widths::{in_width_at, out_width_at};
use net_types::{Chan, Net, Unit};

/// Rule C2, widths: `None` where it is kept, else the culprit.
///
/// It costs time in proportion to the units and the channels, and takes no memory.
pub fn check_widths(net: &Net) -> Option<At>
    requires { AreNumbered net.now }
    ensures { MatchOption result (KeepsC2 net.now) (CulpritC2 net.now) }
{
    for (u, unit) in net.units.as_slice().iter().enumerate() {
        if !width_fits(unit) {
            return Some(unit_at(u));
        }
    }
    for (c, chan) in net.chans.as_slice().iter().enumerate() {
        if !is_of_width(net, *chan) {
            return Some(chan_at(c));
        }
    }
    None
}

/// Whether the channel has the width of both its places.
fn is_of_width(net: &Net, chan: Chan) -> bool
    ensures { IsTrue result ↔ IsOfWidth net.now chan }
{
    if !is_some_of(out_width_at(net, chan.from), chan.width) {
        return false;
    }
    is_some_of(in_width_at(net, chan.to), chan.width)
}

fn is_some_of(found: Option<u32>, width: u32) -> bool
    ensures { IsTrue result ↔ (found ≡ Some width) }
{
    found == Some(width)
}

/// Whether the width that a unit names is 8, 16, 32 or 64, and its constant has that width.
fn width_fits(unit: &Unit) -> bool
    ensures { result ≡ width_fits unit.now }
{
    match unit {
        Unit::Const { width, value } => is_pattern(*width, *value),
        Unit::Select { width } => is_width(*width),
        Unit::Fork { width, .. } => is_width(*width),
        Unit::Mux { width, .. } => is_width(*width),
        Unit::Branch { width } => is_width(*width),
        Unit::Sink { width } => is_width(*width),
        Unit::Entry => true,
        Unit::Param(_) => true,
        Unit::Op1(_) => true,
        Unit::Op2(_) => true,
        Unit::Cmerge { .. } => true,
        Unit::Read(_) => true,
        Unit::Lsq { .. } => true,
        Unit::Exit => true,
    }
}

fn is_width(width: u32) -> bool
    ensures { result ≡ is_width width }
{
    width == 8 || width == 16 || width == 32 || width == 64
}

/// Whether the width is one of the four, and the value is below 2 to its power.
fn is_pattern(width: u32, value: u64) -> bool
    ensures { result ≡ (is_width width && nat_lt value (2 ^ width)) }
{
    match width {
        8 => value < 0x100,
        16 => value < 0x1_0000,
        32 => value < 0x1_0000_0000,
        64 => true,
        _ => false,
    }
}
