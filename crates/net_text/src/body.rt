ghost use Rattle.std.specs.Prelude.{◌≡◌, OnOk, IfOk};
ghost use Rattle.net_text.specs.Reads.{Reads};
ghost use Rattle.net_text.specs.Bodies.{LineFits, line_text, before_arrays, before_result, before_chans, after_result, may_stand, stage_after, net_with};

use crate::lines::{is_end, read_array, read_chan, read_result, read_scalar};
use crate::read_units::read_unit;
use crate::version::Version;
use net_types::{Array, Chan, Memory, Net, Scalar, Ty, Unit};
use std::alloc::Global;

/// What a line after the kernel's name writes.
#[derive(Drop)]
pub(crate) enum BodyLine {
    Scalar(Scalar),
    Array(Array),
    Result(Option<Ty>),
    Unit(Unit),
    Chan(Chan),
    End,
}

/// How far a text has come after the kernel's name: among the scalars, the arrays, the units or the channels, or past
/// its last line.
#[derive(Clone, Copy)]
pub(crate) enum Stage {
    Scalars,
    Arrays,
    Units,
    Chans,
    Ended,
}

/// The line that a text without its line feed writes in a version.
pub(crate) fn read_line(
    alloc: Global,
    version: Version,
    text: &[u8],
) -> Result<Option<BodyLine>, Memory>
    ensures { IfOk result (λ o. Reads (LineFits version) (line_text version) text.now o) }
{
    if let Some(chan) = read_chan(text) {
        return Ok(Some(BodyLine::Chan(chan)));
    }
    if let Some(unit) = read_unit(alloc, version, text)? {
        return Ok(Some(BodyLine::Unit(unit)));
    }
    if let Some(scalar) = read_scalar(alloc, text)? {
        return Ok(Some(BodyLine::Scalar(scalar)));
    }
    if let Some(array) = read_array(alloc, text)? {
        return Ok(Some(BodyLine::Array(array)));
    }
    if let Some(ty) = read_result(text) {
        return Ok(Some(BodyLine::Result(ty)));
    }
    if is_end(text) {
        return Ok(Some(BodyLine::End));
    }
    Ok(None)
}

fn before_arrays(stage: Stage) -> bool
    ensures { result ≡ before_arrays stage }
{
    match stage {
        Stage::Scalars => true,
        Stage::Arrays | Stage::Units | Stage::Chans | Stage::Ended => false,
    }
}

fn before_result(stage: Stage) -> bool
    ensures { result ≡ before_result stage }
{
    match stage {
        Stage::Scalars | Stage::Arrays => true,
        Stage::Units | Stage::Chans | Stage::Ended => false,
    }
}

fn before_chans(stage: Stage) -> bool
    ensures { result ≡ before_chans stage }
{
    match stage {
        Stage::Units => true,
        Stage::Scalars | Stage::Arrays | Stage::Chans | Stage::Ended => false,
    }
}

fn after_result(stage: Stage) -> bool
    ensures { result ≡ after_result stage }
{
    match stage {
        Stage::Units | Stage::Chans => true,
        Stage::Scalars | Stage::Arrays | Stage::Ended => false,
    }
}

/// Whether a line may stand at a stage.
pub(crate) fn may_stand(line: &BodyLine, stage: Stage) -> bool
    ensures { result ≡ may_stand line.now stage }
{
    match line {
        BodyLine::Scalar(_) => before_arrays(stage),
        BodyLine::Array(_) => before_result(stage),
        BodyLine::Result(_) => before_result(stage),
        BodyLine::Unit(_) => before_chans(stage),
        BodyLine::Chan(_) => after_result(stage),
        BodyLine::End => after_result(stage),
    }
}

/// The stage after a line.
pub(crate) fn stage_after(line: &BodyLine) -> Stage
    ensures { result ≡ stage_after line.now }
{
    match line {
        BodyLine::Scalar(_) => Stage::Scalars,
        BodyLine::Array(_) => Stage::Arrays,
        BodyLine::Result(_) => Stage::Units,
        BodyLine::Unit(_) => Stage::Units,
        BodyLine::Chan(_) => Stage::Chans,
        BodyLine::End => Stage::Ended,
    }
}

/// Adds what a line writes to the net so far.
pub(crate) fn add(net: &mut Net, line: BodyLine) -> Result<(), Memory>
    ensures ok { OnOk result (net.new ≡ net_with net.old line) }
{
    match line {
        BodyLine::Scalar(scalar) => net.scalars.push(scalar),
        BodyLine::Array(array) => net.arrays.push(array),
        BodyLine::Result(ty) => {
            net.result = ty;
            Ok(())
        }
        BodyLine::Unit(unit) => net.units.push(unit),
        BodyLine::Chan(chan) => net.chans.push(chan),
        BodyLine::End => Ok(()),
    }
}
