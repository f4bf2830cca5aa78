ghost use Rattle.std.specs.Prelude.{◌++◌, codes, IfOk};
ghost use Rattle.el_base.specs.Names.{op1_name, op2_name};
ghost use Rattle.net_text.specs.declared.version.Version.TheVariants.{Two};
ghost use Rattle.net_text.specs.Fits.{Always, WritesUnit};
ghost use Rattle.net_text.specs.Reads.{Reads, PlainFits, ConstFits, QueueEndFits, pair_text, kind_text, unit_text, queue_end};

use crate::read_pieces::{
    after, cut, number_after, pair_after, read_groups, read_mark, read_ports, read_u32, read_u64,
};
use crate::version::Version;
use net_types::{List, Memory, Op1, Op2, Unit};
use std::alloc::Global;

/// The unit that a line without its line feed writes in a version.
pub(crate) fn read_unit(
    alloc: Global,
    version: Version,
    line: &[u8],
) -> Result<Option<Unit>, Memory>
    ensures { IfOk result (λ o. Reads (WritesUnit version) (unit_text version) line.now o) }
{
    match after(line, b"unit ") {
        Some(kind) => read_kind(alloc, version, kind),
        None => Ok(None),
    }
}

fn read_kind(alloc: Global, version: Version, text: &[u8]) -> Result<Option<Unit>, Memory>
    ensures { IfOk result (λ o. Reads (WritesUnit version) (kind_text version) text.now o) }
{
    match after(text, b"lsq ") {
        Some(args) => read_queue(alloc, version, args),
        None => Ok(read_plain(text)),
    }
}

/// A unit of any kind but a queue.
fn read_plain(text: &[u8]) -> Option<Unit>
    ensures { Reads PlainFits (kind_text Two) text.now result }
{
    if text == b"entry".as_slice() {
        return Some(Unit::Entry);
    }
    if text == b"exit".as_slice() {
        return Some(Unit::Exit);
    }
    if let Some(scalar) = number_after(text, b"param ") {
        return Some(Unit::Param(scalar));
    }
    if let Some(width) = number_after(text, b"select ") {
        return Some(Unit::Select { width });
    }
    if let Some((width, outs)) = pair_after(text, b"fork ") {
        return Some(Unit::Fork { width, outs });
    }
    if let Some((width, ins)) = pair_after(text, b"mux ") {
        return Some(Unit::Mux { width, ins });
    }
    if let Some(ins) = number_after(text, b"cmerge ") {
        return Some(Unit::Cmerge { ins });
    }
    if let Some(width) = number_after(text, b"branch ") {
        return Some(Unit::Branch { width });
    }
    if let Some(width) = number_after(text, b"sink ") {
        return Some(Unit::Sink { width });
    }
    if let Some(array) = number_after(text, b"read ") {
        return Some(Unit::Read(array));
    }
    if let Some((width, value)) = const_after(text, b"const ") {
        return Some(Unit::Const { width, value });
    }
    if let Some(op) = op1_after(text, b"op1 ") {
        return Some(Unit::Op1(op));
    }
    if let Some(op) = op2_after(text, b"op2 ") {
        return Some(Unit::Op2(op));
    }
    None
}

/// A width and a value after a word.
fn const_after(text: &[u8], word: &[u8]) -> Option<(u32, u64)>
    ensures { Reads ConstFits (λ p. word.now ++ pair_text 32 p) text.now result }
{
    let (width, value) = cut(after(text, word)?, b' ')?;
    Some((read_u32(width)?, read_u64(value)?))
}

/// An operation's name after a word.
fn op1_after(text: &[u8], word: &[u8]) -> Option<Op1>
    ensures { Reads Always (λ op. word.now ++ op1_name op) text.now result }
{
    Op1::of_name(after(text, word)?)
}

/// An operation's name after a word.
fn op2_after(text: &[u8], word: &[u8]) -> Option<Op2>
    ensures { Reads Always (λ op. word.now ++ op2_name op) text.now result }
{
    Op2::of_name(after(text, word)?)
}

/// The array, the depth, the ports, the groups and the mark of a queue.
fn read_queue(alloc: Global, version: Version, args: &[u8]) -> Result<Option<Unit>, Memory>
    ensures { IfOk result
        (λ o. Reads (WritesUnit version) (kind_text version) (codes "lsq " ++ args.now) o) }
{
    let Some((array, rest)) = cut(args, b' ') else {
        return Ok(None);
    };
    let Some((depth, rest)) = cut(rest, b' ') else {
        return Ok(None);
    };
    let Some((ports, end)) = cut(rest, b' ') else {
        return Ok(None);
    };
    let Some(array) = read_u32(array) else {
        return Ok(None);
    };
    let Some(depth) = read_u32(depth) else {
        return Ok(None);
    };
    let Some(ports) = read_ports(alloc, ports)? else {
        return Ok(None);
    };
    let Some((groups, forward)) = read_queue_end(alloc, version, end)? else {
        return Ok(None);
    };
    Ok(Some(Unit::Lsq {
        array,
        depth,
        ports,
        groups,
        forward,
    }))
}

/// The groups at the end of a queue's line, and its mark, which version 1 does not write.
fn read_queue_end(
    alloc: Global,
    version: Version,
    text: &[u8],
) -> Result<Option<(List<List<u32>>, bool)>, Memory>
    ensures { IfOk result (λ o. Reads (QueueEndFits version) (queue_end version) text.now o) }
{
    match version {
        Version::One => match read_groups(alloc, text)? {
            Some(groups) => Ok(Some((groups, false))),
            None => Ok(None),
        },
        Version::Two => read_marked(alloc, text),
    }
}

/// Groups, a space and a mark.
fn read_marked(alloc: Global, text: &[u8]) -> Result<Option<(List<List<u32>>, bool)>, Memory>
    ensures { IfOk result (λ o. Reads (QueueEndFits Two) (queue_end Two) text.now o) }
{
    let Some((groups, mark)) = cut(text, b' ') else {
        return Ok(None);
    };
    let Some(forward) = read_mark(mark) else {
        return Ok(None);
    };
    match read_groups(alloc, groups)? {
        Some(groups) => Ok(Some((groups, forward))),
        None => Ok(None),
    }
}
