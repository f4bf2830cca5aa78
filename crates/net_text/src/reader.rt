ghost use Rattle.std.specs.Prelude.{◌∷◌, ◌++◌, ◌+◌, length, IfOk};
ghost use Rattle.el_base.specs.Limits.{IsNumbered};
ghost use Rattle.net_types.specs.Numbered.{AreNumbered};
ghost use Rattle.net_text.specs.Fits.{NameFits};
ghost use Rattle.net_text.specs.Bodies.{first_text};
ghost use Rattle.net_text.specs.Reads.{kernel_text};
ghost use Rattle.net_text.specs.Refusals.{Says, IsOnly};

use crate::body::{Stage, add, may_stand, read_line, stage_after};
use crate::lines::{read_kernel, read_version};
use crate::read_pieces::cut;
use crate::refusal::TextRefusal;
use crate::version::Version;
use net_types::{List, Name, Net};
use std::alloc::Global;

/// The net of a text of version 1 or 2, of fewer than 2^32 bytes; in version 1 no queue is marked. Its units and channels
/// are fewer than 2^32 each.
///
/// # Errors
///
/// `Version` where the first line is complete and names a version other than 1 and 2; else `Line` at the first complete line
/// that may not stand where it stands, or at the line after `end` where any byte follows it; else `Ends` where the text
/// ends before the complete line `end`. `Memory` where memory ran out.
pub fn read(alloc: Global, bytes: &[u8]) -> Result<Net, TextRefusal>
    requires { IsNumbered (length bytes.now) }
    ensures says { Says bytes.now result }
    ensures only { IsOnly bytes.now result }
    ensures numbered { IfOk result AreNumbered }
{
    read_text(alloc, bytes)
}

/// The net of a text, from its first line on.
fn read_text(alloc: Global, bytes: &[u8]) -> Result<Net, TextRefusal>
    requires { IsNumbered (length bytes.now) }
    ensures { Says bytes.now result }
{
    let Some((first, rest)) = cut(bytes, b'\n') else {
        return Err(TextRefusal::Ends);
    };
    let Some(number) = read_version(first) else {
        return Err(TextRefusal::Line { number: 1 });
    };
    let Some(version) = Version::of_number(number) else {
        return Err(TextRefusal::Version);
    };
    read_named(alloc, version, rest)
}

/// The net of a text without its first line.
fn read_named(alloc: Global, version: Version, text: &[u8]) -> Result<Net, TextRefusal>
    requires { IsNumbered (length text.now + 1) }
    ensures { Says (first_text version ++ 10 ∷ text.now) result }
{
    let Some((kernel, body)) = cut(text, b'\n') else {
        return Err(TextRefusal::Ends);
    };
    let Some(name) = read_kernel(alloc, kernel)? else {
        return Err(TextRefusal::Line { number: 2 });
    };
    read_body(alloc, version, name, body)
}

/// The net of a text without its first line and the line of the kernel's name.
fn read_body(alloc: Global, version: Version, name: Name, body: &[u8]) -> Result<Net, TextRefusal>
    requires fits { NameFits name }
    requires short { IsNumbered (length body.now + 4) }
    ensures { Says (first_text version ++ 10 ∷ (kernel_text name ++ 10 ∷ body.now)) result }
{
    let mut net = Net {
        name,
        scalars: List::new(alloc),
        arrays: List::new(alloc),
        result: None,
        units: List::new(alloc),
        chans: List::new(alloc),
    };
    let mut stage = Stage::Scalars;
    let mut rest = body;
    let mut number: u32 = 3;
    'lines: while let Some((text, after)) = cut(rest, b'\n') {
        let Some(line) = read_line(alloc, version, text)? else {
            return Err(TextRefusal::Line { number });
        };
        if !may_stand(&line, stage) {
            return Err(TextRefusal::Line { number });
        }
        stage = stage_after(&line);
        add(&mut net, line)?;
        rest = after;
        number += 1;
    }
    match stage {
        Stage::Ended => {
            if rest.is_empty() {
                Ok(net)
            } else {
                Err(TextRefusal::Line { number })
            }
        }
        Stage::Scalars | Stage::Arrays | Stage::Units | Stage::Chans => Err(TextRefusal::Ends),
    }
}
