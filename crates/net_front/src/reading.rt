//! Reading a netlist.
ghost use Rattle.std.specs.Prelude.{◌≤◌, Ok, Err, length, IfOk, IfErr};
ghost use Rattle.el_base.specs.Limits.{max_netlist_bytes};
ghost use Rattle.net_front.specs.Answers.{NetlistSays};

use crate::refusal::NetlistRefusal;
use net_check::{Checked, check_net};
use net_text::read;
use std::alloc::Global;

/// The checked net of the netlist, of version 1 or 2, that these bytes are.
///
/// # Errors
///
/// What the reader of net texts refuses, else the first broken rule. `Memory` where memory ran out.
pub fn read_net(alloc: Global, bytes: &[u8]) -> Result<Checked, NetlistRefusal>
    requires { length bytes.now ≤ max_netlist_bytes }
    ensures ok { IfOk result (λ net. NetlistSays bytes.now (Ok net)) }
    ensures err { IfErr result (λ refused. NetlistSays bytes.now (Err refused)) }
{
    let net = read(alloc, bytes)?;
    let checked = check_net(alloc, net)?;
    Ok(checked)
}
