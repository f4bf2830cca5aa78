//! The text in version 2 of a net text in either version.
ghost use Rattle.std.specs.Prelude.{◌≤◌, Ok, Err, length, IfOk, IfErr};
ghost use Rattle.el_base.specs.Limits.{max_netlist_bytes};
ghost use Rattle.elastic_top.specs.Answers.{Upgrades};

use crate::fault::Refusal;
use el_base::Memory;
use net_front::{NetlistRefusal, read_net};
use net_text::print;
use std::alloc::Global;

/// The text of version 2 of the net that the bytes of this file spell.
pub fn upgraded<'a>(alloc: Global, file: &'a str, bytes: &[u8]) -> Result<Vec<u8>, Refusal<'a>>
    requires { length bytes.now ≤ max_netlist_bytes }
    ensures ok { IfOk result (λ text. Upgrades file.entry.now bytes.now (Ok text.items)) }
    ensures err { IfErr result (λ refusal. Upgrades file.entry.now bytes.now (Err refusal)) }
{
    let net = match read_net(alloc, bytes) {
        Ok(net) => net,
        Err(refused) => return Err(Refusal::Net(file, refused)),
    };
    match print(alloc, net.net()) {
        Ok(text) => Ok(text),
        Err(Memory) => Err(Refusal::Net(file, NetlistRefusal::Memory)),
    }
}
