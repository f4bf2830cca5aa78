//! Nets, inputs and schedules as fields.
ghost use Rattle.std.specs.Prelude.{IfOk};
ghost use Rattle.net_types.specs.Inputs.{InputsFit};

use anyhow::{Result, ensure};
use el_base::{MAX_INPUTS_BYTES, MAX_NETLIST_BYTES};
use inputs_text::{InputRefusal, read_inputs};
use net_check::{Checked, check_net};
use net_text::read;
use net_types::{Inputs, Net};
use row_fields::text_within;
use std::alloc::Global;

/// The checked net of a field.
pub fn net_of(alloc: Global, field: &str) -> Result<Checked> {
    let net = unchecked_of(alloc, field)?;
    ensure!(net.is_numbered(), "a net of too many units or channels");
    Ok(check_net(alloc, net)?)
}

/// The net of a field, not checked yet.
fn unchecked_of(alloc: Global, field: &str) -> Result<Net> {
    let text = text_within(alloc, field, MAX_NETLIST_BYTES)?;
    Ok(read(alloc, text.as_slice())?)
}

/// The inputs of a net that a field gives, or why it gives none.
pub fn inputs_of(alloc: Global, net: &Checked, field: &str) -> Result<Result<Inputs, InputRefusal>>
    ensures { IfOk result (λ inputs. IfOk inputs (InputsFit net.now)) }
{
    let text = text_within(alloc, field, MAX_INPUTS_BYTES)?;
    Ok(read_inputs(alloc, net, text.as_slice()))
}
