//! What reading the inputs of a net answers, and how what was read is printed.
ghost use Rattle.net_types.specs.Inputs.{InputsFit};

use crate::refusals::put_cause;
use anyhow::{Context, Result, bail, ensure};
use el_base::{MAX_INPUTS_BYTES, MAX_NETLIST_BYTES, number};
use inputs_text::{InputRefusal, print_results_of, read_inputs};
use net_check::{Checked, check_net};
use net_text::read;
use net_types::{Inputs, Net, Scalar};
use row_fields::{Output, text_within};
use std::alloc::Global;

/// Writes what reading answers to a line: a net text, a tab and an inputs text.
pub fn put_reading(alloc: Global, line: &str, out: &mut Output) -> Result<()> {
    let (net, inputs) = line
        .split_once('\t')
        .context("a line is a net text and an inputs text")?;
    let net = checked(alloc, net)?;
    put_read(alloc, &net, inputs, out)
}

/// Writes what reading inputs of a net answers to a field.
fn put_read(alloc: Global, net: &Checked, inputs: &str, out: &mut Output) -> Result<()> {
    let text = text_within(alloc, inputs, MAX_INPUTS_BYTES)?;
    match read_inputs(alloc, net, text.as_slice()) {
        Ok(inputs) => put_inputs(alloc, net.net(), &inputs, out),
        Err(refusal) => put_refusal(&refusal, out),
    }
}

/// The net of a field's text that keeps the rules.
fn checked(alloc: Global, field: &str) -> Result<Checked> {
    let text = text_within(alloc, field, MAX_NETLIST_BYTES)?;
    let Ok(net) = read(alloc, text.as_slice()) else {
        bail!("no text of a net");
    };
    ensure!(net.is_numbered(), "a net of too many units or channels");
    match check_net(alloc, net) {
        Ok(net) => Ok(net),
        Err(_) => bail!("a net that breaks a rule"),
    }
}

/// Writes the number of each scalar and the printed lines of the arrays, each with a slash after it.
fn put_inputs(alloc: Global, net: &Net, inputs: &Inputs, out: &mut Output) -> Result<()>
    requires { InputsFit net.now inputs.now }
{
    out.word("ok ");
    put_scalars(net.scalars.as_slice(), inputs.scalars.as_slice(), out);
    let Ok(arrays) = print_results_of(
        alloc,
        net.arrays.as_slice(),
        None,
        inputs.arrays.as_slice(),
        None,
    ) else {
        bail!("memory ran out");
    };
    put_lines(arrays.as_slice(), out);
    Ok(())
}

/// Writes lines, each with a slash for its line feed.
fn put_lines(lines: &[u8], out: &mut Output) {
    for byte in lines {
        match byte {
            b'\n' => out.word(" /"),
            byte => out.bytes(&[*byte]),
        }
    }
}

/// Writes the number of each scalar.
fn put_scalars(scalars: &[Scalar], patterns: &[u64], out: &mut Output) {
    for (scalar, pattern) in scalars.iter().zip(patterns) {
        out.bytes(scalar.name.as_slice());
        out.word(" = ");
        out.number(number(scalar.ty, *pattern));
        out.word(" /");
    }
}

/// Writes a refusal and its line, or the name that it names.
fn put_refusal(refusal: &InputRefusal, out: &mut Output) -> Result<()> {
    put_cause(refusal.number(), refusal.word(), out)?;
    out.word(" ");
    if let Some(line) = refusal.line() {
        out.number(line);
    }
    if let Some(name) = refusal.name() {
        out.bytes(name.as_slice());
    }
    Ok(())
}
