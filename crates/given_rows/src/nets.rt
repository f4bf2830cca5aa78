//! What reading and checking answer to a net text.
use crate::refusals::put_cause;
use anyhow::{Result, ensure};
use net_check::{At, NetRefusal, check_net};
use net_text::{TextRefusal, read};
use net_types::Net;
use row_fields::Output;
use std::alloc::Global;

/// Writes the reader's and the checker's answer, one after the other: `ok`, or what is wrong, with the line or what the
/// broken rule names.
pub fn put_verdict(alloc: Global, text: &[u8], out: &mut Output) -> Result<()> {
    ensure!(
        u32::try_from(text.len()).is_ok(),
        "a net text that is too long"
    );
    match read(alloc, text) {
        Ok(net) => put_checked(alloc, net, out),
        Err(refusal) => put_unread(&refusal, out),
    }
}

/// Writes why a text is no net's, and the line.
fn put_unread(refusal: &TextRefusal, out: &mut Output) -> Result<()> {
    put_cause(refusal.number(), refusal.word(), out)?;
    if let Some(line) = refusal.line() {
        out.word(" ");
        out.number(line);
    }
    Ok(())
}

/// Writes the checker's answer.
fn put_checked(alloc: Global, net: Net, out: &mut Output) -> Result<()> {
    ensure!(net.is_numbered(), "a net of too many units or channels");
    match check_net(alloc, net) {
        Ok(_) => {
            out.word("ok");
            Ok(())
        }
        Err(refusal) => put_broken(&refusal, out),
    }
}

/// Writes a broken rule and what it names.
fn put_broken(refusal: &NetRefusal, out: &mut Output) -> Result<()> {
    put_cause(refusal.number(), refusal.word(), out)?;
    match refusal.at() {
        Some(At::Unit(unit)) => {
            out.word(" unit ");
            out.number(unit);
        }
        Some(At::Chan(chan)) => {
            out.word(" chan ");
            out.number(chan);
        }
        Some(At::Net) | None => out.word(" net"),
    }
    Ok(())
}
