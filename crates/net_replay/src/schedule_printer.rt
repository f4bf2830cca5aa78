ghost use Rattle.std.specs.Prelude.{◌≡◌, ◌++◌, [], ◌∷◌, IfOk, OnOk, decimal};
ghost use Rattle.std.specs.List.{All};
ghost use Rattle.net_replay.specs.Readings.{ReadsBack};
ghost use Rattle.net_types.specs.Order.{ActFits};
ghost use Rattle.net_replay.specs.Schedules.{FiringFits, ScheduleText, act_text, firing_text};

use el_base::put_u64;
use net_types::{Act, Firing, Memory};
use std::alloc::Global;

/// The text of a list of firings, a line for each.
///
/// [`read_schedule`](crate::read_schedule) gives the list back from it.
///
/// # Errors
///
/// [`Memory`] where memory is wanting.
pub fn print_schedule(alloc: Global, firings: &[Firing]) -> Result<Vec<u8>, Memory>
    ensures text { IfOk result (λ text. ScheduleText firings.now text.items) }
    ensures fits { IfOk result (λ text. All FiringFits firings.now) }
    ensures reads_back { IfOk result (λ text. ReadsBack text.items firings.now) }
{
    let mut text = Vec::new(alloc);
    for firing in firings {
        put_firing(&mut text, *firing)?;
    }
    Ok(text)
}

/// Appends the line of a firing.
fn put_firing(text: &mut Vec<u8>, firing: Firing) -> Result<(), Memory>
    ensures ok { OnOk result (text.new.items ≡ text.old.items ++ (firing_text firing ++ 10 ∷ [])) }
    ensures fits { OnOk result (FiringFits firing) }
{
    put_u64(text, u64::from(firing.unit))?;
    put_bytes(text, b" ")?;
    put_act(text, firing.act)?;
    put_bytes(text, b"\n")
}

/// Appends an act.
fn put_act(text: &mut Vec<u8>, act: Act) -> Result<(), Memory>
    ensures ok { OnOk result (text.new.items ≡ text.old.items ++ act_text act) }
    ensures fits { OnOk result (ActFits act) }
{
    match act {
        Act::Go => put_bytes(text, b"go"),
        Act::From(input) => put_numbered(text, b"from ", u64::from(input)),
        Act::Send(output) => put_numbered(text, b"send ", u64::from(output)),
        Act::Alloc(group) => put_numbered(text, b"alloc ", u64::from(group)),
        Act::Addr(port) => put_numbered(text, b"addr ", u64::from(port)),
        Act::Data(port) => put_numbered(text, b"data ", u64::from(port)),
        Act::Exec(serial) => put_numbered(text, b"exec ", serial),
        Act::Reply(port) => put_numbered(text, b"reply ", u64::from(port)),
        Act::Retire => put_bytes(text, b"retire"),
        Act::End => put_bytes(text, b"end"),
    }
}

/// Appends bytes and a number.
fn put_numbered(text: &mut Vec<u8>, bytes: &[u8], number: u64) -> Result<(), Memory>
    ensures { OnOk result (text.new.items ≡ text.old.items ++ (bytes.now ++ decimal number)) }
{
    put_bytes(text, bytes)?;
    put_u64(text, number)
}

/// Appends bytes.
fn put_bytes(text: &mut Vec<u8>, bytes: &[u8]) -> Result<(), Memory>
    ensures { OnOk result (text.new.items ≡ text.old.items ++ bytes.now) }
{
    text.extend_from_slice(bytes)?;
    Ok(())
}
