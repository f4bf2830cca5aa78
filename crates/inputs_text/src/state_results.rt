//! The text of the results of a state.
ghost use Rattle.std.specs.Prelude.{◌≡◌, IfOk};
ghost use Rattle.net_core.specs.Runs.{HasExited};
ghost use Rattle.net_core.specs.States.{IsOf, state_of};
ghost use Rattle.inputs_text.specs.StateResults.{AreElementsIn, IsTextOf};

use crate::results::{put_arrays, put_return};
use el_base::{List, Memory};
use net_check::Checked;
use net_core::State;
use std::alloc::Global;

/// The text of the results of a state of the net whose exit has fired: a line for the elements of each array in header
/// order, and `return = n` with what the exit took where the net has a result.
///
/// # Errors
///
/// [`Memory`] where memory is wanting.
pub fn print_results(alloc: Global, net: &Checked, state: &State) -> Result<Vec<u8>, Memory>
    requires of { IsOf net.now state.now }
    requires exited { HasExited net.now (state_of state.now) }
    ensures { IfOk result (λ text. IsTextOf net.now (state_of state.now) text.items) }
{
    let values = elements_of(alloc, net, state)?;
    let mut text = Vec::new(alloc);
    put_arrays(&mut text, net.net().arrays.as_slice(), values.as_slice())?;
    put_return(&mut text, net.net().result, state.value())?;
    Ok(text)
}

/// The elements of each array of the header.
fn elements_of(alloc: Global, net: &Checked, state: &State) -> Result<List<List<u64>>, Memory>
    requires { IsOf net.now state.now }
    ensures { IfOk result (AreElementsIn net.now (state_of state.now)) }
{
    let mut values = List::new(alloc);
    for at in 0..net.net().arrays.as_slice().len() {
        let array = at as u32;
        values.push(list_of(alloc, state.arrays(net, array))?)?;
    }
    Ok(values)
}

fn list_of(alloc: Global, elements: &[u64]) -> Result<List<u64>, Memory>
    ensures { IfOk result (λ list. list ≡ elements.now) }
{
    let mut list = List::new(alloc);
    for element in elements {
        list.push(*element)?;
    }
    Ok(list)
}
