//! How kernels end on inputs, by the plain interpreter.
ghost use Rattle.std.specs.Prelude.{◌≡◌, map};
ghost use Rattle.c_meaning.specs.Headers.{flat};
ghost use Rattle.c_meaning.specs.Lawful.{Lawful};
ghost use Rattle.inputs_text.specs.Results.{AreResults};
ghost use Rattle.ref_interp.specs.Outcomes.{InputsFit};

use crate::kernels::{inputs_of, kernel_of};
use anyhow::{Result, bail};
use c_ast::Typed;
use c_meaning::Profile;
use el_base::{Array, Ty};
use inputs_text::print_results_of;
use net_types::{Inputs, List};
use ref_interp::{Outcome, flat_arrays, interpret};
use row_fields::{Output, escaped};
use std::alloc::Global;

/// Writes what a kernel comes to on inputs within so many turns, under both profiles with a tab between: a status, and the
/// results with the number of turns, or what is wrong.
pub fn put_both(
    alloc: Global,
    turns: u64,
    kernel: &str,
    inputs: &str,
    out: &mut Output,
) -> Result<()> {
    let kernel = kernel_of(alloc, kernel)?;
    put_typed(alloc, turns, &kernel.typed, inputs, out)
}

/// The same, of a typed kernel.
fn put_typed(alloc: Global, turns: u64, typed: &Typed, inputs: &str, out: &mut Output) -> Result<()>
    requires { Lawful typed.now }
{
    match flat_arrays(alloc, typed) {
        Ok(arrays) => put_on_arrays(alloc, turns, typed, arrays.as_slice(), inputs, out),
        Err(_) => bail!("want of memory"),
    }
}

/// The same, of a typed kernel with these arrays.
fn put_on_arrays(
    alloc: Global,
    turns: u64,
    typed: &Typed,
    arrays: &[Array],
    inputs: &str,
    out: &mut Output,
) -> Result<()>
    requires lawful { Lawful typed.now }
    requires header { arrays.now ≡ map flat typed.now.arrays }
{
    let inputs = inputs_of(alloc, typed, arrays, inputs)?;
    put_end(alloc, typed, Profile::Plain, arrays, &inputs, turns, out)?;
    out.word("\t");
    put_end(alloc, typed, Profile::Wrap, arrays, &inputs, turns, out)
}

/// Writes what a kernel comes to under a profile.
fn put_end(
    alloc: Global,
    typed: &Typed,
    profile: Profile,
    arrays: &[Array],
    inputs: &Inputs,
    turns: u64,
    out: &mut Output,
) -> Result<()>
    requires lawful { Lawful typed.now }
    requires header { arrays.now ≡ map flat typed.now.arrays }
    requires fit { InputsFit typed.now inputs.now }
{
    match interpret(alloc, typed, profile, inputs, turns) {
        Err(_) => bail!("want of memory"),
        Ok(
            Outcome::Ends {
                arrays: values,
                value,
                turns,
            },
        ) => {
            let results = Results {
                of: typed.result,
                value,
                turns,
            };
            put_results(alloc, arrays, values.as_slice(), results, out)
        }
        Ok(Outcome::Undefined { span }) => {
            out.word("13 ");
            out.number(span.line);
            out.word(":");
            out.number(span.column);
            out.word(": 80 Undefined");
            Ok(())
        }
        Ok(Outcome::OutOfTurns) => {
            out.word("14 81 Turns ");
            out.number(turns);
            Ok(())
        }
    }
}

/// The result of a kernel that ended, with its type, and the number of turns.
#[derive(Clone, Copy)]
struct Results {
    of: Option<Ty>,
    value: Option<u64>,
    turns: u64,
}

/// Writes the arrays, the result and the number of turns of a kernel that ended.
fn put_results(
    alloc: Global,
    arrays: &[Array],
    values: &[List<u64>],
    results: Results,
    out: &mut Output,
) -> Result<()>
    requires { AreResults arrays.now results.of values.now results.value }
{
    match print_results_of(alloc, arrays, results.of, values, results.value) {
        Ok(text) => put_text(alloc, text.as_slice(), results.turns, out),
        Err(_) => bail!("want of memory"),
    }
}

/// Writes the text of results and the number of turns.
fn put_text(alloc: Global, text: &[u8], turns: u64, out: &mut Output) -> Result<()> {
    let field = escaped(alloc, text)?;
    out.word("0 ");
    out.bytes(field.as_slice());
    out.word("# turns ");
    out.number(turns);
    out.word("\\n");
    Ok(())
}
