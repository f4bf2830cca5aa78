//! Choices between the values that two sides hand on.
ghost use Rattle.std.specs.Prelude.{◌≡◌, ◌+◌, ◌++◌, [], length, map, IfOk, OnOk};
ghost use Rattle.el_base.specs.Limits.{IsNumbered};
ghost use Rattle.block_select.specs.Choices.{
  is_choice,
  with_pair,
  choices,
  place_of_choice,
  chosen_value,
  chosen_values,
  select_of,
};

use ir::{Instr, List, Memory};
use std::alloc::Global;

/// A choice between two values of that width.
#[derive(Clone, Copy)]
pub struct Choice {
    pub width: u32,
    pub yes: u32,
    pub no: u32,
}

/// Whether two choices are equal.
fn is_choice(choice: Choice, other: Choice) -> bool
    ensures { result ≡ is_choice choice other }
{
    other.width == choice.width && other.yes == choice.yes && other.no == choice.no
}

/// The place of a choice among others, or their number.
fn place_of_choice(choices: &[Choice], choice: Choice) -> usize
    ensures { result ≡ place_of_choice choices.now choice }
{
    let count = choices.len();
    for at in 0..count {
        if is_choice(choice, choices[at]) {
            return at;
        }
    }
    count
}

/// Adds the choice of a pair, where its values differ and it is not among the others.
fn add_pair(choices: &mut Vec<Choice>, pair: Choice) -> Result<(), Memory>
    ensures { OnOk result (choices.new.items ≡ with_pair choices.old.items pair) }
{
    if pair.yes == pair.no {
        return Ok(());
    }
    if place_of_choice(choices.as_slice(), pair) == choices.len() {
        choices.push(pair)?;
    }
    Ok(())
}

/// The choices for the pairs that differ of as many values of each side, of these widths.
pub(crate) fn choices(
    alloc: Global,
    widths: &[u32],
    yes: &[u32],
    no: &[u32],
) -> Result<Vec<Choice>, Memory>
    requires yes { length yes.now ≡ length widths.now }
    requires no { length no.now ≡ length widths.now }
    ensures { IfOk result (λ made. made.items ≡ choices widths.now yes.now no.now []) }
{
    let mut made = Vec::new(alloc);
    let count = widths.len();
    for at in 0..count {
        let pair = Choice {
            width: widths[at],
            yes: yes[at],
            no: no[at],
        };
        add_pair(&mut made, pair)?;
    }
    Ok(made)
}

/// The value that stands for a pair, where the choices are numbered from `first` on.
fn chosen_value(first: u32, choices: &[Choice], pair: Choice) -> u32
    requires { IsNumbered (first + length choices.now) }
    ensures { result ≡ chosen_value first choices.now pair }
{
    if pair.yes == pair.no {
        pair.yes
    } else {
        first + place_of_choice(choices, pair) as u32
    }
}

/// The values that stand for those of both sides, where the choices are numbered from `first` on.
pub(crate) fn chosen_values(
    alloc: Global,
    first: u32,
    choices: &[Choice],
    widths: &[u32],
    yes: &[u32],
    no: &[u32],
) -> Result<List<u32>, Memory>
    requires few { IsNumbered (first + length choices.now) }
    requires yes { length yes.now ≡ length widths.now }
    requires no { length no.now ≡ length widths.now }
    ensures { IfOk result (λ values. values
        ≡ chosen_values first choices.now widths.now yes.now no.now) }
{
    let mut values = List::new(alloc);
    let count = widths.len();
    for at in 0..count {
        let pair = Choice {
            width: widths[at],
            yes: yes[at],
            no: no[at],
        };
        values.push(chosen_value(first, choices, pair))?;
    }
    Ok(values)
}

/// Steps, and behind them those that choose by a condition.
pub(crate) fn add_selects(
    steps: List<Instr>,
    cond: u32,
    choices: &[Choice],
) -> Result<List<Instr>, Memory>
    ensures { IfOk result (λ all. all ≡ steps ++ map (select_of cond) choices.now) }
{
    let mut all = steps;
    for choice in choices {
        all.push(Instr::Select {
            width: choice.width,
            cond,
            yes: choice.yes,
            no: choice.no,
        })?;
    }
    Ok(all)
}
