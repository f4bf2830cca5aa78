//! Graphs as text. Parts of a line stand between tabs: the scalars, the arrays, the type of the result, and the blocks.
//!
//! A scalar is `u32:n`, an array `u32:a:4`. Blocks stand between ` | `, and the parts of a block between ` ; `: the widths of
//! its arguments after `block`, its steps, and its jump. A step is `const WIDTH VALUE`, `one OPERATION A`,
//! `two OPERATION A B`, `select WIDTH CONDITION YES NO`, `load ARRAY ADDRESS` or `store ARRAY ADDRESS VALUE`, and with `times N`
//! before it so many such steps. A jump is `go TO`, `if CONDITION TO else TO`, or `return` with at most one value, where TO is
//! the number of a block with the values that it gets.
//!
//! What reads a part gives nothing where there is none, or where memory is wanting.

use anyhow::{Context, Result};
use el_base::{Array, List, Name, Op1, Op2, Scalar, Ty};
use graph_check::checked_graph;
use ir::{Block, Instr, Ir, Jump, To};
use row_fields::numbers_of;
use std::alloc::Global;

/// The most steps that one word `times` may stand for.
const MOST: u32 = 100_000;

/// The graph that fields tell.
pub fn read_graph(alloc: Global, fields: &[&str]) -> Result<Ir> {
    graph_of(alloc, fields).context("no well-formed graph, or want of memory")
}

fn graph_of(alloc: Global, fields: &[&str]) -> Option<Ir> {
    let [scalars, arrays, of, blocks] = fields else {
        return None;
    };
    let of = result_of(of)?;
    let scalars = scalars_of(alloc, scalars)?;
    let arrays = arrays_of(alloc, arrays)?;
    let blocks = blocks_of(alloc, blocks)?;
    let name = name_of(alloc, "f")?;
    checked_graph(alloc, name, scalars, arrays, of, blocks).unwrap_or(None)
}

fn name_of(alloc: Global, word: &str) -> Option<Name> {
    Name::new(alloc, word.as_bytes()).unwrap_or(None)
}

/// The type of a result, if there is one, of a field that tells one or none.
fn result_of(word: &str) -> Option<Option<Ty>> {
    match Ty::of_name(word.as_bytes()) {
        None if word != "" => None,
        of => Some(of),
    }
}

fn scalars_of(alloc: Global, field: &str) -> Option<List<Scalar>> {
    let mut scalars = List::new(alloc);
    for word in field.split(' ') {
        if word != "" {
            scalars.push(scalar_of(alloc, word)?).ok()?;
        }
    }
    Some(scalars)
}

/// The scalar of a word `TYPE:NAME`.
fn scalar_of(alloc: Global, word: &str) -> Option<Scalar> {
    let (ty, name) = word.split_once(':')?;
    let ty = Ty::of_name(ty.as_bytes())?;
    let name = name_of(alloc, name)?;
    Some(Scalar { name, ty })
}

fn arrays_of(alloc: Global, field: &str) -> Option<List<Array>> {
    let mut arrays = List::new(alloc);
    for word in field.split(' ') {
        if word != "" {
            arrays.push(array_of(alloc, word)?).ok()?;
        }
    }
    Some(arrays)
}

/// The array of a word `TYPE:NAME:LENGTH`.
fn array_of(alloc: Global, word: &str) -> Option<Array> {
    let (ty, rest) = word.split_once(':')?;
    let (name, len) = rest.split_once(':')?;
    let ty = Ty::of_name(ty.as_bytes())?;
    let len = len.parse::<u64>().ok()?;
    let name = name_of(alloc, name)?;
    Some(Array { name, ty, len })
}

fn blocks_of(alloc: Global, field: &str) -> Option<List<Block>> {
    let mut blocks = List::new(alloc);
    for text in field.split('|') {
        blocks.push(block_of(alloc, text)?).ok()?;
    }
    Some(blocks)
}

/// The block of a text, which returns nothing where no part is a jump.
fn block_of(alloc: Global, text: &str) -> Option<Block> {
    let mut block = Block {
        args: List::new(alloc),
        steps: List::new(alloc),
        jump: Jump::Return(None),
    };
    for part in text.split(';') {
        add_part(&mut block, alloc, part)?;
    }
    Some(block)
}

/// Adds a part to a block.
fn add_part(block: &mut Block, alloc: Global, part: &str) -> Option<()> {
    let words = part.split(' ').filter(|word| *word != "");
    let words: Vec<&str> = words.collect(alloc).ok()?;
    match words.as_slice() {
        ["block", widths @ ..] => block.args = list_of(alloc, widths)?,
        ["go" | "if" | "return", ..] => block.jump = jump_of(alloc, words.as_slice())?,
        ["times", count, step @ ..] => add_times(&mut block.steps, alloc, count, step)?,
        step => block.steps.push(step_of(alloc, step)?).ok()?,
    }
    Some(())
}

/// Adds so many of a step.
fn add_times(steps: &mut List<Instr>, alloc: Global, count: &str, step: &[&str]) -> Option<()> {
    let count = number_of(count)?.min(MOST);
    let step = step_of(alloc, step)?;
    for _ in 0..count {
        steps.push(step).ok()?;
    }
    Some(())
}

fn number_of(word: &str) -> Option<u32> {
    word.parse::<u32>().ok()
}

fn list_of(alloc: Global, words: &[&str]) -> Option<List<u32>> {
    let mut numbers = List::new(alloc);
    for word in words {
        numbers.push(number_of(word)?).ok()?;
    }
    Some(numbers)
}

fn step_of(alloc: Global, words: &[&str]) -> Option<Instr> {
    match words {
        ["const", width, value] => constant(width, value),
        ["one", op, a] => {
            let op = Op1::of_name(op.as_bytes())?;
            Some(Instr::One(op, number_of(a)?))
        }
        ["two", op, a, b] => {
            let op = Op2::of_name(op.as_bytes())?;
            Some(Instr::Two(op, number_of(a)?, number_of(b)?))
        }
        [word, numbers @ ..] => {
            let numbers: Vec<u32> = numbers_of(alloc, numbers).ok()?;
            step_by(word, numbers.as_slice())
        }
        [] => None,
    }
}

fn constant(width: &str, value: &str) -> Option<Instr> {
    let width = number_of(width)?;
    let value = value.parse::<u64>().ok()?;
    Some(Instr::Const { width, value })
}

/// The step of a word and its numbers.
fn step_by(word: &str, numbers: &[u32]) -> Option<Instr> {
    match (word, numbers) {
        ("select", [width, cond, yes, no]) => Some(Instr::Select {
            width: *width,
            cond: *cond,
            yes: *yes,
            no: *no,
        }),
        ("load", [array, addr]) => Some(Instr::Load {
            array: *array,
            addr: *addr,
        }),
        ("store", [array, addr, value]) => Some(Instr::Store {
            array: *array,
            addr: *addr,
            value: *value,
        }),
        _ => None,
    }
}

fn jump_of(alloc: Global, words: &[&str]) -> Option<Jump> {
    match words {
        ["go", to @ ..] => Some(Jump::Go(to_of(alloc, to)?)),
        ["if", cond, sides @ ..] => two_ways(alloc, cond, sides),
        ["return"] => Some(Jump::Return(None)),
        ["return", value] => Some(Jump::Return(Some(number_of(value)?))),
        _ => None,
    }
}

/// A jump by a condition to the block before the word `else` or to the one behind it.
fn two_ways(alloc: Global, cond: &str, sides: &[&str]) -> Option<Jump> {
    let cond = number_of(cond)?;
    let (yes, no) = parted(sides)?;
    let yes = to_of(alloc, yes)?;
    let no = to_of(alloc, no)?;
    Some(Jump::Two { cond, yes, no })
}

/// What stands before and after the word `else`.
fn parted<'a, 'b>(words: &'a [&'b str]) -> Option<(&'a [&'b str], &'a [&'b str])> {
    for at in 0..words.len() {
        if words[at] == "else" {
            return Some((&words[..at], &words[at + 1..]));
        }
    }
    None
}

fn to_of(alloc: Global, words: &[&str]) -> Option<To> {
    let (block, with) = words.split_first()?;
    let block = number_of(block)?;
    let with = list_of(alloc, with)?;
    Some(To { block, with })
}
