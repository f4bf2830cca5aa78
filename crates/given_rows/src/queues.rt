//! Lists of acts on load-store queues.
ghost use Rattle.std.specs.Prelude.{◌≤◌, ◌^◌, IfSome};
ghost use Rattle.net_check.specs.Shapes.{HasShape, KeepsC7};
ghost use Rattle.net_types.specs.Queues.{IsQueueShape};

use anyhow::{Context, Result, bail, ensure};
use el_base::Log;
use lsq_core::{ListLsq, Lsq, Queue, run_acts};
use net_check::check_shapes;
use net_text::read;
use net_types::{Act, List, Net, Port, Unit};
use row_fields::{Output, numbers_of};
use std::alloc::Global;

/// Writes what a queue answers to a list of acts: how many it makes, what they put, the array after them, how many
/// entries are left, and the oldest that may execute or `-`.
///
/// A line is the elements of the array, the queue as in the text of a net, and the acts, each with its token.
pub fn put_run(alloc: Global, line: &str, out: &mut Output) -> Result<()> {
    let fields: Vec<&str> = line.split('\t').collect(alloc)?;
    put_fields(alloc, fields.as_slice(), out)
}

/// The same of the fields of a line.
fn put_fields(alloc: Global, fields: &[&str], out: &mut Output) -> Result<()> {
    let [elements, queue, acts] = fields else {
        bail!("a line is an array, a queue and acts");
    };
    let array = elements_of(alloc, elements)?;
    let acts = acts_of(alloc, acts)?;
    put_text(alloc, array.as_slice(), queue, acts.as_slice(), out)
}

/// The elements of an array, with a space between two.
fn elements_of(alloc: Global, field: &str) -> Result<Vec<u64>> {
    let elements: Vec<&str> = field.split(' ').collect(alloc)?;
    Ok(numbers_of(alloc, elements.as_slice())?)
}

/// Writes what the queue of a text answers.
fn put_text(
    alloc: Global,
    array: &[u64],
    queue: &str,
    acts: &[(Act, u64)],
    out: &mut Output,
) -> Result<()> {
    let net = net_of(alloc, queue)?;
    put_net(alloc, array, &net, acts, out)
}

/// Writes what the queue of a net answers.
fn put_net(
    alloc: Global,
    array: &[u64],
    net: &Net,
    acts: &[(Act, u64)],
    out: &mut Output,
) -> Result<()> {
    ensure!(net.is_numbered(), "a net of too many units or channels");
    match check_shapes(alloc, net) {
        Err(_) => bail!("memory ran out"),
        Ok(Some(_)) => bail!("no shape of a queue"),
        Ok(None) => put_queues(alloc, array, net, acts, out),
    }
}

/// Acts with `;` between two.
fn acts_of(alloc: Global, text: &str) -> Result<Vec<(Act, u64)>> {
    let mut acts = Vec::new(alloc);
    for word in text.split(';') {
        acts.push(act_of(alloc, word)?)?;
    }
    Ok(acts)
}

/// An act: its word, its number where it has one, and its token where it takes one.
fn act_of(alloc: Global, text: &str) -> Result<(Act, u64)> {
    let words: Vec<&str> = text.split(' ').collect(alloc)?;
    let [word, numbers @ ..] = words.as_slice() else {
        bail!("no act of a queue");
    };
    let numbers: Vec<u64> = numbers_of(alloc, numbers)?;
    match act_by(word, numbers.as_slice()) {
        Some(act) => Ok(act),
        None => bail!("no act of a queue"),
    }
}

/// The act of a word and its numbers.
fn act_by(word: &str, numbers: &[u64]) -> Option<(Act, u64)> {
    match (word, numbers) {
        ("alloc", [group, token]) => Some((Act::Alloc(narrow(*group)?), *token)),
        ("addr", [port, token]) => Some((Act::Addr(narrow(*port)?), *token)),
        ("data", [port, token]) => Some((Act::Data(narrow(*port)?), *token)),
        ("exec", [serial]) => Some((Act::Exec(*serial), 0)),
        ("reply", [port]) => Some((Act::Reply(narrow(*port)?), 0)),
        ("retire", []) => Some((Act::Retire, 0)),
        ("end", [token]) => Some((Act::End, *token)),
        _ => None,
    }
}

/// The number of a group or of a port, where it is none that is too great.
fn narrow(number: u64) -> Option<u32> {
    u32::try_from(number).ok()
}

/// A net of one array and one queue.
fn net_of(alloc: Global, queue: &str) -> Result<Net> {
    let text = format!(in alloc;
        "elastic 2\nkernel q\narray a u64 1\nresult none\nunit lsq 0 {queue}\nend\n"
    )?;
    let text = text.as_bytes();
    ensure!(
        u32::try_from(text.len()).is_ok(),
        "a queue that is too long"
    );
    match read(alloc, text) {
        Ok(net) => Ok(net),
        Err(_) => bail!("no queue"),
    }
}

/// Writes what each queue of a net answers.
fn put_queues(
    alloc: Global,
    array: &[u64],
    net: &Net,
    acts: &[(Act, u64)],
    out: &mut Output,
) -> Result<()>
    requires { KeepsC7 net.now }
{
    for unit in net.units.as_slice() {
        put_unit(alloc, array, unit, acts, out)?;
    }
    Ok(())
}

/// Writes what a unit answers where it is a queue: one answer, or those of both bodies where they differ.
fn put_unit(
    alloc: Global,
    array: &[u64],
    unit: &Unit,
    acts: &[(Act, u64)],
    out: &mut Output,
) -> Result<()>
    requires { HasShape unit.now }
{
    let Some(shape) = shape_of(unit) else {
        return Ok(());
    };
    let list = answer_of_list(alloc, array, &shape, acts)?;
    let indexed = answer_of_indexed(alloc, array, &shape, acts)?;
    out.bytes(list.as_slice());
    if list != indexed {
        out.word(" and ");
        out.bytes(indexed.as_slice());
    }
    Ok(())
}

/// The shape of a queue.
#[derive(Clone, Copy)]
struct Shape<'a> {
    depth: u32,
    ports: &'a [Port],
    groups: &'a [List<u32>],
    forward: bool,
}

/// The shape of a unit that is a queue.
fn shape_of(unit: &Unit) -> Option<Shape<'_>>
    requires { HasShape unit.now }
    ensures { IfSome result (λ shape. IsQueueShape shape.depth shape.ports.now shape.groups.now) }
{
    match unit {
        Unit::Lsq {
            depth,
            ports,
            groups,
            forward,
            ..
        } => Some(Shape {
            depth: *depth,
            ports: ports.as_slice(),
            groups: groups.as_slice(),
            forward: *forward,
        }),
        _ => None,
    }
}

/// What the body of one list answers.
fn answer_of_list(
    alloc: Global,
    array: &[u64],
    shape: &Shape<'_>,
    acts: &[(Act, u64)],
) -> Result<Vec<u8>>
    requires { IsQueueShape shape.now.depth shape.now.ports.now shape.now.groups.now }
{
    let Shape {
        depth,
        ports,
        groups,
        forward,
    } = *shape;
    match ListLsq::new(alloc, array, depth, ports, groups, forward) {
        Ok(mut queue) => answer_of(alloc, &mut queue, acts),
        Err(_) => bail!("memory ran out"),
    }
}

/// What the body with an index answers.
fn answer_of_indexed(
    alloc: Global,
    array: &[u64],
    shape: &Shape<'_>,
    acts: &[(Act, u64)],
) -> Result<Vec<u8>>
    requires { IsQueueShape shape.now.depth shape.now.ports.now shape.now.groups.now }
{
    let Shape {
        depth,
        ports,
        groups,
        forward,
    } = *shape;
    match Lsq::new(alloc, array, depth, ports, groups, forward) {
        Ok(mut queue) => answer_of_lsq(alloc, &mut queue, acts),
        Err(_) => bail!("memory ran out"),
    }
}

/// What a queue with an index that is new answers.
fn answer_of_lsq(alloc: Global, queue: &mut Lsq, acts: &[(Act, u64)]) -> Result<Vec<u8>>
    requires { queue.old.queue.next ≤ 2 ^ 60 }
{
    let answer = answer_of(alloc, queue, acts)?;
    test_next_ports(queue)?;
    Ok(answer)
}

/// Stops where a queue does not allow an act at the least port at which it says that it allows one.
fn test_next_ports(queue: &Lsq) -> Result<()> {
    if let Some(port) = queue.next_addr(0) {
        ensure!(queue.can(Act::Addr(port)), "an address that is not allowed");
    }
    if let Some(port) = queue.next_data(0) {
        ensure!(queue.can(Act::Data(port)), "data that are not allowed");
    }
    if let Some(port) = queue.next_reply(0) {
        ensure!(queue.can(Act::Reply(port)), "a reply that is not allowed");
    }
    Ok(())
}

/// What a queue that is new answers.
fn answer_of<Q: Queue>(alloc: Global, queue: &mut Q, acts: &[(Act, u64)]) -> Result<Vec<u8>>
    requires { (Q.state queue.old).queue.next ≤ 2 ^ 60 }
{
    ensure!(u32::try_from(acts.len()).is_ok(), "too many acts");
    let Ok(mut puts) = Log::with_room(alloc, acts.len() as u64) else {
        bail!("memory ran out");
    };
    let made = run_acts(queue, acts, &mut puts);
    told(alloc, queue, made, puts.as_slice())
}

/// What is told of a queue that made so many acts.
fn told<Q: Queue>(alloc: Global, queue: &Q, made: u64, puts: &[u64]) -> Result<Vec<u8>> {
    let mut out = Output::new(alloc);
    out.word("made ");
    out.number(made);
    out.word(" puts");
    put_numbers(puts, &mut out);
    out.word(" array");
    put_numbers(queue.array(), &mut out);
    out.word(" len ");
    out.number(queue.len());
    out.word(" oldest ");
    match queue.oldest() {
        None => out.word("-"),
        Some(serial) => out.number(serial),
    }
    Ok(out.finish()?)
}

/// Writes numbers, a blank before each.
fn put_numbers(numbers: &[u64], out: &mut Output) {
    for number in numbers {
        out.word(" ");
        out.number(*number);
    }
}
