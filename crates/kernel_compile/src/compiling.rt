//! Compiling a kernel.
ghost use Rattle.std.specs.Prelude.{◌≡◌, ◌≤◌, IfOk, length};
ghost use Rattle.el_base.specs.Limits.{max_kernel_bytes, max_nodes};
ghost use Rattle.c_ast.specs.Nodes.{typed_nodes};
ghost use Rattle.c_meaning.specs.Lawful.{Lawful};
ghost use Rattle.net_check.specs.Checks.{IsChecked};
ghost use Rattle.net_types.specs.Numbered.{AreNumbered};
ghost use Rattle.buffer_place.specs.Timings.{IsTiming};
ghost use Rattle.queue_marks.specs.Marked.{marked};
ghost use Rattle.kernel_compile.specs.Compiling.{AnswersAsRead, CompileSays, IsCircuit};
ghost use Rattle.kernel_compile.specs.Layers.{IsKernelNet};

use crate::laws::kernel_nets_are_good;
use buffer_place::{Timing, place};
use c_ast::Typed;
use circuit_build::build;
use el_base::Memory;
use kernel_front::{KernelRefusal, read_kernel};
use kernel_graph::block_graph;
use lsq_groups::groups;
use net_check::{
    Checked, NetRefusal, a_net_has_one_refusal, all_rules_make_a_checked_net, check_net,
    slots_and_delays_break_two_rules,
};
use net_types::Net;
use queue_marks::{mark_queues, marks_keep_rules, queues_have_the_mark};
use std::alloc::Global;

/// A kernel with its circuit: its typed tree, which has no calls, the number of nodes of that tree, and a net that computes it.
#[derive(Drop)]
pub struct Compiled {
    pub typed: Typed,
    pub nodes: u64,
    pub net: Checked,
}

/// The circuit of the kernel that the program of these bytes becomes, with the slots and the delays of a timing. With `forward` each queue may
/// hand the data of a store that waits to a load of the same element, and without it none may.
///
/// It computes the kernel under every profile: on all inputs a run of the net that comes to rest has exited. Where the
/// kernel ends on its inputs in T turns, no run of the net on their patterns is longer than 256·N·(T+1) firings, N being
/// the number of nodes, and one at rest has the patterns of the kernel's arrays and result, and no strays. So it is in
/// whatever order the units fire, and with whatever other slots and delays the net keeps the rules.
///
/// The arrays that have a queue are exactly those that the kernel assigns to.
///
/// No profile is asked for, since it changes nothing: the circuit wraps, and what ends under the profile that does not wrap
/// ends in the same way under the one that does. So one circuit serves both.
///
/// # Errors
///
/// What [`read_kernel`] refuses, and [`KernelRefusal::Memory`] where memory ran out.
pub fn compile(
    alloc: Global,
    bytes: &[u8],
    timing: Timing,
    forward: bool,
) -> Result<Compiled, KernelRefusal>
    requires bytes { length bytes.now ≤ max_kernel_bytes }
    requires timing { IsTiming timing }
    ensures says { CompileSays bytes.now timing forward result }
    ensures as_read { AnswersAsRead bytes.now result }
{
    let kernel = read_kernel(alloc, bytes)?;
    let net = circuit(alloc, &kernel.typed, timing, forward)?;
    Ok(Compiled {
        typed: kernel.typed,
        nodes: kernel.nodes,
        net,
    })
}

/// The circuit of a kernel.
///
/// # Errors
///
/// [`Memory`] where memory is wanting.
fn circuit(alloc: Global, typed: &Typed, timing: Timing, forward: bool) -> Result<Checked, Memory>
    requires lawful { Lawful typed.now }
    requires few { typed_nodes typed.now ≤ max_nodes }
    requires timing { IsTiming timing }
    ensures { IfOk result (IsCircuit timing forward typed.now) }
{
    all_rules_make_a_checked_net();
    slots_and_delays_break_two_rules();
    kernel_nets_are_good();
    marks_keep_rules();
    queues_have_the_mark();
    let mut net = kernel_net(alloc, typed)?;
    mark_if(&mut net, forward);
    place(alloc, &mut net, timing)?;
    checked(alloc, net)
}

/// The net of a kernel's graph, with one slot in each channel and delay 1.
///
/// # Errors
///
/// [`Memory`] where memory is wanting.
fn kernel_net(alloc: Global, typed: &Typed) -> Result<Net, Memory>
    requires lawful { Lawful typed.now }
    requires few { typed_nodes typed.now ≤ max_nodes }
    ensures { IfOk result (IsKernelNet typed.now) }
{
    let graph = block_graph(alloc, typed)?;
    let _blocks = graph.look();
    let groups = groups(alloc, &graph)?;
    build(alloc, &graph, &groups)
}

/// Puts the mark on every queue where it is asked for.
fn mark_if(net: &mut Net, forward: bool)
    ensures { net.new ≡ marked forward net.old }
{
    if forward {
        mark_queues(net);
    }
}

/// A net that keeps all rules, with its tables.
///
/// # Errors
///
/// [`Memory`] where memory is wanting.
fn checked(alloc: Global, net: Net) -> Result<Checked, Memory>
    requires numbered { AreNumbered net }
    requires checked { IsChecked net }
    ensures { IfOk result (λ checked. checked ≡ net) }
{
    a_net_has_one_refusal();
    match check_net(alloc, net) {
        Ok(checked) => Ok(checked),
        Err(NetRefusal::Memory) => Err(Memory),
        Err(NetRefusal::Rule { .. }) => unreachable!(),
    }
}
