//! The inputs that a number gives.
ghost use Rattle.std.specs.Prelude.{◌≡◌, IfOk};
ghost use Rattle.kernel_bench.specs.Drawn.{bench_inputs, bench_places, bench_weights, bench_zeros, next_state};

use el_base::{List, Memory};
use net_types::Inputs;
use std::alloc::Global;

/// The scalar n, and the arrays x, w and h.
///
/// # Errors
///
/// [`Memory`] where memory is wanting.
pub(crate) fn drawn_inputs(alloc: Global, number: u64) -> Result<Inputs, Memory>
    ensures { IfOk result (λ inputs. inputs ≡ bench_inputs number) }
{
    let mut scalars = List::new(alloc);
    scalars.push(1024)?;
    let mut arrays = List::new(alloc);
    arrays.push(places(alloc, number)?)?;
    arrays.push(weights(alloc)?)?;
    arrays.push(zeros(alloc)?)?;
    Ok(Inputs { scalars, arrays })
}

/// The elements of x: the six highest bits of each of the next states of the generator.
fn places(alloc: Global, number: u64) -> Result<List<u64>, Memory>
    ensures { IfOk result (λ list. list ≡ bench_places number) }
{
    let mut list = List::new(alloc);
    let mut state = number;
    for _count in 0..1024u64 {
        state = next_state(state);
        list.push(state >> 58)?;
    }
    Ok(list)
}

/// The next state of the generator.
fn next_state(state: u64) -> u64
    ensures { result ≡ next_state state }
{
    state
        .wrapping_mul(6_364_136_223_846_793_005)
        .wrapping_add(1_442_695_040_888_963_407)
}

/// The elements of w: 1, 2 and so on.
#[tactic(auto, using(crate::proofs::Filling::range_more))]
fn weights(alloc: Global) -> Result<List<u64>, Memory>
    ensures { IfOk result (λ list. list ≡ bench_weights) }
{
    let mut list = List::new(alloc);
    for i in 0..1024u64 {
        list.push(i + 1)?;
    }
    Ok(list)
}

/// The elements of h.
#[tactic(auto, unfolding(crate::specs::Drawn::bench_zeros))]
fn zeros(alloc: Global) -> Result<List<u64>, Memory>
    ensures { IfOk result (λ list. list ≡ bench_zeros) }
{
    let mut list = List::new(alloc);
    for _count in 0..64u64 {
        list.push(0)?;
    }
    Ok(list)
}
