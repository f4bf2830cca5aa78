//! Where the units of each worker lie.
ghost use Rattle.std.specs.Prelude.{◌≡◌, ◌<◌, ◌+◌, ◌^◌, ℕ, IfOk, All, length, get_or};
ghost use Rattle.el_base.specs.Limits.{max_workers};
ghost use Rattle.net_worker.specs.Spans.{nowhere, IsWithin, AreWithin};

use el_base::MAX_WORKERS;
use net_types::Memory;
use std::alloc::Global;

/// The units from the first on and before the end.
#[derive(Clone, Copy)]
pub struct Span {
    pub first: usize,
    pub end: usize,
}

/// No units.
pub(crate) const NOWHERE: Span = Span { first: 0, end: 0 };

/// For each worker a span in which all its units lie.
pub(crate) fn spans_of(alloc: Global, owners: &[u32]) -> Result<Vec<Span>, Memory>
    requires few { All (λ o. o < max_workers) owners.now }
    ensures { IfOk result (λ v. AreWithin owners.now v.items) }
{
    let mut spans = vec![in alloc; NOWHERE; MAX_WORKERS as usize]?;
    for unit in 0..owners.len() {
        widen(&mut spans, owners[unit], unit);
    }
    Ok(spans)
}

/// Widens the span of a worker by a unit.
fn widen(spans: &mut Vec<Span>, owner: u32, unit: usize)
    requires within { owner < length spans.old.items }
    requires fits { unit + 1 < 2 ^ 64 }
    ensures long { length spans.new.items ≡ length spans.old.items }
    ensures within { IsWithin unit (get_or spans.new.items owner nowhere) }
    ensures kept { (o u : ℕ) → IsWithin u (get_or spans.old.items o nowhere)
        → IsWithin u (get_or spans.new.items o nowhere) }
{
    let span = spans[owner as usize];
    spans[owner as usize] = Span {
        first: if span.end == 0 {
            unit
        } else {
            span.first.min(unit)
        },
        end: span.end.max(unit + 1),
    };
}
