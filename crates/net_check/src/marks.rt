ghost use Rattle.std.specs.Prelude.{◌≡◌, ◌↔◌, IfOk, IsTrue, true};
ghost use Rattle.std.specs.List.{All};
ghost use Rattle.net_check.specs.private.Marks.{IsEachOnce};

use net_types::Memory;
use std::alloc::Global;

/// Whether the numbers are those below the count, each once, in any order.
///
/// # Errors
///
/// [`Memory`] where memory is wanting: one mark for each number below the count.
pub(crate) fn is_each_once(alloc: Global, count: usize, numbers: &[u32]) -> Result<bool, Memory>
    ensures { IfOk result (λ b. IsTrue b ↔ IsEachOnce count numbers.now) }
{
    let mut marks = vec![in alloc; false; count]?;
    for number in numbers {
        let at = *number as usize;
        if at >= count {
            return Ok(false);
        }
        if marks[at] {
            return Ok(false);
        }
        marks[at] = true;
    }
    Ok(all_set(marks.as_slice()))
}

fn all_set(marks: &[bool]) -> bool
    ensures { IsTrue result ↔ All (λ mark. mark ≡ true) marks.now }
{
    marks.iter().all(|mark| *mark)
}
