//! What a header asks for by its names, and the patterns that lines gave for them.
ghost use Rattle.std.specs.Prelude.{◌≡◌, [], None, IfOk, OnOk};
ghost use Rattle.inputs_text.specs.Rules.{beside, slots};
ghost use Rattle.inputs_text.specs.Texts.{AreNamed};

use el_base::{Array, List, Memory, Name, Scalar, Ty};
use indexmap::IndexMap;
use std::alloc::Global;

/// What a name of a header asks for: so many numbers that a type holds.
#[derive(Clone, Copy)]
pub(crate) struct Slot {
    pub ty: Ty,
    pub len: u64,
}

/// A header's names, in its order, with what each asks for.
pub(crate) fn slots(
    alloc: Global,
    scalars: &[Scalar],
    arrays: &[Array],
) -> Result<IndexMap<Name, Slot>, Memory>
    requires { AreNamed scalars.now arrays.now }
    ensures { IfOk result (λ m. m.entries ≡ slots scalars.now arrays.now) }
{
    let mut slots = IndexMap::new(alloc);
    fill(&mut slots, scalars, arrays)?;
    Ok(slots)
}

/// Puts a header's names in, in its order, with what each asks for.
fn fill(
    asked: &mut IndexMap<Name, Slot>,
    scalars: &[Scalar],
    arrays: &[Array],
) -> Result<(), Memory>
    requires names { AreNamed scalars.now arrays.now }
    requires none { asked.old.entries ≡ [] }
    ensures { OnOk result (asked.new.entries ≡ slots scalars.now arrays.now) }
{
    for scalar in scalars {
        let slot = Slot {
            ty: scalar.ty,
            len: 1,
        };
        asked.insert(scalar.name.copy()?, slot)?;
    }
    for array in arrays {
        let slot = Slot {
            ty: array.ty,
            len: array.len,
        };
        asked.insert(array.name.copy()?, slot)?;
    }
    Ok(())
}
