ghost use Rattle.std.specs.Prelude.{◌≡◌, IfOk};

use crate::firing::Inputs;
use crate::net::{Net, Unit};
use el_base::{List, Memory, copy_arrays, copy_scalars};
use std::alloc::Global;

impl Net {
    /// An equal net.
    ///
    /// # Errors
    ///
    /// [`Memory`] where memory is wanting.
    pub fn copy(&self, alloc: Global) -> Result<Net, Memory>
        ensures { IfOk result (λ net. net ≡ self.now) }
    {
        Ok(Net {
            name: self.name.copy()?,
            scalars: copy_scalars(alloc, self.scalars.as_slice())?,
            arrays: copy_arrays(alloc, self.arrays.as_slice())?,
            result: self.result,
            units: copy_units(alloc, self.units.as_slice())?,
            chans: self.chans.copy()?,
        })
    }
}

impl Unit {
    /// An equal unit.
    ///
    /// # Errors
    ///
    /// [`Memory`] where memory is wanting.
    pub fn copy(&self, alloc: Global) -> Result<Unit, Memory>
        ensures { IfOk result (λ unit. unit ≡ self.now) }
    {
        match self {
            Unit::Entry => Ok(Unit::Entry),
            Unit::Param(scalar) => Ok(Unit::Param(*scalar)),
            Unit::Const { width, value } => Ok(Unit::Const {
                width: *width,
                value: *value,
            }),
            Unit::Op1(op) => Ok(Unit::Op1(*op)),
            Unit::Op2(op) => Ok(Unit::Op2(*op)),
            Unit::Select { width } => Ok(Unit::Select { width: *width }),
            Unit::Fork { width, outs } => Ok(Unit::Fork {
                width: *width,
                outs: *outs,
            }),
            Unit::Mux { width, ins } => Ok(Unit::Mux {
                width: *width,
                ins: *ins,
            }),
            Unit::Cmerge { ins } => Ok(Unit::Cmerge { ins: *ins }),
            Unit::Branch { width } => Ok(Unit::Branch { width: *width }),
            Unit::Sink { width } => Ok(Unit::Sink { width: *width }),
            Unit::Read(array) => Ok(Unit::Read(*array)),
            Unit::Lsq {
                array,
                depth,
                ports,
                groups,
                forward,
            } => Ok(Unit::Lsq {
                array: *array,
                depth: *depth,
                ports: ports.copy()?,
                groups: copy_lists(alloc, groups.as_slice())?,
                forward: *forward,
            }),
            Unit::Exit => Ok(Unit::Exit),
        }
    }
}

impl Inputs {
    /// Equal inputs.
    ///
    /// # Errors
    ///
    /// [`Memory`] where memory is wanting.
    pub fn copy(&self, alloc: Global) -> Result<Inputs, Memory>
        ensures { IfOk result (λ inputs. inputs ≡ self.now) }
    {
        Ok(Inputs {
            scalars: self.scalars.copy()?,
            arrays: copy_lists(alloc, self.arrays.as_slice())?,
        })
    }
}

fn copy_lists<T: Copy>(alloc: Global, lists: &[List<T>]) -> Result<List<List<T>>, Memory>
    ensures { IfOk result (λ copies. copies ≡ lists.now) }
{
    let mut copies = List::new(alloc);
    for list in lists {
        copies.push(list.copy()?)?;
    }
    Ok(copies)
}

fn copy_units(alloc: Global, units: &[Unit]) -> Result<List<Unit>, Memory>
    ensures { IfOk result (λ copies. copies ≡ units.now) }
{
    let mut copies = List::new(alloc);
    for unit in units {
        copies.push(unit.copy(alloc)?)?;
    }
    Ok(copies)
}
