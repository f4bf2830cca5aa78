ghost use Rattle.std.specs.Prelude.{◌≡◌, IfOk, IfSome};
ghost use Rattle.el_base.specs.declared.ty.Ty.{Ty};
ghost use Rattle.el_base.specs.Widths.{ty_width, ty_signed};
ghost use Rattle.el_base.specs.Names.{ty_name};

use crate::list::List;
use crate::memory::Memory;
use crate::name::Name;
use std::alloc::Global;

/// An integer type of fixed width (ISO/IEC 9899:1999 7.18.1.1): signed ones are two's complement.
#[derive(Clone, Copy, Debug, PartialEq, Eq)]
pub enum Ty {
    I8,
    U8,
    I16,
    U16,
    I32,
    U32,
    I64,
    U64,
}

/// All types.
const TYPES: [Ty; 8] = [
    Ty::I8,
    Ty::U8,
    Ty::I16,
    Ty::U16,
    Ty::I32,
    Ty::U32,
    Ty::I64,
    Ty::U64,
];

impl Ty {
    /// Whether the type has negative numbers.
    pub fn signed(self) -> bool
        ensures { result ≡ ty_signed self }
    {
        match self {
            Ty::I8 | Ty::I16 | Ty::I32 | Ty::I64 => true,
            Ty::U8 | Ty::U16 | Ty::U32 | Ty::U64 => false,
        }
    }

    /// The width, in bits.
    pub fn width(self) -> u32
        ensures { result ≡ ty_width self }
    {
        match self {
            Ty::I8 | Ty::U8 => 8,
            Ty::I16 | Ty::U16 => 16,
            Ty::I32 | Ty::U32 => 32,
            Ty::I64 | Ty::U64 => 64,
        }
    }

    /// The type's word in a net text.
    pub fn name(self) -> &'static str
        ensures { result.now ≡ ty_name self }
    {
        match self {
            Ty::I8 => "i8",
            Ty::U8 => "u8",
            Ty::I16 => "i16",
            Ty::U16 => "u16",
            Ty::I32 => "i32",
            Ty::U32 => "u32",
            Ty::I64 => "i64",
            Ty::U64 => "u64",
        }
    }

    /// The type of that word; `None` where no type has it.
    pub fn of_name(bytes: &[u8]) -> Option<Ty>
        ensures named { IfSome result (λ t. ty_name t ≡ bytes.now) }
        ensures every { (t : Ty) → ty_name t ≡ bytes.now → result ≡ Some t }
    {
        for ty in TYPES {
            if ty.name().as_bytes() == bytes {
                return Some(ty);
            }
        }
        None
    }
}

/// A scalar parameter of a kernel or circuit.
#[derive(Drop)]
pub struct Scalar {
    pub name: Name,
    pub ty: Ty,
}

impl Scalar {
    /// An equal scalar.
    ///
    /// # Errors
    ///
    /// [`Memory`] where memory is wanting.
    pub fn copy(&self) -> Result<Scalar, Memory>
        ensures { IfOk result (λ s. s ≡ self.now) }
    {
        Ok(Scalar {
            name: self.name.copy()?,
            ty: self.ty,
        })
    }
}

/// An array parameter: its elements' type and their number.
#[derive(Drop)]
pub struct Array {
    pub name: Name,
    pub ty: Ty,
    pub len: u64,
}

impl Array {
    /// An equal array.
    ///
    /// # Errors
    ///
    /// [`Memory`] where memory is wanting.
    pub fn copy(&self) -> Result<Array, Memory>
        ensures { IfOk result (λ a. a ≡ self.now) }
    {
        Ok(Array {
            name: self.name.copy()?,
            ty: self.ty,
            len: self.len,
        })
    }
}

/// Equal scalars, in their order.
///
/// # Errors
///
/// [`Memory`] where memory is wanting.
pub fn copy_scalars(alloc: Global, scalars: &[Scalar]) -> Result<List<Scalar>, Memory>
    ensures { IfOk result (λ copies. copies ≡ scalars.now) }
{
    let mut copies = List::new(alloc);
    for scalar in scalars {
        copies.push(scalar.copy()?)?;
    }
    Ok(copies)
}

/// Equal arrays, in their order.
///
/// # Errors
///
/// [`Memory`] where memory is wanting.
pub fn copy_arrays(alloc: Global, arrays: &[Array]) -> Result<List<Array>, Memory>
    ensures { IfOk result (λ copies. copies ≡ arrays.now) }
{
    let mut copies = List::new(alloc);
    for array in arrays {
        copies.push(array.copy()?)?;
    }
    Ok(copies)
}
