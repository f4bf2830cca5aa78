//! The declarations in force: what each name stands for, and the types of all variables so far.
ghost use Rattle.std.specs.Prelude.{◌≡◌, ◌∷◌, [], ◌++◌, ◌<◌, length, true, IfOk, OnOk, OnErr};
ghost use Rattle.el_base.specs.Limits.{IsNumbered};
ghost use Rattle.c_types.specs.Scopes.{is_new_in, with_entry, without_innermost};
ghost use Rattle.c_types.specs.declared.known.Binding.TheVariants as binding;

use crate::scopes::Scopes;
use c_ast::{List, Name, Ty};
use el_base::Memory;
use std::alloc::Global;

/// What a name stands for: a variable or an array, by its number, with its type or that of its
/// elements.
#[derive(Clone, Copy, PartialEq, Eq)]
pub(crate) enum Binding {
    Var { var: u32, ty: Ty },
    Array { array: u32, ty: Ty },
}

/// The declarations in force at a place, and the types of all variables that are declared before
/// it.
#[derive(Drop)]
pub(crate) struct Known {
    pub scopes: Scopes<Binding>,
    pub types: List<Ty>,
}

impl Known {
    /// One scope without names.
    pub fn new(alloc: Global) -> Known
        ensures scopes { result.scopes ≡ [] ∷ [] }
        ensures types { result.types ≡ [] }
    {
        Known {
            scopes: Scopes::new(alloc),
            types: List::new(alloc),
        }
    }

    /// The types of all variables.
    pub fn into_types(self) -> List<Ty>
        ensures { result ≡ self.types }
    {
        let Known { types, .. } = self;
        types
    }

    /// Begins a scope inside.
    ///
    /// # Errors
    ///
    /// [`Memory`] where memory is wanting; what is declared is then as it was.
    pub fn enter(&mut self) -> Result<(), Memory>
        ensures scopes { OnOk result (self.new.scopes ≡ [] ∷ self.old.scopes) }
        ensures types { self.new.types ≡ self.old.types }
        ensures err { OnErr result (self.new.scopes ≡ self.old.scopes) }
        ensures some { 0 < length self.old.scopes }
    {
        self.scopes.enter()
    }

    /// Ends the innermost scope.
    pub fn leave(&mut self)
        ensures scopes { self.new.scopes ≡ without_innermost self.old.scopes }
        ensures types { self.new.types ≡ self.old.types }
    {
        self.scopes.leave();
    }

    /// Declares a variable by a name that its scope does not have yet, and gives its number.
    ///
    /// # Errors
    ///
    /// [`Memory`] where memory is wanting; what is declared is then not used again.
    pub fn declare_var(&mut self, name: &Name, ty: Ty) -> Result<u32, Memory>
        requires new { is_new_in self.old.scopes name.now ≡ true }
        requires numbered { IsNumbered (length self.old.types) }
        ensures number { IfOk result (λ v. v ≡ length self.old.types) }
        ensures scopes { OnOk result (self.new.scopes
            ≡ with_entry name.now (binding.Var (length self.old.types) ty) self.old.scopes) }
        ensures types { OnOk result (self.new.types ≡ self.old.types ++ ty ∷ []) }
    {
        let var = self.types.len() as u32;
        self.scopes.declare(name, Binding::Var { var, ty })?;
        self.types.push(ty)?;
        Ok(var)
    }

    /// Declares an array of a number by a name that its scope does not have yet.
    ///
    /// # Errors
    ///
    /// [`Memory`] where memory is wanting; what is declared is then as it was.
    pub fn declare_array(&mut self, name: &Name, array: u32, ty: Ty) -> Result<(), Memory>
        requires { is_new_in self.old.scopes name.now ≡ true }
        ensures scopes { OnOk result (self.new.scopes
            ≡ with_entry name.now (binding.Array array ty) self.old.scopes) }
        ensures types { self.new.types ≡ self.old.types }
        ensures err { OnErr result (self.new.scopes ≡ self.old.scopes) }
    {
        self.scopes.declare(name, Binding::Array { array, ty })?;
        Ok(())
    }
}
