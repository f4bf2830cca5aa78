//! The scopes in force, with what each name stands for.
ghost use Rattle.std.specs.Prelude.{
  ◌≡◌,
  ◌==◌,
  ◌<◌,
  List,
  [],
  ◌∷◌,
  length,
  flat_map,
  None,
  All,
  OnOk,
  OnErr,
  IfOk,
};
ghost use Rattle.std.specs.Cmp.Lexicographic.{pointwise};
ghost use Rattle.std.specs.Map.{lookup};
ghost use Rattle.c_types.specs.Scopes.{
  declared_in,
  is_new_in,
  with_entry,
  latest_first,
  outer_scopes,
  without_innermost,
};
ghost use Rattle.indexmap.specs.IndexMap.{IsUnique};

use el_base::{Memory, Name};
use indexmap::IndexMap;
use std::alloc::Global;
use std::marker::Model;
use std::mem;

/// What each name in force stands for, scope by scope.
///
/// Contracts see the list of the scopes, the innermost first, each with its names, the latest
/// first.
pub(crate) struct Scopes<T: Drop> {
    alloc: Global,
    inner: IndexMap<Name, T>,
    outer: Vec<IndexMap<Name, T>>,
}

// By hand, so that to let go of them is a call.
impl<T: Drop> Drop for Scopes<T> {
    fn drop(self) {
        let Scopes {
            alloc: _alloc,
            inner: _inner,
            outer: _outer,
        } = self;
    }
}

impl<T: Drop> Model for Scopes<T> {
    ghost use Rattle.std.specs.Prelude.{◌==◌, List, ◌∷◌, ℕ, All};
    ghost use Rattle.std.specs.Coded.{coded_list, coded×, coded_ℕ};
    ghost use Rattle.std.specs.Cmp.Lexicographic.{pointwise};
    ghost use Rattle.indexmap.specs.IndexMap.{IsUnique};
    ghost use Rattle.c_types.specs.Scopes.{latest_first, outer_scopes};

    ghost Value = { List (List (List ℕ × T)) };

    ghost coded = { coded_list (coded_list (coded× (coded_list coded_ℕ) T.code)) };

    ghost view = { λ s. latest_first s.inner ∷ outer_scopes s.outer.items };

    ghost invariant = { λ s. IsUnique (pointwise ◌==◌) s.inner
        × All (IsUnique (pointwise ◌==◌)) s.outer.items };
}

impl<T: Copy + Drop> Scopes<T> {
    /// One scope without names. Takes no memory.
    pub fn new(alloc: Global) -> Scopes<T>
        ensures { result ≡ [] ∷ [] }
    {
        Scopes {
            alloc,
            inner: IndexMap::new(alloc),
            outer: Vec::new(alloc),
        }
    }

    /// What a name stands for: its innermost declaration.
    pub fn find(&self, name: &Name) -> Option<T>
        ensures { result ≡ declared_in self.now name.now }
    {
        match self.inner.get(name).copied() {
            Some(item) => Some(item),
            None => find_outer(self.outer.as_slice(), name),
        }
    }

    /// Whether a name is not yet declared in the innermost scope.
    pub fn is_new(&self, name: &Name) -> bool
        ensures { result ≡ is_new_in self.now name.now }
    {
        !self.inner.contains_key(name)
    }

    /// Declares a name in the innermost scope; false where it is declared there already.
    ///
    /// # Errors
    ///
    /// [`Memory`] where memory is wanting; the scopes are then as they were.
    pub fn declare(&mut self, name: &Name, item: T) -> Result<bool, Memory>
        ensures is { IfOk result (λ new. new ≡ is_new_in self.old name.now) }
        ensures scopes { OnOk result (self.new ≡ with_entry name.now item self.old) }
        ensures err { OnErr result (self.new ≡ self.old) }
    {
        if self.inner.contains_key(name) {
            return Ok(false);
        }
        self.inner.insert(name.copy()?, item)?;
        Ok(true)
    }

    /// Begins a scope inside.
    ///
    /// # Errors
    ///
    /// [`Memory`] where memory is wanting; the scopes are then as they were.
    pub fn enter(&mut self) -> Result<(), Memory>
        ensures entered { OnOk result (self.new ≡ [] ∷ self.old) }
        ensures err { OnErr result (self.new ≡ self.old) }
        ensures some { 0 < length self.old }
    {
        let outer = mem::replace(&mut self.inner, IndexMap::new(self.alloc));
        match self.outer.push(outer) {
            Ok(()) => Ok(()),
            Err(failed) => {
                self.inner = failed.value;
                Err(Memory)
            }
        }
    }

    /// Ends the innermost scope, unless it is the only one.
    pub fn leave(&mut self)
        ensures { self.new ≡ without_innermost self.old }
    {
        if let Some(outer) = self.outer.pop() {
            self.inner = outer;
        }
    }
}

// The same in the scopes outside, the last of which is the innermost.
fn find_outer<T: Copy + Drop>(outer: &[IndexMap<Name, T>], name: &Name) -> Option<T>
    requires { All (IsUnique (pointwise ◌==◌)) outer.now }
    ensures { result ≡ declared_in (outer_scopes outer.now) name.now }
{
    let (last, rest) = outer.split_last()?;
    match last.get(name).copied() {
        Some(item) => Some(item),
        None => find_outer(rest, name),
    }
}
