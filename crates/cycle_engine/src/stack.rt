//! Stacks that keep their room.

ghost use Rattle.std.specs.Prelude.{◌≡◌, ◌≤◌, [], ◌∷◌, ◌++◌, length, IfOk, OnOk, MatchOption};

use net_types::Memory;
use std::alloc::Global;
use std::marker::Model;

/// Items one upon another. What is taken away leaves its room, so that most items are put without asking for memory.
#[derive(Drop)]
pub(crate) struct Stack<T> {
    room: Vec<T>,
    len: usize,
    /// What new room is filled with.
    fill: T,
}

impl<T> Model for Stack<T> {
    ghost use Rattle.std.specs.Prelude.{◌≤◌, take, length};
    ghost use Rattle.cycle_engine.specs.private.Stacks.{Stacked, stacked_code};

    ghost Value = { Stacked T };

    ghost coded = { stacked_code T.code };

    ghost view = { λ s. record { items = take s.len s.room.items } };

    ghost invariant = { λ s. s.len ≤ length s.room.items };
}

impl<T: Copy> Stack<T> {
    /// A stack without items, whose room is filled with an item that no clause sees.
    pub(crate) fn new(alloc: Global, fill: T) -> Stack<T>
        ensures { result.items ≡ [] }
    {
        Stack {
            room: Vec::new(alloc),
            len: 0,
            fill,
        }
    }

    /// A stack without items that has room for so many.
    ///
    /// # Errors
    ///
    /// [`Memory`] where memory is wanting.
    pub(crate) fn with_room(alloc: Global, fill: T, count: usize) -> Result<Stack<T>, Memory>
        ensures { IfOk result (λ s. s.items ≡ []) }
    {
        Ok(Stack {
            room: vec![in alloc; fill; count]?,
            len: 0,
            fill,
        })
    }

    /// How many items there are.
    #[inline(always)]
    pub(crate) fn len(&self) -> usize
        ensures { result ≡ length self.now.items }
    {
        self.len
    }

    /// Puts an item on the top.
    ///
    /// # Errors
    ///
    /// [`Memory`] where memory is wanting.
    #[inline(always)]
    pub(crate) fn push(&mut self, item: T) -> Result<(), Memory>
        ensures { OnOk result (self.new.items ≡ self.old.items ++ item ∷ []) }
    {
        if self.len >= self.room.len() {
            grow(&mut self.room, self.fill)?;
        }
        self.room[self.len] = item;
        self.len += 1;
        Ok(())
    }

    /// Takes the top away.
    #[inline(always)]
    pub(crate) fn pop(&mut self) -> Option<T>
        ensures { MatchOption result
            ((self.old.items ≡ []) × (self.new.items ≡ []))
            (λ item. self.old.items ≡ self.new.items ++ item ∷ []) }
    {
        if self.len == 0 {
            return None;
        }
        self.len -= 1;
        Some(self.room[self.len])
    }

    /// The items, the lowest first.
    #[inline(always)]
    pub(crate) fn as_slice(&self) -> &[T]
        ensures { result.now ≡ self.now.items }
    {
        &self.room.as_slice()[0..self.len]
    }

    /// Takes all away.
    #[inline(always)]
    pub(crate) fn clear(&mut self)
        ensures { self.new.items ≡ [] }
    {
        self.len = 0;
    }

    /// Takes all away, and gives the room back where it is for more than so many items.
    #[inline(always)]
    pub(crate) fn clear_to(&mut self, most: usize)
        ensures { self.new.items ≡ [] }
    {
        self.clear();
        if self.room.len() > most {
            let_go(&mut self.room);
        }
    }
}

/// Makes room for one more item. It stands apart so that what puts an item stays small.
///
/// # Errors
///
/// [`Memory`] where memory is wanting.
#[inline(never)]
fn grow<T: Copy>(room: &mut Vec<T>, fill: T) -> Result<(), Memory>
    ensures grown { OnOk result (room.new.items ≡ room.old.items ++ fill ∷ []) }
    ensures kept { length room.old.items ≤ length room.new.items }
{
    room.push(fill)?;
    Ok(())
}

/// Gives room back. It stands apart as [`grow`] does.
#[inline(never)]
fn let_go<T: Copy>(room: &mut Vec<T>)
    ensures { room.new.items ≡ [] }
{
    room.truncate(0);
    room.shrink_to_fit();
}
