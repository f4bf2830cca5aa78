//! Lists of channels, of which the next that is not empty is found in a few steps.

ghost use Rattle.std.specs.Prelude.{◌≡◌, ◌≢◌, ◌*◌, ◌<◌, ◌≤◌, ◌^◌, ◌++◌, ◌∷◌, ℕ, [], IfOk, OnOk, get_or, length, set};
ghost use Rattle.lsq_core.specs.Bits.{IsSet};
ghost use Rattle.cycle_engine.specs.private.Lists.{HasNone, IsNextList, few_lists, lists_of};

use crate::stack::Stack;
use lsq_core::Bits;
use net_types::Memory;
use std::alloc::Global;
use std::marker::Model;

/// How many items there may be room for in a list that has none, so that lists of many items one after another take no more memory
/// than those of the cycles to come need.
const KEPT_ROOM: usize = 1024;

/// So many lists are looked at one by one: to note which are not empty would cost more.
const FEW: usize = 16;

/// How many lists a word of bits tells of.
const WORD: u64 = 64;

/// A row of lists of channels.
#[derive(Drop)]
pub(crate) struct Cells {
    lists: Vec<Stack<u32>>,
    /// The places of lists that may not be empty, where there are more lists than few.
    filled: Bits,
}

impl Model for Cells {
    ghost use Rattle.std.specs.Prelude.{ℕ, List};
    ghost use Rattle.std.specs.Coded.{coded_list, coded_ℕ};
    ghost use Rattle.cycle_engine.specs.private.Lists.{AreShown, lists_of};

    ghost Value = { List (List ℕ) };

    ghost coded = { coded_list (coded_list coded_ℕ) };

    ghost view = { λ c. lists_of c.lists.items };

    ghost invariant = { λ c. AreShown c.filled (lists_of c.lists.items) };
}

/// How many words of bits there are for so many lists.
fn words(count: u64) -> usize
    requires { count ≤ 2 ^ 32 }
    ensures { few_lists < count → count ≤ 64 * result }
{
    if count > FEW as u64 {
        count.div_ceil(WORD) as usize
    } else {
        0
    }
}

impl Cells {
    /// So many empty lists.
    ///
    /// # Errors
    ///
    /// [`Memory`] where memory is wanting.
    pub(crate) fn new(alloc: Global, count: u64) -> Result<Cells, Memory>
        requires { count ≤ 2 ^ 32 }
        ensures { IfOk result (λ c. length c ≡ count) }
    {
        Ok(Cells {
            lists: empty_lists(alloc, count)?,
            filled: Bits::new(alloc, words(count))?,
        })
    }

    /// How many lists there are.
    #[inline(always)]
    pub(crate) fn len(&self) -> usize
        ensures count { result ≡ length self.now }
        ensures small { result ≤ 2 ^ 32 }
    {
        self.lists.len()
    }

    /// The channels in the list of a place.
    pub(crate) fn at(&self, place: usize) -> &[u32]
        requires { place < length self.now }
        ensures { result.now ≡ get_or self.now place [] }
    {
        self.lists[place].as_slice()
    }

    /// Adds a channel to the list of a place.
    ///
    /// # Errors
    ///
    /// [`Memory`] where memory is wanting.
    #[inline(always)]
    pub(crate) fn add(&mut self, place: usize, chan: u32) -> Result<(), Memory>
        requires { place < length self.old }
        ensures { OnOk result
            (self.new ≡ set self.old place (get_or self.old place [] ++ chan ∷ [])) }
    {
        if self.lists.len() > FEW {
            note(&mut self.filled, place, true);
        }
        add_at(&mut self.lists, place, chan)
    }

    /// Empties the list of a place.
    pub(crate) fn clear(&mut self, place: usize)
        requires { place < length self.old }
        ensures { self.new ≡ set self.old place [] }
    {
        clear_at(&mut self.lists, place);
        if self.lists.len() > FEW {
            note(&mut self.filled, place, false);
        }
    }

    /// The least place from one on, and below the other, whose list may not be empty; the other where there is none.
    pub(crate) fn next(&self, from: usize, to: usize) -> usize
        requires order { from ≤ to }
        requires within { to ≤ length self.now }
        ensures { IsNextList self.now from to result }
    {
        if self.lists.len() > FEW {
            self.filled.next(from, to)
        } else {
            self.next_of_few(from, to)
        }
    }

    /// As [`Cells::next`], list by list.
    fn next_of_few(&self, from: usize, to: usize) -> usize
        requires order { from ≤ to }
        requires within { to ≤ length self.now }
        ensures { IsNextList self.now from to result }
    {
        for place in from..to {
            if self.lists[place].len() > 0 {
                return place;
            }
        }
        to
    }
}

/// Notes whether the list of a place may not be empty. It stands apart so that what adds to one of few lists stays small.
#[inline(never)]
fn note(filled: &mut Bits, place: usize, within: bool)
    requires { place < 64 * length filled.old }
    ensures { IsSet place within filled.old filled.new }
{
    filled.set(place, within);
}

/// So many empty lists.
///
/// # Errors
///
/// [`Memory`] where memory is wanting.
fn empty_lists(alloc: Global, count: u64) -> Result<Vec<Stack<u32>>, Memory>
    requires { count ≤ 2 ^ 32 }
    ensures long { IfOk result (λ lists. length lists.items ≡ count) }
    ensures none { IfOk result (λ lists. HasNone (lists_of lists.items)) }
{
    let mut lists = Vec::with_capacity(alloc, count as usize)?;
    for _ in 0..count {
        lists.push(Stack::new(alloc, 0))?;
    }
    Ok(lists)
}

/// Adds a channel to the list of a place.
///
/// # Errors
///
/// [`Memory`] where memory is wanting.
#[inline(always)]
fn add_at(lists: &mut Vec<Stack<u32>>, at: usize, chan: u32) -> Result<(), Memory>
    requires { at < length lists.old.items }
    ensures added { OnOk result (lists_of lists.new.items
        ≡ set (lists_of lists.old.items) at (get_or (lists_of lists.old.items) at [] ++ chan ∷ [])) }
    ensures long { length (lists_of lists.new.items) ≡ length (lists_of lists.old.items) }
    ensures others { (k : ℕ) → k ≢ at
        → get_or (lists_of lists.new.items) k [] ≡ get_or (lists_of lists.old.items) k [] }
{
    lists[at].push(chan)?;
    Ok(())
}

/// Empties the list of a place.
#[inline(always)]
fn clear_at(lists: &mut Vec<Stack<u32>>, at: usize)
    requires { at < length lists.old.items }
    ensures { lists_of lists.new.items ≡ set (lists_of lists.old.items) at [] }
{
    lists[at].clear_to(KEPT_ROOM);
}
