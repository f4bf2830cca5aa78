//! A log of firings with their stamps, as it grows.
ghost use Rattle.std.specs.Prelude.{◌≡◌, ◌≤◌, ◌+◌, ◌<◌, [], ◌∷◌, ◌++◌, cond, suc, IfOk, IsFalse};
ghost use Rattle.firing_log.specs.Families.{numbers_of, serials_of};

use crate::entries::Entries;
use crate::family::Family;
use el_base::Log;
use net_types::{Act, Firing, Memory};
use std::alloc::Global;
use std::marker::Model;
use std::mem::size_of;

/// The bytes of each entry, without the numbers and stamps beside it.
const MADE_BYTES: usize = 8;

const _: () = prove!(size_of::<Made>() == MADE_BYTES);

/// A firing as a log keeps it: its unit and the kind of its act. The numbers stand beside it.
#[derive(Clone, Copy)]
pub(crate) struct Made {
    pub(crate) unit: u32,
    pub(crate) family: Family,
    /// Whether its stamp is kept; where it is not, it is the stamp before and one.
    pub(crate) jumps: bool,
}

/// A log of firings with their stamps, with room taken before.
///
/// An entry takes 8 bytes, 4 more where its act has a number or 8 more where it has a serial number, and 8 more where its stamp
/// isn't the one after the stamp before it.
#[derive(Drop)]
pub struct FiringLog {
    made: Log<Made>,
    numbers: Log<u32>,
    serials: Log<u64>,
    stamps: Log<u64>,
    /// The stamp of the newest entry, 0 where there is none.
    last: u64,
}

impl Model for FiringLog {
    ghost use Rattle.el_base.specs.Logs.{Logged};
    ghost use Rattle.firing_log.specs.Kept.{shown_by, IsKept};
    ghost use Rattle.firing_log.specs.declared.entry.Entry.{Entry};

    ghost Value = { Logged Entry };

    ghost view = { shown_by };

    ghost invariant = { IsKept };
}

/// Whether a stamp is other than the one after a stamp.
fn jumps(before: u64, stamp: u64) -> bool
    ensures { IsFalse result → stamp ≡ suc before }
{
    stamp == 0 || stamp - 1 != before
}

/// Adds an item where it is wanted.
fn add_if(log: &mut Log<u64>, item: u64, wanted: bool)
    requires { 0 < log.old.room }
    ensures items { log.new.items ≡ log.old.items ++ cond wanted (item ∷ []) [] }
    ensures room { log.old.room ≤ log.new.room + 1 }
{
    if wanted {
        log.add(item);
    }
}

/// Adds the number of an act where it has one.
fn add_numbers(numbers: &mut Log<u32>, serials: &mut Log<u64>, act: Act)
    requires numbers { 0 < numbers.old.room }
    requires serials { 0 < serials.old.room }
    ensures numbers { numbers.new.items ≡ numbers.old.items ++ numbers_of act }
    ensures serials { serials.new.items ≡ serials.old.items ++ serials_of act }
    ensures number_room { numbers.old.room ≤ numbers.new.room + 1 }
    ensures serial_room { serials.old.room ≤ serials.new.room + 1 }
{
    match act {
        Act::From(number)
        | Act::Send(number)
        | Act::Alloc(number)
        | Act::Addr(number)
        | Act::Data(number)
        | Act::Reply(number) => numbers.add(number),
        Act::Exec(serial) => serials.add(serial),
        Act::Go | Act::Retire | Act::End => {}
    }
}

impl FiringLog {
    /// No entries, and room for so many.
    ///
    /// # Errors
    ///
    /// [`Memory`] where memory is wanting.
    pub fn with_room(alloc: Global, room: u64) -> Result<FiringLog, Memory>
        ensures items { IfOk result (λ log. log.items ≡ []) }
        ensures room { IfOk result (λ log. log.room ≡ room) }
    {
        Ok(FiringLog {
            made: Log::with_room(alloc, room)?,
            numbers: Log::with_room(alloc, room)?,
            serials: Log::with_room(alloc, room)?,
            stamps: Log::with_room(alloc, room)?,
            last: 0,
        })
    }

    /// Adds a firing with its stamp at the end, where there is room. Takes no memory.
    #[inline(always)]
    pub fn add(&mut self, stamp: u64, firing: Firing)
        requires { 0 < self.old.room }
        ensures items { self.new.items
            ≡ self.old.items ++ record { stamp = stamp; firing = firing } ∷ [] }
        ensures room { self.new.room + 1 ≡ self.old.room }
    {
        let jumps = jumps(self.last, stamp);
        let family = Family::of(firing.act);
        add_numbers(&mut self.numbers, &mut self.serials, firing.act);
        add_if(&mut self.stamps, stamp, jumps);
        self.made.add(Made {
            unit: firing.unit,
            family,
            jumps,
        });
        self.last = stamp;
    }

    /// How many entries more there is room for.
    pub fn room(&self) -> u64
        ensures { result ≡ self.now.room }
    {
        self.made.room()
    }

    /// The entries, oldest first.
    pub fn entries(&self) -> Entries<'_>
        ensures { result ≡ self.now.items }
    {
        Entries {
            made: self.made.as_slice(),
            numbers: self.numbers.as_slice(),
            serials: self.serials.as_slice(),
            stamps: self.stamps.as_slice(),
            before: 0,
        }
    }
}
