//! The entries of a log, read in order.
ghost use Rattle.std.specs.Prelude.{◌≡◌, length};
ghost use Rattle.std.specs.List.{slice_get};
ghost use Rattle.firing_log.specs.Made.{past_if};

use crate::entry::Entry;
use crate::firing_log::Made;
use net_types::Firing;
use std::marker::Model;

/// The entries of a log that are left to read, oldest first.
#[derive(Drop)]
pub struct Entries<'a> {
    pub(crate) made: &'a [Made],
    /// The numbers, serial numbers and stamps that the entries left need.
    pub(crate) numbers: &'a [u32],
    pub(crate) serials: &'a [u64],
    pub(crate) stamps: &'a [u64],
    /// The stamp of the entry before, 0 at first.
    pub(crate) before: u64,
}

impl<'a> Model for Entries<'a> {
    ghost use Rattle.std.specs.Prelude.{List};
    ghost use Rattle.firing_log.specs.Made.{entries_of, HaveStamps};
    ghost use Rattle.firing_log.specs.declared.entry.Entry.{Entry};

    ghost Value = { List Entry };

    ghost view = { λ es. entries_of es.before es.made.now es.numbers.now es.serials.now
        es.stamps.now };

    ghost invariant = { λ es. HaveStamps (entries_of es.before es.made.now es.numbers.now
        es.serials.now es.stamps.now) };
}

/// The items, without the first where it was used.
fn past_if<T>(items: &[T], used: bool) -> &[T]
    ensures { result.now ≡ past_if used items.now }
{
    if !used {
        return items;
    }
    items.get(1..).unwrap_or(&[])
}

impl<'a> Entries<'a> {
    /// The first entry that is left; `None` where none is.
    pub fn first(&self) -> Option<Entry>
        ensures { result ≡ slice_get self.now 0 }
    {
        let made = self.made.first()?;
        let stamp = if made.jumps {
            self.stamps.first().copied().unwrap_or(0)
        } else {
            self.before + 1
        };
        let number = self.numbers.first().copied().unwrap_or(0);
        let serial = self.serials.first().copied().unwrap_or(0);
        let act = made.family.act(number, serial);
        let firing = Firing {
            unit: made.unit,
            act,
        };
        Some(Entry { stamp, firing })
    }

    /// How many entries are left.
    pub fn len(&self) -> usize
        ensures { result ≡ length self.now }
    {
        self.made.len()
    }
}

impl<'a> Default for Entries<'a> {
    ghost use Rattle.std.specs.Prelude.{◌≡◌, []};

    ghost is_default = { λ es. es ≡ [] };

    fn default() -> Entries<'a> {
        Entries {
            made: &[],
            numbers: &[],
            serials: &[],
            stamps: &[],
            before: 0,
        }
    }
}

impl<'a> Iterator for Entries<'a> {
    ghost use Rattle.std.specs.Iterator.{YieldsFirst, item_count};

    type Item = Entry;

    ghost next_gives = { YieldsFirst (λ s. s) };

    ghost remaining = { item_count (λ s. s) };

    fn next(&mut self) -> Option<Entry> {
        let entry = self.first()?;
        let made = *self.made.first()?;
        self.made = past_if(self.made, true);
        self.numbers = past_if(self.numbers, made.family.has_number());
        self.serials = past_if(self.serials, made.family.has_serial());
        self.stamps = past_if(self.stamps, made.jumps);
        self.before = entry.stamp;
        Some(entry)
    }
}
