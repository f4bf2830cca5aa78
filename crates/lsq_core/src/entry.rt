//! Entries of a queue.

ghost use Rattle.std.specs.Prelude.{◌≡◌, not};
ghost use Rattle.lsq_core.specs.Index.{clear};
ghost use Rattle.lsq_core.specs.Acts.{ready, lets, known, waiting, same, spent, fresh_entry, or_zero};
ghost use Rattle.lsq_core.specs.Wants.{wanted, asks, changed_by};
ghost use Rattle.lsq_core.specs.declared.entry.Entry.{Entry as EntryValue};

/// An access that was allocated and has not retired.
///
/// Entries are numbered in order of allocation by `serial`; an entry is older than another where its number is
/// lower. `store` tells whether its port is a store port. A load that is `done` has read `value`.
#[derive(Clone, Copy)]
pub struct Entry {
    pub serial: u64,
    pub port: u32,
    pub store: bool,
    pub done: bool,
    pub replied: bool,
    pub addr: Option<u64>,
    pub datum: Option<u64>,
    pub value: u64,
}

/// What an act asks of the entry that it changes.
#[derive(Clone, Copy)]
pub(crate) enum Want {
    /// It is of this port and waits for its address.
    Addr(u32),
    /// It is of this store port and waits for its data.
    Data(u32),
    /// It is of this load port and has not replied.
    Reply(u32),
    /// It has this serial number.
    Serial(u64),
}

/// The acts of a queue at its ports.
#[derive(Clone, Copy)]
pub(crate) enum PortAct {
    /// An entry gets its address.
    Addr,
    /// An entry of a store gets its data.
    Data,
    /// An executed load is answered.
    Reply,
}

/// What an act makes of the entry that it changes.
#[derive(Clone, Copy)]
pub(crate) enum Made {
    /// It has this address.
    Addr(u64),
    /// It has these data.
    Datum(u64),
    /// It is executed, and read this value.
    Done(u64),
    /// It has replied.
    Replied,
}

impl PortAct {
    /// What the act asks of the entry that it changes, at a port.
    fn at(self, port: u32) -> Want
        ensures { (x : EntryValue) → wanted result x ≡ asks self port x }
    {
        match self {
            PortAct::Addr => Want::Addr(port),
            PortAct::Data => Want::Data(port),
            PortAct::Reply => Want::Reply(port),
        }
    }
}

impl Entry {
    /// A new entry of a port.
    #[inline(always)]
    pub(crate) fn fresh(serial: u64, port: u32, store: bool) -> Entry
        ensures { result ≡ fresh_entry serial port store }
    {
        Entry {
            serial,
            port,
            store,
            addr: None,
            datum: None,
            done: false,
            value: 0,
            replied: false,
        }
    }

    /// Whether it is what an act asks for.
    pub(crate) fn meets(&self, want: Want) -> bool
        ensures { result ≡ wanted want self.now }
    {
        match want {
            Want::Addr(port) => self.port == port && self.addr.is_none(),
            Want::Data(port) => self.port == port && self.store && self.datum.is_none(),
            Want::Reply(port) => self.port == port && !self.store && !self.replied,
            Want::Serial(serial) => self.serial == serial,
        }
    }

    /// Whether an act at its port asks for an entry such as this.
    pub(crate) fn is_asked(&self, act: PortAct) -> bool
        ensures { result ≡ asks act self.now.port self.now }
    {
        self.meets(act.at(self.port))
    }

    /// Whether it has what it needs to execute, and has not.
    #[inline(always)]
    pub(crate) fn is_ready(&self) -> bool
        ensures { result ≡ ready self.now }
    {
        !self.done && self.addr.is_some() && (!self.store || self.datum.is_some())
    }

    /// Whether this entry lets a store execute.
    pub(crate) fn lets(&self, other: &Entry) -> bool
        ensures { result ≡ lets other.now self.now }
    {
        if self.serial >= other.serial {
            return true;
        }
        if !self.store && !other.store {
            return true;
        }
        self.addr.is_some() && (self.done || !self.has_address_of(other))
    }

    /// Whether it is no older store of unknown address than a load.
    pub(crate) fn is_known_to(&self, load: &Entry) -> bool
        ensures { result ≡ known load.now self.now }
    {
        self.serial >= load.serial || !self.store || self.addr.is_some()
    }

    /// Whether it is an older store of a load's address that is not executed.
    pub(crate) fn waits_before(&self, load: &Entry) -> bool
        ensures { result ≡ waiting load.now self.now }
    {
        self.serial < load.serial && self.store && self.has_address_of(load) && !self.done
    }

    /// Whether it is an older entry of a side that has an entry's address and is not executed.
    pub(crate) fn is_in_way(&self, side: bool, entry: &Entry) -> bool
        ensures { result ≡ not (clear side entry.now self.now) }
    {
        self.serial < entry.serial
            && self.store == side
            && self.addr.is_some()
            && !self.done
            && self.has_address_of(entry)
    }

    /// Whether both addresses are known and equal.
    #[inline(always)]
    pub(crate) fn has_address_of(&self, other: &Entry) -> bool
        ensures { result ≡ same self.now.addr other.now.addr }
    {
        match (self.addr, other.addr) {
            (Some(own), Some(addr)) => own == addr,
            (Some(_), None) => false,
            (None, _) => false,
        }
    }

    /// Its address, or 0.
    pub(crate) fn address(&self) -> u64
        ensures { result ≡ or_zero self.now.addr }
    {
        match self.addr {
            None => 0,
            Some(addr) => addr,
        }
    }

    /// Whether nothing is left to do for it.
    pub(crate) fn is_spent(&self) -> bool
        ensures { result ≡ spent self.now }
    {
        self.done && (self.store || self.replied)
    }

    /// Makes it another.
    #[inline(always)]
    pub(crate) fn alter(&mut self, made: Made)
        ensures { self.new ≡ changed_by made self.old }
    {
        match made {
            Made::Addr(addr) => self.addr = Some(addr),
            Made::Datum(datum) => self.datum = Some(datum),
            Made::Done(value) => {
                self.done = true;
                self.value = value;
            }
            Made::Replied => self.replied = true,
        }
    }

    /// The entry with a change.
    #[inline(always)]
    pub(crate) fn with(self, made: Made) -> Entry
        ensures { result ≡ changed_by made self }
    {
        match made {
            Made::Addr(addr) => Entry {
                addr: Some(addr),
                ..self
            },
            Made::Datum(datum) => Entry {
                datum: Some(datum),
                ..self
            },
            Made::Done(value) => Entry {
                done: true,
                value,
                ..self
            },
            Made::Replied => Entry {
                replied: true,
                ..self
            },
        }
    }
}
