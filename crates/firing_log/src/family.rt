//! Acts as a log keeps them: a kind, and a number where acts of the kind have one.
ghost use Rattle.std.specs.Prelude.{◌≡◌};
ghost use Rattle.firing_log.specs.Families.{act_of, family_of, has_number, has_serial};

use net_types::Act;

/// A kind of acts.
#[derive(Clone, Copy)]
pub(crate) enum Family {
    Go,
    From,
    Send,
    Alloc,
    Addr,
    Data,
    Exec,
    Reply,
    Retire,
    End,
}

impl Family {
    /// The kind of an act.
    #[inline(always)]
    pub(crate) fn of(act: Act) -> Family
        ensures { result ≡ family_of act }
    {
        match act {
            Act::Go => Family::Go,
            Act::From(_) => Family::From,
            Act::Send(_) => Family::Send,
            Act::Alloc(_) => Family::Alloc,
            Act::Addr(_) => Family::Addr,
            Act::Data(_) => Family::Data,
            Act::Exec(_) => Family::Exec,
            Act::Reply(_) => Family::Reply,
            Act::Retire => Family::Retire,
            Act::End => Family::End,
        }
    }

    /// Whether acts of this kind have a number below 2^32.
    #[inline(always)]
    pub(crate) fn has_number(self) -> bool
        ensures { result ≡ has_number self }
    {
        match self {
            Family::From
            | Family::Send
            | Family::Alloc
            | Family::Addr
            | Family::Data
            | Family::Reply => true,
            Family::Go | Family::Exec | Family::Retire | Family::End => false,
        }
    }

    /// Whether acts of this kind have a serial number.
    #[inline(always)]
    pub(crate) fn has_serial(self) -> bool
        ensures { result ≡ has_serial self }
    {
        match self {
            Family::Exec => true,
            Family::Go
            | Family::From
            | Family::Send
            | Family::Alloc
            | Family::Addr
            | Family::Data
            | Family::Reply
            | Family::Retire
            | Family::End => false,
        }
    }

    /// The act of this kind with the one of the two numbers that such acts have.
    pub(crate) fn act(self, number: u32, serial: u64) -> Act
        ensures { result ≡ act_of self number serial }
    {
        match self {
            Family::Go => Act::Go,
            Family::From => Act::From(number),
            Family::Send => Act::Send(number),
            Family::Alloc => Act::Alloc(number),
            Family::Addr => Act::Addr(number),
            Family::Data => Act::Data(number),
            Family::Exec => Act::Exec(serial),
            Family::Reply => Act::Reply(number),
            Family::Retire => Act::Retire,
            Family::End => Act::End,
        }
    }
}
