ghost use Rattle.std.specs.Prelude.{◌≡◌};
ghost use Rattle.buffer_place.specs.Timings.{IsTiming, class_delay, class_of, op2_class, usual};

use el_base::Op2;
use net_types::Unit;

/// How many cycles a token waits on a channel, by the class of the unit that puts it, and the slots of each channel.
#[derive(Clone, Copy, PartialEq, Eq)]
pub struct Timing {
    pub logic: u32,
    pub mul: u32,
    pub div: u32,
    pub read: u32,
    /// 1 and more.
    pub lsq: u32,
    /// The tokens that a channel holds, 1 and more.
    pub slots: u32,
    /// How many units, of those that work or choose, may stand in a row without a delay between them, 1 and more. `None`
    /// where channels get a delay for the cycles on which they lie alone.
    pub depth: Option<u32>,
}

/// The units that take time, by what they do.
#[derive(Clone, Copy, PartialEq, Eq)]
pub enum Class {
    /// All operations that are no multiplications and no divisions, and selects.
    Logic,
    Mul,
    /// Divisions and remainders.
    Div,
    /// Reads of an array that no queue writes.
    Read,
    /// Queues.
    Lsq,
}

impl Timing {
    /// The timing where nothing is asked: 4 cycles for a multiplication, 36 for a division, 2 for a read and 1 for a queue,
    /// 0 for all else, two slots, and no depth.
    pub fn usual() -> Timing
        ensures value { result ≡ usual }
        ensures within { IsTiming result }
    {
        Timing {
            logic: 0,
            mul: 4,
            div: 36,
            read: 2,
            lsq: 1,
            slots: 2,
            depth: None,
        }
    }

    /// The delay, in cycles, of the channels out of a unit of the class.
    pub fn delay(&self, class: Option<Class>) -> u32
        ensures { result ≡ class_delay self.now class }
    {
        match class {
            None => 0,
            Some(Class::Logic) => self.logic,
            Some(Class::Mul) => self.mul,
            Some(Class::Div) => self.div,
            Some(Class::Read) => self.read,
            Some(Class::Lsq) => self.lsq,
        }
    }
}

/// The class of a unit; none of one that only steers tokens.
pub fn class_of(unit: &Unit) -> Option<Class>
    ensures { result ≡ class_of unit.now }
{
    match unit {
        Unit::Op1(_) | Unit::Select { .. } => Some(Class::Logic),
        Unit::Op2(op) => Some(op2_class(*op)),
        Unit::Read(_) => Some(Class::Read),
        Unit::Lsq { .. } => Some(Class::Lsq),
        Unit::Entry
        | Unit::Param(_)
        | Unit::Const { .. }
        | Unit::Fork { .. }
        | Unit::Mux { .. }
        | Unit::Cmerge { .. }
        | Unit::Branch { .. }
        | Unit::Sink { .. }
        | Unit::Exit => None,
    }
}

fn op2_class(op: Op2) -> Class
    ensures { result ≡ op2_class op }
{
    match op {
        Op2::Mul32 | Op2::Mul64 => Class::Mul,
        Op2::Divu32
        | Op2::Divu64
        | Op2::Remu32
        | Op2::Remu64
        | Op2::Divs32
        | Op2::Divs64
        | Op2::Rems32
        | Op2::Rems64 => Class::Div,
        Op2::Add32
        | Op2::Add64
        | Op2::Sub32
        | Op2::Sub64
        | Op2::And32
        | Op2::And64
        | Op2::Or32
        | Op2::Or64
        | Op2::Xor32
        | Op2::Xor64
        | Op2::Shl32
        | Op2::Shl64
        | Op2::Shru32
        | Op2::Shru64
        | Op2::Shrs32
        | Op2::Shrs64
        | Op2::Eq32
        | Op2::Eq64
        | Op2::Ne32
        | Op2::Ne64
        | Op2::Ltu32
        | Op2::Ltu64
        | Op2::Leu32
        | Op2::Leu64
        | Op2::Lts32
        | Op2::Lts64
        | Op2::Les32
        | Op2::Les64 => Class::Logic,
    }
}
