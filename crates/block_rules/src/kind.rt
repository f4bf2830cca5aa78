//! Operations on two patterns of one width as a kind and a width.
ghost use Rattle.std.specs.Prelude.{◌≡◌, ◌-◌, ◌^◌, ◌<◌};
ghost use Rattle.block_rules.specs.Kinds.{bits, word_of, kind_of, operation, negative_on, flip_on, zero_on, is_zero, is_comparison, commutes, is_unequal, is_division};

use ir::{Op1, Op2};

/// An operation on two patterns, whatever their width.
#[derive(Clone, Copy)]
pub(crate) enum Kind {
    Add,
    Sub,
    Mul,
    And,
    Or,
    Xor,
    Shl,
    Shru,
    Shrs,
    Divu,
    Remu,
    Divs,
    Rems,
    Eq,
    Ne,
    Ltu,
    Leu,
    Lts,
    Les,
}

/// The width of both operands of an operation on two patterns.
#[derive(Clone, Copy)]
pub(crate) enum Word {
    Word32,
    Word64,
}

impl Word {
    /// The word of 32 bits, and that of 64 for any other width.
    pub(crate) fn of(width: u32) -> Word
        ensures { result ≡ word_of width }
    {
        if width == 32 {
            Word::Word32
        } else {
            Word::Word64
        }
    }

    pub(crate) fn bits(self) -> u32
        ensures { result ≡ bits self }
    {
        match self {
            Word::Word32 => 32,
            Word::Word64 => 64,
        }
    }

    /// All bits set.
    pub(crate) fn ones(self) -> u64
        ensures { result ≡ 2 ^ bits self - 1 }
    {
        match self {
            Word::Word32 => u32::MAX as u64,
            Word::Word64 => u64::MAX,
        }
    }

    /// The number whose pattern has its sign bit alone.
    pub(crate) fn half(self) -> u64
        ensures { result ≡ 2 ^ (bits self - 1) }
    {
        match self {
            Word::Word32 => 1 << 31,
            Word::Word64 => 1 << 63,
        }
    }

    /// What a pattern above 0 lacks to the next power of two.
    pub(crate) fn opposite(self, pattern: u64) -> u64
        requires some { 0 < pattern }
        requires within { pattern < 2 ^ bits self }
        ensures { result ≡ 2 ^ bits self - pattern }
    {
        self.ones() - pattern + 1
    }

    /// The operation that gives the negative.
    pub(crate) fn negative(self) -> Op1
        ensures { result ≡ negative_on self }
    {
        match self {
            Word::Word32 => Op1::Neg32,
            Word::Word64 => Op1::Neg64,
        }
    }

    /// The operation that turns each bit.
    pub(crate) fn flip(self) -> Op1
        ensures { result ≡ flip_on self }
    {
        match self {
            Word::Word32 => Op1::Not32,
            Word::Word64 => Op1::Not64,
        }
    }

    /// The operation that tests for 0.
    pub(crate) fn zero(self) -> Op1
        ensures { result ≡ zero_on self }
    {
        match self {
            Word::Word32 => Op1::Zero32,
            Word::Word64 => Op1::Zero64,
        }
    }
}

/// Whether it tests for 0.
pub(crate) fn is_zero_test(op: Op1) -> bool
    ensures { result ≡ is_zero op }
{
    match op {
        Op1::Zero32 | Op1::Zero64 => true,
        Op1::Neg32
        | Op1::Neg64
        | Op1::Not32
        | Op1::Not64
        | Op1::S8to16
        | Op1::S8to32
        | Op1::S8to64
        | Op1::S16to32
        | Op1::S16to64
        | Op1::S32to64
        | Op1::U8to16
        | Op1::U8to32
        | Op1::U8to64
        | Op1::U16to32
        | Op1::U16to64
        | Op1::U32to64
        | Op1::Cut16to8
        | Op1::Cut32to8
        | Op1::Cut32to16
        | Op1::Cut64to8
        | Op1::Cut64to16
        | Op1::Cut64to32 => false,
    }
}

impl Kind {
    pub(crate) fn of(op: Op2) -> Kind
        ensures { result ≡ kind_of op }
    {
        match op {
            Op2::Add32 | Op2::Add64 => Kind::Add,
            Op2::Sub32 | Op2::Sub64 => Kind::Sub,
            Op2::Mul32 | Op2::Mul64 => Kind::Mul,
            Op2::And32 | Op2::And64 => Kind::And,
            Op2::Or32 | Op2::Or64 => Kind::Or,
            Op2::Xor32 | Op2::Xor64 => Kind::Xor,
            Op2::Shl32 | Op2::Shl64 => Kind::Shl,
            Op2::Shru32 | Op2::Shru64 => Kind::Shru,
            Op2::Shrs32 | Op2::Shrs64 => Kind::Shrs,
            Op2::Divu32 | Op2::Divu64 => Kind::Divu,
            Op2::Remu32 | Op2::Remu64 => Kind::Remu,
            Op2::Divs32 | Op2::Divs64 => Kind::Divs,
            Op2::Rems32 | Op2::Rems64 => Kind::Rems,
            Op2::Eq32 | Op2::Eq64 => Kind::Eq,
            Op2::Ne32 | Op2::Ne64 => Kind::Ne,
            Op2::Ltu32 | Op2::Ltu64 => Kind::Ltu,
            Op2::Leu32 | Op2::Leu64 => Kind::Leu,
            Op2::Lts32 | Op2::Lts64 => Kind::Lts,
            Op2::Les32 | Op2::Les64 => Kind::Les,
        }
    }

    /// The operation of the kind on patterns of that width.
    pub(crate) fn on(self, word: Word) -> Op2
        ensures { result ≡ operation self word }
    {
        match word {
            Word::Word32 => self.on_32(),
            Word::Word64 => self.on_64(),
        }
    }

    fn on_32(self) -> Op2
        ensures { result ≡ operation self Word.Word32 }
    {
        match self {
            Kind::Add => Op2::Add32,
            Kind::Sub => Op2::Sub32,
            Kind::Mul => Op2::Mul32,
            Kind::And => Op2::And32,
            Kind::Or => Op2::Or32,
            Kind::Xor => Op2::Xor32,
            Kind::Shl => Op2::Shl32,
            Kind::Shru => Op2::Shru32,
            Kind::Shrs => Op2::Shrs32,
            Kind::Divu => Op2::Divu32,
            Kind::Remu => Op2::Remu32,
            Kind::Divs => Op2::Divs32,
            Kind::Rems => Op2::Rems32,
            Kind::Eq => Op2::Eq32,
            Kind::Ne => Op2::Ne32,
            Kind::Ltu => Op2::Ltu32,
            Kind::Leu => Op2::Leu32,
            Kind::Lts => Op2::Lts32,
            Kind::Les => Op2::Les32,
        }
    }

    fn on_64(self) -> Op2
        ensures { result ≡ operation self Word.Word64 }
    {
        match self {
            Kind::Add => Op2::Add64,
            Kind::Sub => Op2::Sub64,
            Kind::Mul => Op2::Mul64,
            Kind::And => Op2::And64,
            Kind::Or => Op2::Or64,
            Kind::Xor => Op2::Xor64,
            Kind::Shl => Op2::Shl64,
            Kind::Shru => Op2::Shru64,
            Kind::Shrs => Op2::Shrs64,
            Kind::Divu => Op2::Divu64,
            Kind::Remu => Op2::Remu64,
            Kind::Divs => Op2::Divs64,
            Kind::Rems => Op2::Rems64,
            Kind::Eq => Op2::Eq64,
            Kind::Ne => Op2::Ne64,
            Kind::Ltu => Op2::Ltu64,
            Kind::Leu => Op2::Leu64,
            Kind::Lts => Op2::Lts64,
            Kind::Les => Op2::Les64,
        }
    }

    pub(crate) fn is_comparison(self) -> bool
        ensures { result ≡ is_comparison self }
    {
        match self {
            Kind::Eq | Kind::Ne | Kind::Ltu | Kind::Leu | Kind::Lts | Kind::Les => true,
            Kind::Add
            | Kind::Sub
            | Kind::Mul
            | Kind::And
            | Kind::Or
            | Kind::Xor
            | Kind::Shl
            | Kind::Shru
            | Kind::Shrs
            | Kind::Divu
            | Kind::Remu
            | Kind::Divs
            | Kind::Rems => false,
        }
    }

    /// Whether its operands may be swapped.
    pub(crate) fn commutes(self) -> bool
        ensures { result ≡ commutes self }
    {
        match self {
            Kind::Add | Kind::Mul | Kind::And | Kind::Or | Kind::Xor | Kind::Eq | Kind::Ne => true,
            Kind::Sub
            | Kind::Shl
            | Kind::Shru
            | Kind::Shrs
            | Kind::Divu
            | Kind::Remu
            | Kind::Divs
            | Kind::Rems
            | Kind::Ltu
            | Kind::Leu
            | Kind::Lts
            | Kind::Les => false,
        }
    }

    pub(crate) fn is_unequal(self) -> bool
        ensures { result ≡ is_unequal self }
    {
        match self {
            Kind::Ne => true,
            Kind::Add
            | Kind::Sub
            | Kind::Mul
            | Kind::And
            | Kind::Or
            | Kind::Xor
            | Kind::Shl
            | Kind::Shru
            | Kind::Shrs
            | Kind::Divu
            | Kind::Remu
            | Kind::Divs
            | Kind::Rems
            | Kind::Eq
            | Kind::Ltu
            | Kind::Leu
            | Kind::Lts
            | Kind::Les => false,
        }
    }

    pub(crate) fn is_division(self) -> bool
        ensures { result ≡ is_division self }
    {
        match self {
            Kind::Divu | Kind::Remu | Kind::Divs | Kind::Rems => true,
            Kind::Add
            | Kind::Sub
            | Kind::Mul
            | Kind::And
            | Kind::Or
            | Kind::Xor
            | Kind::Shl
            | Kind::Shru
            | Kind::Shrs
            | Kind::Eq
            | Kind::Ne
            | Kind::Ltu
            | Kind::Leu
            | Kind::Lts
            | Kind::Les => false,
        }
    }
}
