ghost use Rattle.std.specs.Prelude.{◌≡◌, IfSome};
ghost use Rattle.el_base.specs.declared.operation.Op1.{Op1};
ghost use Rattle.el_base.specs.declared.operation.Op2.{Op2};
ghost use Rattle.el_base.specs.Widths.{op1_in, op1_out, op2_in, op2_out};
ghost use Rattle.el_base.specs.Names.{op1_name, op2_name};

/// An operation on one pattern, named as in a net text: the operand's width, then the result's.
#[derive(Clone, Copy, Debug, PartialEq, Eq, Hash)]
pub enum Op1 {
    Neg32,
    Neg64,
    Not32,
    Not64,
    Zero32,
    Zero64,
    S8to16,
    S8to32,
    S8to64,
    S16to32,
    S16to64,
    S32to64,
    U8to16,
    U8to32,
    U8to64,
    U16to32,
    U16to64,
    U32to64,
    Cut16to8,
    Cut32to8,
    Cut32to16,
    Cut64to8,
    Cut64to16,
    Cut64to32,
}

/// All operations on one pattern.
const OP1S: [Op1; 24] = [
    Op1::Neg32,
    Op1::Neg64,
    Op1::Not32,
    Op1::Not64,
    Op1::Zero32,
    Op1::Zero64,
    Op1::S8to16,
    Op1::S8to32,
    Op1::S8to64,
    Op1::S16to32,
    Op1::S16to64,
    Op1::S32to64,
    Op1::U8to16,
    Op1::U8to32,
    Op1::U8to64,
    Op1::U16to32,
    Op1::U16to64,
    Op1::U32to64,
    Op1::Cut16to8,
    Op1::Cut32to8,
    Op1::Cut32to16,
    Op1::Cut64to8,
    Op1::Cut64to16,
    Op1::Cut64to32,
];

impl Op1 {
    /// The width of the operand, in bits.
    pub fn operand_width(self) -> u32
        ensures { result ≡ op1_in self }
    {
        match self {
            Op1::Neg32
            | Op1::Not32
            | Op1::Zero32
            | Op1::S32to64
            | Op1::U32to64
            | Op1::Cut32to8
            | Op1::Cut32to16 => 32,
            Op1::Neg64
            | Op1::Not64
            | Op1::Zero64
            | Op1::Cut64to8
            | Op1::Cut64to16
            | Op1::Cut64to32 => 64,
            Op1::S8to16 | Op1::S8to32 | Op1::S8to64 | Op1::U8to16 | Op1::U8to32 | Op1::U8to64 => 8,
            Op1::S16to32 | Op1::S16to64 | Op1::U16to32 | Op1::U16to64 | Op1::Cut16to8 => 16,
        }
    }

    /// The width of the result, in bits.
    pub fn result_width(self) -> u32
        ensures { result ≡ op1_out self }
    {
        match self {
            Op1::Neg32
            | Op1::Not32
            | Op1::Zero32
            | Op1::Zero64
            | Op1::S8to32
            | Op1::S16to32
            | Op1::U8to32
            | Op1::U16to32
            | Op1::Cut64to32 => 32,
            Op1::Neg64
            | Op1::Not64
            | Op1::S8to64
            | Op1::S16to64
            | Op1::S32to64
            | Op1::U8to64
            | Op1::U16to64
            | Op1::U32to64 => 64,
            Op1::S8to16 | Op1::U8to16 | Op1::Cut32to16 | Op1::Cut64to16 => 16,
            Op1::Cut16to8 | Op1::Cut32to8 | Op1::Cut64to8 => 8,
        }
    }

    /// The operation's word in a net text.
    pub fn name(self) -> &'static str
        ensures { result.now ≡ op1_name self }
    {
        match self {
            Op1::Neg32 => "neg32",
            Op1::Neg64 => "neg64",
            Op1::Not32 => "not32",
            Op1::Not64 => "not64",
            Op1::Zero32 => "zero32",
            Op1::Zero64 => "zero64",
            Op1::S8to16 => "s8to16",
            Op1::S8to32 => "s8to32",
            Op1::S8to64 => "s8to64",
            Op1::S16to32 => "s16to32",
            Op1::S16to64 => "s16to64",
            Op1::S32to64 => "s32to64",
            Op1::U8to16 => "u8to16",
            Op1::U8to32 => "u8to32",
            Op1::U8to64 => "u8to64",
            Op1::U16to32 => "u16to32",
            Op1::U16to64 => "u16to64",
            Op1::U32to64 => "u32to64",
            Op1::Cut16to8 => "cut16to8",
            Op1::Cut32to8 => "cut32to8",
            Op1::Cut32to16 => "cut32to16",
            Op1::Cut64to8 => "cut64to8",
            Op1::Cut64to16 => "cut64to16",
            Op1::Cut64to32 => "cut64to32",
        }
    }

    /// The operation of that word; `None` where none has it.
    pub fn of_name(bytes: &[u8]) -> Option<Op1>
        ensures named { IfSome result (λ op. op1_name op ≡ bytes.now) }
        ensures every { (op : Op1) → op1_name op ≡ bytes.now → result ≡ Some op }
    {
        for op in OP1S {
            if op.name().as_bytes() == bytes {
                return Some(op);
            }
        }
        None
    }
}

/// An operation on two patterns of one width, named as in a net text.
#[derive(Clone, Copy, Debug, PartialEq, Eq, Hash)]
pub enum Op2 {
    Add32,
    Add64,
    Sub32,
    Sub64,
    Mul32,
    Mul64,
    And32,
    And64,
    Or32,
    Or64,
    Xor32,
    Xor64,
    Shl32,
    Shl64,
    Shru32,
    Shru64,
    Shrs32,
    Shrs64,
    Divu32,
    Divu64,
    Remu32,
    Remu64,
    Divs32,
    Divs64,
    Rems32,
    Rems64,
    Eq32,
    Eq64,
    Ne32,
    Ne64,
    Ltu32,
    Ltu64,
    Leu32,
    Leu64,
    Lts32,
    Lts64,
    Les32,
    Les64,
}

/// All operations on two patterns.
const OP2S: [Op2; 38] = [
    Op2::Add32,
    Op2::Add64,
    Op2::Sub32,
    Op2::Sub64,
    Op2::Mul32,
    Op2::Mul64,
    Op2::And32,
    Op2::And64,
    Op2::Or32,
    Op2::Or64,
    Op2::Xor32,
    Op2::Xor64,
    Op2::Shl32,
    Op2::Shl64,
    Op2::Shru32,
    Op2::Shru64,
    Op2::Shrs32,
    Op2::Shrs64,
    Op2::Divu32,
    Op2::Divu64,
    Op2::Remu32,
    Op2::Remu64,
    Op2::Divs32,
    Op2::Divs64,
    Op2::Rems32,
    Op2::Rems64,
    Op2::Eq32,
    Op2::Eq64,
    Op2::Ne32,
    Op2::Ne64,
    Op2::Ltu32,
    Op2::Ltu64,
    Op2::Leu32,
    Op2::Leu64,
    Op2::Lts32,
    Op2::Lts64,
    Op2::Les32,
    Op2::Les64,
];

impl Op2 {
    /// The width of both operands, in bits.
    pub fn operand_width(self) -> u32
        ensures { result ≡ op2_in self }
    {
        match self {
            Op2::Add32
            | Op2::Sub32
            | Op2::Mul32
            | Op2::And32
            | Op2::Or32
            | Op2::Xor32
            | Op2::Shl32
            | Op2::Shru32
            | Op2::Shrs32
            | Op2::Divu32
            | Op2::Remu32
            | Op2::Divs32
            | Op2::Rems32
            | Op2::Eq32
            | Op2::Ne32
            | Op2::Ltu32
            | Op2::Leu32
            | Op2::Lts32
            | Op2::Les32 => 32,
            Op2::Add64
            | Op2::Sub64
            | Op2::Mul64
            | Op2::And64
            | Op2::Or64
            | Op2::Xor64
            | Op2::Shl64
            | Op2::Shru64
            | Op2::Shrs64
            | Op2::Divu64
            | Op2::Remu64
            | Op2::Divs64
            | Op2::Rems64
            | Op2::Eq64
            | Op2::Ne64
            | Op2::Ltu64
            | Op2::Leu64
            | Op2::Lts64
            | Op2::Les64 => 64,
        }
    }

    /// The width of the result, in bits: 32 for a comparison.
    pub fn result_width(self) -> u32
        ensures { result ≡ op2_out self }
    {
        match self {
            Op2::Add32
            | Op2::Sub32
            | Op2::Mul32
            | Op2::And32
            | Op2::Or32
            | Op2::Xor32
            | Op2::Shl32
            | Op2::Shru32
            | Op2::Shrs32
            | Op2::Divu32
            | Op2::Remu32
            | Op2::Divs32
            | Op2::Rems32
            | Op2::Eq32
            | Op2::Eq64
            | Op2::Ne32
            | Op2::Ne64
            | Op2::Ltu32
            | Op2::Ltu64
            | Op2::Leu32
            | Op2::Leu64
            | Op2::Lts32
            | Op2::Lts64
            | Op2::Les32
            | Op2::Les64 => 32,
            Op2::Add64
            | Op2::Sub64
            | Op2::Mul64
            | Op2::And64
            | Op2::Or64
            | Op2::Xor64
            | Op2::Shl64
            | Op2::Shru64
            | Op2::Shrs64
            | Op2::Divu64
            | Op2::Remu64
            | Op2::Divs64
            | Op2::Rems64 => 64,
        }
    }

    /// The operation's word in a net text.
    pub fn name(self) -> &'static str
        ensures { result.now ≡ op2_name self }
    {
        match self {
            Op2::Add32 => "add32",
            Op2::Add64 => "add64",
            Op2::Sub32 => "sub32",
            Op2::Sub64 => "sub64",
            Op2::Mul32 => "mul32",
            Op2::Mul64 => "mul64",
            Op2::And32 => "and32",
            Op2::And64 => "and64",
            Op2::Or32 => "or32",
            Op2::Or64 => "or64",
            Op2::Xor32 => "xor32",
            Op2::Xor64 => "xor64",
            Op2::Shl32 => "shl32",
            Op2::Shl64 => "shl64",
            Op2::Shru32 => "shru32",
            Op2::Shru64 => "shru64",
            Op2::Shrs32 => "shrs32",
            Op2::Shrs64 => "shrs64",
            Op2::Divu32 => "divu32",
            Op2::Divu64 => "divu64",
            Op2::Remu32 => "remu32",
            Op2::Remu64 => "remu64",
            Op2::Divs32 => "divs32",
            Op2::Divs64 => "divs64",
            Op2::Rems32 => "rems32",
            Op2::Rems64 => "rems64",
            Op2::Eq32 => "eq32",
            Op2::Eq64 => "eq64",
            Op2::Ne32 => "ne32",
            Op2::Ne64 => "ne64",
            Op2::Ltu32 => "ltu32",
            Op2::Ltu64 => "ltu64",
            Op2::Leu32 => "leu32",
            Op2::Leu64 => "leu64",
            Op2::Lts32 => "lts32",
            Op2::Lts64 => "lts64",
            Op2::Les32 => "les32",
            Op2::Les64 => "les64",
        }
    }

    /// The operation of that word; `None` where none has it.
    pub fn of_name(bytes: &[u8]) -> Option<Op2>
        ensures named { IfSome result (λ op. op2_name op ≡ bytes.now) }
        ensures every { (op : Op2) → op2_name op ≡ bytes.now → result ≡ Some op }
    {
        for op in OP2S {
            if op.name().as_bytes() == bytes {
                return Some(op);
            }
        }
        None
    }
}
