//! The reserved words.
ghost use Rattle.std.specs.Prelude.{◌≡◌, ◌↔◌, All, true, Option, Some, IfSome, IsNone, IsSome};
ghost use Rattle.c_ast.specs.Lengths.{has_each};
ghost use Rattle.c_ast.specs.Pieces.{key_of};
ghost use Rattle.c_ast.specs.Texts.{key_text, IsReserved};
ghost use Rattle.c_ast.specs.declared.key.Key.{Key};

/// A word that cannot be a name: the keywords of C99 (ISO/IEC 9899:1999 6.4.1), then the integer
/// types of exact width (ISO/IEC 9899:1999 7.18.1.1).
#[derive(Clone, Copy, PartialEq, Eq)]
pub enum Key {
    Auto,
    Break,
    Case,
    Char,
    Const,
    Continue,
    Default,
    Do,
    Double,
    Else,
    Enum,
    Extern,
    Float,
    For,
    Goto,
    If,
    Inline,
    Int,
    Long,
    Register,
    Restrict,
    Return,
    Short,
    Signed,
    Sizeof,
    Static,
    Struct,
    Switch,
    Typedef,
    Union,
    Unsigned,
    Void,
    Volatile,
    While,
    Bool,
    Complex,
    Imaginary,
    Int8,
    Int16,
    Int32,
    Int64,
    Uint8,
    Uint16,
    Uint32,
    Uint64,
}

/// Every reserved word, in the order of `Key`.
static KEYS: [Key; 45] = [
    Key::Auto,
    Key::Break,
    Key::Case,
    Key::Char,
    Key::Const,
    Key::Continue,
    Key::Default,
    Key::Do,
    Key::Double,
    Key::Else,
    Key::Enum,
    Key::Extern,
    Key::Float,
    Key::For,
    Key::Goto,
    Key::If,
    Key::Inline,
    Key::Int,
    Key::Long,
    Key::Register,
    Key::Restrict,
    Key::Return,
    Key::Short,
    Key::Signed,
    Key::Sizeof,
    Key::Static,
    Key::Struct,
    Key::Switch,
    Key::Typedef,
    Key::Union,
    Key::Unsigned,
    Key::Void,
    Key::Volatile,
    Key::While,
    Key::Bool,
    Key::Complex,
    Key::Imaginary,
    Key::Int8,
    Key::Int16,
    Key::Int32,
    Key::Int64,
    Key::Uint8,
    Key::Uint16,
    Key::Uint32,
    Key::Uint64,
];

impl Key {
    /// The word as it is spelled.
    pub fn text(self) -> &'static str
        ensures { result.now ≡ key_text self }
    {
        match self {
            Key::Auto => "auto",
            Key::Break => "break",
            Key::Case => "case",
            Key::Char => "char",
            Key::Const => "const",
            Key::Continue => "continue",
            Key::Default => "default",
            Key::Do => "do",
            Key::Double => "double",
            Key::Else => "else",
            Key::Enum => "enum",
            Key::Extern => "extern",
            Key::Float => "float",
            Key::For => "for",
            Key::Goto => "goto",
            Key::If => "if",
            Key::Inline => "inline",
            Key::Int => "int",
            Key::Long => "long",
            Key::Register => "register",
            Key::Restrict => "restrict",
            Key::Return => "return",
            Key::Short => "short",
            Key::Signed => "signed",
            Key::Sizeof => "sizeof",
            Key::Static => "static",
            Key::Struct => "struct",
            Key::Switch => "switch",
            Key::Typedef => "typedef",
            Key::Union => "union",
            Key::Unsigned => "unsigned",
            Key::Void => "void",
            Key::Volatile => "volatile",
            Key::While => "while",
            Key::Bool => "_Bool",
            Key::Complex => "_Complex",
            Key::Imaginary => "_Imaginary",
            Key::Int8 => "int8_t",
            Key::Int16 => "int16_t",
            Key::Int32 => "int32_t",
            Key::Int64 => "int64_t",
            Key::Uint8 => "uint8_t",
            Key::Uint16 => "uint16_t",
            Key::Uint32 => "uint32_t",
            Key::Uint64 => "uint64_t",
        }
    }

    /// The reserved word that is spelled by these bytes; `None` where they spell none.
    pub fn of_text(bytes: &[u8]) -> Option<Key>
        ensures found { result ≡ key_of bytes.now }
        ensures spelled { IfSome result (λ k. key_text k ≡ bytes.now) }
        ensures exact { (k : Key) → key_text k ≡ bytes.now → result ≡ Some k }
        ensures none { IsNone result → (k : Key) → key_text k ≡ bytes.now → ⊥ }
        ensures reserved { IsSome result ↔ IsReserved bytes.now }
    {
        spelled_by(bytes, of_length(bytes.len()))
    }
}

// The words of a length; of a length above that of every word, all.
fn of_length(length: usize) -> &'static [Key]
    ensures { has_each length result.now ≡ true }
{
    match length {
        0 | 1 | 9 => &[],
        2 => &[Key::Do, Key::If],
        3 => &[Key::For, Key::Int],
        4 => &[
            Key::Auto,
            Key::Case,
            Key::Char,
            Key::Else,
            Key::Enum,
            Key::Goto,
            Key::Long,
            Key::Void,
        ],
        5 => &[
            Key::Break,
            Key::Const,
            Key::Float,
            Key::Short,
            Key::Union,
            Key::While,
            Key::Bool,
        ],
        6 => &[
            Key::Double,
            Key::Extern,
            Key::Inline,
            Key::Return,
            Key::Signed,
            Key::Sizeof,
            Key::Static,
            Key::Struct,
            Key::Switch,
            Key::Int8,
        ],
        7 => &[
            Key::Default,
            Key::Typedef,
            Key::Int16,
            Key::Int32,
            Key::Int64,
            Key::Uint8,
        ],
        8 => &[
            Key::Continue,
            Key::Register,
            Key::Restrict,
            Key::Unsigned,
            Key::Volatile,
            Key::Complex,
            Key::Uint16,
            Key::Uint32,
            Key::Uint64,
        ],
        10 => &[Key::Imaginary],
        _ => &KEYS,
    }
}

// The first of these words that is spelled by these bytes.
fn spelled_by(bytes: &[u8], keys: &[Key]) -> Option<Key>
    ensures spelled { IfSome result (λ k. key_text k ≡ bytes.now) }
    ensures none { IsNone result → All (λ k. key_text k ≡ bytes.now → ⊥) keys.now }
{
    for key in keys {
        if key.text().as_bytes() == bytes {
            return Some(*key);
        }
    }
    None
}
