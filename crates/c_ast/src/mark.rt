//! The punctuators.
ghost use Rattle.std.specs.Prelude.{◌≡◌};
ghost use Rattle.c_ast.specs.Texts.{mark_text};

/// A punctuator of kernels (ISO/IEC 9899:1999 6.4.6).
#[derive(Clone, Copy, PartialEq, Eq)]
pub enum Mark {
    /// `<<=`
    ShlAssign,
    /// `>>=`
    ShrAssign,
    /// `++`
    Increment,
    /// `--`
    Decrement,
    /// `+=`
    AddAssign,
    /// `-=`
    SubAssign,
    /// `*=`
    MulAssign,
    /// `/=`
    DivAssign,
    /// `%=`
    RemAssign,
    /// `&=`
    AndAssign,
    /// `|=`
    OrAssign,
    /// `^=`
    XorAssign,
    /// `<<`
    Shl,
    /// `>>`
    Shr,
    /// `<=`
    LessEqual,
    /// `>=`
    GreaterEqual,
    /// `==`
    EqualEqual,
    /// `!=`
    NotEqual,
    /// `&&`
    AndAnd,
    /// `||`
    OrOr,
    /// `+`
    Plus,
    /// `-`
    Minus,
    /// `*`
    Star,
    /// `/`
    Slash,
    /// `%`
    Percent,
    /// `&`
    Ampersand,
    /// `|`
    Bar,
    /// `^`
    Caret,
    /// `~`
    Tilde,
    /// `!`
    Bang,
    /// `<`
    Less,
    /// `>`
    Greater,
    /// `=`
    Assign,
    /// `?`
    Question,
    /// `:`
    Colon,
    /// `;`
    Semicolon,
    /// `,`
    Comma,
    /// `(`
    Open,
    /// `)`
    Close,
    /// `[`
    OpenBracket,
    /// `]`
    CloseBracket,
    /// `{`
    OpenBrace,
    /// `}`
    CloseBrace,
}

impl Mark {
    /// The punctuator as it is spelled.
    pub fn text(self) -> &'static str
        ensures { result.now ≡ mark_text self }
    {
        match self {
            Mark::ShlAssign => "<<=",
            Mark::ShrAssign => ">>=",
            Mark::Increment => "++",
            Mark::Decrement => "--",
            Mark::AddAssign => "+=",
            Mark::SubAssign => "-=",
            Mark::MulAssign => "*=",
            Mark::DivAssign => "/=",
            Mark::RemAssign => "%=",
            Mark::AndAssign => "&=",
            Mark::OrAssign => "|=",
            Mark::XorAssign => "^=",
            Mark::Shl => "<<",
            Mark::Shr => ">>",
            Mark::LessEqual => "<=",
            Mark::GreaterEqual => ">=",
            Mark::EqualEqual => "==",
            Mark::NotEqual => "!=",
            Mark::AndAnd => "&&",
            Mark::OrOr => "||",
            Mark::Plus => "+",
            Mark::Minus => "-",
            Mark::Star => "*",
            Mark::Slash => "/",
            Mark::Percent => "%",
            Mark::Ampersand => "&",
            Mark::Bar => "|",
            Mark::Caret => "^",
            Mark::Tilde => "~",
            Mark::Bang => "!",
            Mark::Less => "<",
            Mark::Greater => ">",
            Mark::Assign => "=",
            Mark::Question => "?",
            Mark::Colon => ":",
            Mark::Semicolon => ";",
            Mark::Comma => ",",
            Mark::Open => "(",
            Mark::Close => ")",
            Mark::OpenBracket => "[",
            Mark::CloseBracket => "]",
            Mark::OpenBrace => "{",
            Mark::CloseBrace => "}",
        }
    }
}
