//! The tables of operators.
ghost use Rattle.std.specs.Prelude.{◌≡◌};
ghost use Rattle.c_parse.specs.Tables.{operator_of, sign_of, assigning_of, step_of};

use c_ast::{Binary, Mark, Unary};

/// The binary operator of a mark, with its level: 1 is the loosest, 10 the tightest.
pub fn operator_of(mark: Mark) -> Option<(Binary, u32)>
    ensures { result ≡ operator_of mark }
{
    match mark {
        Mark::OrOr => Some((Binary::Either, 1)),
        Mark::AndAnd => Some((Binary::Both, 2)),
        Mark::Bar => Some((Binary::Or, 3)),
        Mark::Caret => Some((Binary::Xor, 4)),
        Mark::Ampersand => Some((Binary::And, 5)),
        Mark::EqualEqual => Some((Binary::Eq, 6)),
        Mark::NotEqual => Some((Binary::Ne, 6)),
        Mark::Less => Some((Binary::Lt, 7)),
        Mark::Greater => Some((Binary::Gt, 7)),
        Mark::LessEqual => Some((Binary::Le, 7)),
        Mark::GreaterEqual => Some((Binary::Ge, 7)),
        Mark::Shl => Some((Binary::Shl, 8)),
        Mark::Shr => Some((Binary::Shr, 8)),
        Mark::Plus => Some((Binary::Add, 9)),
        Mark::Minus => Some((Binary::Sub, 9)),
        Mark::Star => Some((Binary::Mul, 10)),
        Mark::Slash => Some((Binary::Div, 10)),
        Mark::Percent => Some((Binary::Rem, 10)),
        _ => None,
    }
}

/// The unary operator of a mark.
pub fn sign_of(mark: Mark) -> Option<Unary>
    ensures { result ≡ sign_of mark }
{
    match mark {
        Mark::Plus => Some(Unary::Plus),
        Mark::Minus => Some(Unary::Minus),
        Mark::Tilde => Some(Unary::Flip),
        Mark::Bang => Some(Unary::Not),
        _ => None,
    }
}

/// What an assignment by a mark does besides: the operator of a compound one.
pub fn assigning_of(mark: Mark) -> Option<Option<Binary>>
    ensures { result ≡ assigning_of mark }
{
    match mark {
        Mark::Assign => Some(None),
        Mark::MulAssign => Some(Some(Binary::Mul)),
        Mark::DivAssign => Some(Some(Binary::Div)),
        Mark::RemAssign => Some(Some(Binary::Rem)),
        Mark::AddAssign => Some(Some(Binary::Add)),
        Mark::SubAssign => Some(Some(Binary::Sub)),
        Mark::ShlAssign => Some(Some(Binary::Shl)),
        Mark::ShrAssign => Some(Some(Binary::Shr)),
        Mark::AndAssign => Some(Some(Binary::And)),
        Mark::XorAssign => Some(Some(Binary::Xor)),
        Mark::OrAssign => Some(Some(Binary::Or)),
        _ => None,
    }
}

/// Whether a step by a mark goes up.
pub fn step_of(mark: Mark) -> Option<bool>
    ensures { result ≡ step_of mark }
{
    match mark {
        Mark::Increment => Some(true),
        Mark::Decrement => Some(false),
        _ => None,
    }
}
