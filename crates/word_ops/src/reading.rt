ghost use Rattle.std.specs.Prelude.{◌≡◌, ◌%◌, ◌^◌, ◌<◌, ◌≤◌};
ghost use Rattle.el_base.specs.Numbers.{residue, signed_number};
ghost use Rattle.word_ops.specs.Operations.{extension_of};

/// A number modulo two to the width.
pub fn reduced(width: u32, a: u64) -> u64
    requires some { 0 < width }
    requires within { width ≤ 64 }
    ensures { result ≡ a % 2 ^ width }
{
    a & (u64::MAX >> (64 - width))
}

/// The number of a pattern, read as two's complement.
pub fn signed(width: u32, a: u64) -> i64
    requires some { 0 < width }
    requires within { width ≤ 64 }
    requires pattern { a < 2 ^ width }
    ensures { result ≡ signed_number width a }
{
    let half = 1u64 << (width - 1);
    if a < half {
        a.cast_signed()
    } else {
        a.wrapping_sub(half).wrapping_sub(half).cast_signed()
    }
}

/// The pattern of a number.
pub fn pattern_of(width: u32, z: i64) -> u64
    requires some { 0 < width }
    requires within { width ≤ 64 }
    ensures { result ≡ residue width z }
{
    reduced(width, z.cast_unsigned())
}

/// The pattern of `to` bits of the signed number of a pattern of `from` bits.
pub fn extended(from: u32, to: u32, a: u64) -> u64
    requires some { 0 < from }
    requires wider { from < to }
    requires within { to ≤ 64 }
    requires pattern { a < 2 ^ from }
    ensures { result ≡ extension_of from to a }
{
    pattern_of(to, signed(from, a))
}
