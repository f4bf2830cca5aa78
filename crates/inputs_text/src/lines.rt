//! The lines of a text, and their words.
ghost use Rattle.std.specs.Prelude.{◌≡◌, ◌==◌, not, ◌∷◌, [], ◌<◌, length, position, MatchOption};
ghost use Rattle.std.specs.List.{before_first, after_first, list_all};
ghost use Rattle.std.specs.Str.Lines.{lines, strip_carriage_return};
ghost use Rattle.inputs_text.specs.Lines.{is_blank, is_skipped, words};
ghost use Rattle.inputs_text.specs.Readings.{IsNextLine};

/// Where a byte first stands.
fn place_of(bytes: &[u8], byte: u8) -> Option<usize>
    ensures { result ≡ position (λ b. b == byte) bytes.now }
{
    bytes.iter().position(|b| *b == byte)
}

/// The bytes before the first of a kind and after it; all bytes and none where there is no such byte.
pub(crate) fn cut(bytes: &[u8], byte: u8) -> (&[u8], &[u8])
    ensures before { result.0.now ≡ before_first (λ b. b == byte) bytes.now }
    ensures after { result.1.now ≡ after_first (λ b. b == byte) bytes.now }
{
    match place_of(bytes, byte) {
        Some(place) => (&bytes[..place], &bytes[place + 1..]),
        None => (bytes, &[]),
    }
}

/// The first line of a text, and what follows it.
pub(crate) fn next_line(bytes: &[u8]) -> Option<(&[u8], &[u8])>
    ensures { MatchOption result (lines bytes.now ≡ [])
        (λ p. IsNextLine bytes.now p.0.now p.1.now) }
{
    if bytes.is_empty() {
        return None;
    }
    match place_of(bytes, b'\n') {
        Some(end) => Some((without_return(&bytes[..end]), &bytes[end + 1..])),
        None => Some((bytes, &[])),
    }
}

/// A line without the carriage return at its end, where it has one.
fn without_return(line: &[u8]) -> &[u8]
    ensures { result.now ≡ strip_carriage_return line.now }
{
    match line.split_last() {
        Some((b'\r', rest)) => rest,
        _ => line,
    }
}

/// Whether a byte is a space or a tab.
fn is_blank(byte: u8) -> bool
    ensures { result ≡ is_blank byte }
{
    byte == b' ' || byte == b'\t'
}

/// Whether all bytes are blanks.
fn are_blanks(bytes: &[u8]) -> bool
    ensures { result ≡ list_all is_blank bytes.now }
{
    bytes.iter().all(|b| is_blank(*b))
}

/// Whether a line is skipped.
pub(crate) fn is_skipped(line: &[u8]) -> bool
    ensures { result ≡ is_skipped line.now }
{
    are_blanks(line) || line.first() == Some(&b'#')
}

/// Where the first word begins.
fn word_at(text: &[u8]) -> Option<usize>
    ensures { result ≡ position (λ b. not (is_blank b)) text.now }
{
    text.iter().position(|b| !is_blank(*b))
}

/// Where the first blank stands.
fn blank_at(text: &[u8]) -> Option<usize>
    ensures { result ≡ position is_blank text.now }
{
    text.iter().position(|b| is_blank(*b))
}

/// The first word of a text, and what follows it.
pub(crate) fn next_word(text: &[u8]) -> Option<(&[u8], &[u8])>
    ensures { MatchOption result (words text.now ≡ [])
        (λ p. (words text.now ≡ p.0.now ∷ words p.1.now) × (length p.1.now < length text.now)) }
{
    let Some(start) = word_at(text) else {
        return None;
    };
    let rest = &text[start..];
    match blank_at(rest) {
        Some(end) => Some((&rest[..end], &rest[end..])),
        None => Some((rest, &[])),
    }
}
