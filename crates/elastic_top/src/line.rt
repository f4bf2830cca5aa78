//! Lines in pieces, written without memory: texts are gathered on the stack and written together.
ghost use Rattle.std.specs.Prelude.{◌≡◌, ◌++◌, ◌∷◌, [], ◌<◌, ◌≤◌, length, get_or, OnOk, OnErr};
ghost use Rattle.std.specs.Io.KnownBytes.{append_known};
ghost use Rattle.el_io.specs.Outside.{Rose, IsCut};
ghost use Rattle.el_base.specs.Labels.{printed};
ghost use Rattle.elastic_top.specs.Lines.{piece_text, line_of, AreGathered};
ghost use Rattle.elastic_top.specs.Faults.{IsTold};

use arrayvec::ArrayVec;
use el_base::Label;
use el_io::{Sink, WriteFault, write_all};
use itoa::Buffer;

/// A part of a line: a text, bytes, a number in decimal digits, or the number and the word of a refusal.
#[derive(Clone, Copy)]
pub enum Piece<'a> {
    Text(&'a str),
    Bytes(&'a [u8]),
    Number(u64),
    Labelled(Label),
}

/// Texts of a line that are to be written together.
type Gathered = ArrayVec<u8, 64>;

/// Writes a line piece by piece; a fault of the sink is no matter.
pub fn write_line<E: Sink>(err: &mut E, pieces: &[Piece<'_>])
    ensures { IsTold (E.written err.old) (E.written err.new) (E.faults err.old) (E.faults err.new)
        (line_of pieces.now) }
{
    let _ = write_pieces(err, pieces);
}

fn write_pieces<E: Sink>(err: &mut E, pieces: &[Piece<'_>]) -> Result<(), WriteFault>
    ensures ok { OnOk result (E.written err.new
        ≡ append_known (E.written err.old) (line_of pieces.now)) }
    ensures failed { OnErr result (Rose (E.faults err.old) (E.faults err.new)) }
    ensures cut { OnErr result (IsCut (E.written err.old) (E.written err.new)
        (line_of pieces.now)) }
{
    let mut gathered = Gathered::new();
    for i in 0..pieces.len() {
        write_piece(err, &mut gathered, piece_at(pieces, i))?;
    }
    flush(err, &mut gathered)?;
    Ok(())
}

fn piece_at<'a>(pieces: &[Piece<'a>], i: usize) -> Piece<'a>
    requires { i < length pieces.now }
    ensures { result ≡ get_or pieces.now i result }
{
    pieces[i]
}

// A text is gathered; a number and a name are written by themselves, behind what was gathered before.
fn write_piece<E: Sink>(
    err: &mut E,
    gathered: &mut Gathered,
    piece: Piece<'_>,
) -> Result<(), WriteFault>
    ensures ok { OnOk result (AreGathered (E.written err.old) (E.written err.new)
        gathered.new.items (gathered.old.items ++ piece_text piece.entry)) }
    ensures failed { OnErr result (Rose (E.faults err.old) (E.faults err.new)) }
    ensures cut { OnErr result (IsCut (E.written err.old) (E.written err.new)
        (gathered.old.items ++ piece_text piece.entry)) }
    ensures later { E.faults err.old ≤ E.faults err.new }
{
    match piece {
        Piece::Text(text) => gather(err, gathered, text.as_bytes()),
        Piece::Bytes(bytes) => write_alone(err, gathered, bytes),
        Piece::Number(number) => {
            let mut buffer = Buffer::new();
            write_alone(err, gathered, buffer.format(number).as_bytes())
        }
        Piece::Labelled(label) => gather_label(err, gathered, label),
    }
}

fn gather_label<E: Sink>(
    err: &mut E,
    gathered: &mut Gathered,
    label: Label,
) -> Result<(), WriteFault>
    ensures ok { OnOk result (AreGathered (E.written err.old) (E.written err.new)
        gathered.new.items (gathered.old.items ++ printed label.number label.word.now)) }
    ensures failed { OnErr result (Rose (E.faults err.old) (E.faults err.new)) }
    ensures cut { OnErr result (IsCut (E.written err.old) (E.written err.new)
        (gathered.old.items ++ printed label.number label.word.now)) }
    ensures later { E.faults err.old ≤ E.faults err.new }
{
    match label.number {
        Some(number) => {
            let mut buffer = Buffer::new();
            gather_two(err, gathered, buffer.format(number), label.word)
        }
        None => gather(err, gathered, b"want of memory"),
    }
}

// Gathers two texts with a space between them.
fn gather_two<E: Sink>(
    err: &mut E,
    gathered: &mut Gathered,
    front: &str,
    back: &str,
) -> Result<(), WriteFault>
    ensures ok { OnOk result (AreGathered (E.written err.old) (E.written err.new)
        gathered.new.items (gathered.old.items ++ (front.now ++ (32 ∷ back.now)))) }
    ensures failed { OnErr result (Rose (E.faults err.old) (E.faults err.new)) }
    ensures cut { OnErr result (IsCut (E.written err.old) (E.written err.new)
        (gathered.old.items ++ (front.now ++ (32 ∷ back.now)))) }
    ensures later { E.faults err.old ≤ E.faults err.new }
{
    gather(err, gathered, front.as_bytes())?;
    gather(err, gathered, b" ")?;
    gather(err, gathered, back.as_bytes())?;
    Ok(())
}

// Adds bytes to what is gathered, or writes all where there is no room.
fn gather<E: Sink>(err: &mut E, gathered: &mut Gathered, bytes: &[u8]) -> Result<(), WriteFault>
    ensures ok { OnOk result (AreGathered (E.written err.old) (E.written err.new)
        gathered.new.items (gathered.old.items ++ bytes.now)) }
    ensures failed { OnErr result (Rose (E.faults err.old) (E.faults err.new)) }
    ensures cut { OnErr result (IsCut (E.written err.old) (E.written err.new)
        (gathered.old.items ++ bytes.now)) }
    ensures later { E.faults err.old ≤ E.faults err.new }
{
    if gathered.try_extend_from_slice(bytes).is_ok() {
        Ok(())
    } else {
        write_alone(err, gathered, bytes)
    }
}

// Writes what is gathered, and then the bytes.
fn write_alone<E: Sink>(
    err: &mut E,
    gathered: &mut Gathered,
    bytes: &[u8],
) -> Result<(), WriteFault>
    ensures ok { OnOk result (AreGathered (E.written err.old) (E.written err.new)
        gathered.new.items (gathered.old.items ++ bytes.now)) }
    ensures failed { OnErr result (Rose (E.faults err.old) (E.faults err.new)) }
    ensures cut { OnErr result (IsCut (E.written err.old) (E.written err.new)
        (gathered.old.items ++ bytes.now)) }
    ensures later { E.faults err.old ≤ E.faults err.new }
{
    flush(err, gathered)?;
    write_all(err, bytes)?;
    Ok(())
}

// Writes what is gathered.
fn flush<E: Sink>(err: &mut E, gathered: &mut Gathered) -> Result<(), WriteFault>
    ensures ok { OnOk result (E.written err.new
        ≡ append_known (E.written err.old) gathered.old.items) }
    ensures empty { OnOk result (gathered.new.items ≡ []) }
    ensures failed { OnErr result (Rose (E.faults err.old) (E.faults err.new)) }
    ensures cut { OnErr result (IsCut (E.written err.old) (E.written err.new)
        gathered.old.items) }
    ensures later { E.faults err.old ≤ E.faults err.new }
{
    write_all(err, gathered.as_slice())?;
    gathered.clear();
    Ok(())
}
