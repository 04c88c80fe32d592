// The record at the start of a piece of an area, and a record laid at a place.
ghost use Rattle.std.specs.Prelude.{◌≡◌, ◌/◌, ◌%◌, false, [], ◌∷◌, ◌++◌, length, IfOk, if◌then◌else◌, Some, vec_len, nat_eq, slice_set, MatchOption};
ghost use Rattle.std.specs.Str.{bytes_eq};
ghost use Rattle.names.specs.Refusals.{answer};
ghost use Rattle.names.specs.Spelling.{padded_name};
ghost use Rattle.store.specs.Says.{get_number, get_buffer};
ghost use Rattle.area.specs.Layout.{rows_of, live, key, size, content, holds, written, lay_number};

use crate::layout::{DEAD, HEADER, LENGTH_AT, LIVE, LONGEST, NAME_AT, ROWS, SLOT};
use names::{Name, Refusal};
use store::copy_out;

// The rows of an area of this length.
pub fn rows(length: usize) -> usize
    ensures { result ≡ rows_of length }
{
    ROWS.min(length / SLOT)
}

// Whether the piece begins with a live record of the name.
pub fn is_held(piece: &[u8], name: Name) -> bool
    ensures { result ≡ holds piece.now name.bytes }
{
    is_live(piece) && is_named(piece, name)
}

// Whether the piece begins with a live record.
pub fn is_live(piece: &[u8]) -> bool
    ensures { result ≡ live piece.now }
{
    piece.first() == Some(&LIVE)
}

fn is_named(piece: &[u8], name: Name) -> bool
    ensures { result ≡ bytes_eq (key piece.now) name.bytes }
{
    piece.len() >= LENGTH_AT && piece[NAME_AT..LENGTH_AT] == name.bytes()[..]
}

// The name in the header at the piece's start, where the bytes there are one.
pub fn name_of(piece: &[u8]) -> Option<Name>
    ensures { MatchOption result (padded_name (key piece.now) ≡ false) (λ n. n.bytes ≡ key piece.now) }
{
    let bytes = piece.get(NAME_AT..LENGTH_AT)?.as_array::<8>()?;
    Name::from_padded(*bytes).ok()
}

// The length of the record at the piece's start.
pub fn length_of(piece: &[u8]) -> usize
    ensures { result ≡ size piece.now }
{
    let Some((header, behind)) = piece.split_first_chunk::<HEADER>() else {
        return 0;
    };
    let written = u16::from_be_bytes([header[LENGTH_AT], header[LENGTH_AT + 1]]);
    usize::from(written).min(behind.len())
}

// The record at the piece's start.
pub fn content(piece: &[u8]) -> &[u8]
    ensures { result.now ≡ content piece.now }
{
    piece
        .get(HEADER..HEADER + length_of(piece))
        .unwrap_or(&piece[..0])
}

// Copies the record at the piece's start to the buffer's start; refused (43) if the buffer is shorter.
pub fn read(piece: &[u8], buffer: &mut [u8]) -> Result<usize, Refusal>
    ensures outcome { answer result ≡ get_number (Some (content piece.now)) (length buffer.old) }
    ensures told { IfOk result (λ n. n ≡ length (content piece.now)) }
    ensures filled { buffer.new ≡ get_buffer (Some (content piece.now)) buffer.old }
{
    copy_out(content(piece), buffer)
}

// The header of a live record.
fn header(name: Name, length: u16) -> [u8; HEADER]
    ensures { result ≡ 1 ∷ (name.bytes ++ (length / 256) ∷ (length % 256) ∷ []) }
{
    let [a, b, c, d, e, f, g, h] = name.bytes();
    let [high, low] = length.to_be_bytes();
    [LIVE, a, b, c, d, e, f, g, h, high, low]
}

// Lays a live record at the place; refused, and nothing done, where the record is too long (42) or the area too short (41).
pub fn write(area: &mut Vec<u8>, at: usize, name: Name, content: &[u8]) -> Result<(), Refusal>
    ensures outcome { answer result ≡ lay_number (vec_len area.old) at (length content.now) }
    ensures after { area.new.items ≡ (if nat_eq (answer result) 0 then written area.old.items at name.bytes content.now else area.old.items) }
    ensures len { vec_len area.new ≡ vec_len area.old }
{
    let n = content.len();
    if n > LONGEST {
        return Err(Refusal::RecordTooLong { unit: None });
    }
    if at > area.len() || HEADER + n > area.len() - at {
        return Err(Refusal::StoreFull { unit: None });
    }
    let bytes = area.as_mut_slice();
    let start = at + HEADER;
    // kept as `as`: a record's length fits, and no `From` leads from a usize to a u16
    bytes[at..start].copy_from_slice(&header(name, n as u16));
    bytes[start..start + n].copy_from_slice(content);
    Ok(())
}

// Marks the record at the place dead.
pub fn bury(area: &mut Vec<u8>, at: usize)
    ensures after { area.new.items ≡ slice_set area.old.items at 0 }
    ensures len { vec_len area.new ≡ vec_len area.old }
{
    if let Some(mark) = area.get_mut(at) {
        *mark = DEAD;
    }
}
