//! Appends the numbers that a part of a name stands for to an identifier.
ghost use Rattle.std.specs.Prelude.{◌≡◌, ◌++◌, ◌∷◌, [], length};
ghost use Rattle.smi_show.specs.{index.Pieces.piece_numbers, name.Meaning.fitting};
ghost use Rattle.smi_show.specs.{private.name.Part.piece_in, private.name.NameResult.read_to};

use crate::name::NameError;
use crate::name::part::Piece;
use snmp_oid::{MAX_LEN, Oid};

/// Appends the numbers of `piece` to `oid`. Fails with `TooLong` if `oid` would have more than 128
/// numbers; after that it may have any numbers.
pub fn push_piece(oid: &mut Oid, piece: Piece<'_>) -> Result<(), NameError>
    ensures { read_to result oid.new ≡ fitting (oid.old ++ piece_numbers (piece_in piece.entry)) }
{
    match piece {
        Piece::Number(number) => push_number(oid, number),
        Piece::Counted(octets) => push_counted(oid, octets),
        Piece::Plain(octets) => push_octets(oid, octets),
    }
}

/// Appends a number.
// `inline`: called for each number in a name that doesn't consist of numbers alone.
#[inline]
pub fn push_number(oid: &mut Oid, number: u32) -> Result<(), NameError>
    ensures { read_to result oid.new ≡ fitting (oid.old ++ number ∷ []) }
{
    oid.push(number).map_err(|_| NameError::TooLong)
}

/// Appends the number of octets and then the octets.
fn push_counted(oid: &mut Oid, octets: &[u8]) -> Result<(), NameError>
    ensures { read_to result oid.new ≡ fitting (oid.old ++ length octets.now ∷ octets.now) }
{
    if octets.len() > MAX_LEN {
        return Err(NameError::TooLong);
    }
    push_number(oid, octets.len() as u32)?;
    push_octets(oid, octets)
}

/// Appends octets, each as a number.
fn push_octets(oid: &mut Oid, octets: &[u8]) -> Result<(), NameError>
    ensures { read_to result oid.new ≡ fitting (oid.old ++ octets.now) }
{
    if octets.len() > MAX_LEN - oid.len() {
        return Err(NameError::TooLong);
    }
    'octets: for octet in octets {
        oid.push_with_room(u32::from(*octet));
    }
    Ok(())
}
