ghost use Rattle.std.specs.Prelude.{◌≡◌, ◌<◌, ◌≤◌, ◌++◌, IfOk, OnOk};
ghost use Rattle.std.specs.List.{flat_map};
ghost use Rattle.bb_tree.specs.Blob as blob;
ghost use Rattle.bb_tree.specs.Blob.{word};
ghost use Rattle.bb_dtbrec.specs.declared.piece.Piece.TheVariants.{Fixed};
ghost use Rattle.bb_dtbrec.specs.LayoutPieces.{fixed_prop};
ghost use Rattle.bb_dtbrec.specs.Spine.{begin_piece, end_piece, field_written};

use crate::piece::{Piece, place_of};
use bb_base::{Bytes, NoMemory};
use bb_layout::Var;
use std::alloc::Global;

// Where the name `value` begins in the strings block.
const VALUE_OFFSET: usize = 26;

/// Appends the low 32 bits of a number, big endian.
#[tactic(auto, unfolding(bb_tree::specs::Blob::word))]
pub(crate) fn add_word(bytes: &mut Bytes, n: usize) -> Result<(), NoMemory>
    ensures { OnOk result (bytes.new ≡ bytes.old ++ word n) }
{
    let double = (n as u64).to_be_bytes();
    bytes.add(double.split_at(4).1)
}

/// Appends words one after another.
pub(crate) fn add_words(bytes: &mut Bytes, words: &[usize]) -> Result<(), NoMemory>
    ensures { OnOk result (bytes.new ≡ bytes.old ++ flat_map word words.now) }
{
    for n in words {
        add_word(bytes, *n)?;
    }
    Ok(())
}

/// Appends FDT_BEGIN_NODE and the name of a node.
pub(crate) fn add_begin(bytes: &mut Bytes, name: &str) -> Result<(), NoMemory>
    ensures { OnOk result (bytes.new ≡ bytes.old ++ blob.begin_text name.now) }
{
    add_word(bytes, 1)?;
    bytes.add(name.as_bytes())?;
    bytes.add(&[0])?;
    add_filling(bytes, name.len() + 1)
}

/// Appends FDT_PROP for a value of that length, and where its name begins in the strings block.
pub(crate) fn add_token(bytes: &mut Bytes, len: usize, offset: usize) -> Result<(), NoMemory>
    ensures { OnOk result (bytes.new ≡ bytes.old ++ (word 3 ++ (word len ++ word offset))) }
{
    add_word(bytes, 3)?;
    add_word(bytes, len)?;
    add_word(bytes, offset)
}

/// FDT_BEGIN_NODE and the name of a node.
pub(crate) fn begin(alloc: Global, name: &str) -> Result<Piece, NoMemory>
    ensures { IfOk result (λ piece. piece ≡ begin_piece name.now) }
{
    let mut bytes = Bytes::none(alloc);
    add_begin(&mut bytes, name)?;
    Ok(Piece::Fixed(bytes))
}

/// FDT_END_NODE.
pub(crate) fn end(alloc: Global) -> Result<Piece, NoMemory>
    ensures { IfOk result (λ piece. piece ≡ end_piece) }
{
    one_word(alloc, 2)
}

/// A token alone.
pub(crate) fn one_word(alloc: Global, n: usize) -> Result<Piece, NoMemory>
    ensures { IfOk result (λ piece. piece ≡ Fixed (word n)) }
{
    let mut bytes = Bytes::none(alloc);
    add_word(&mut bytes, n)?;
    Ok(Piece::Fixed(bytes))
}

/// The zero bytes after a value of that length.
pub(crate) fn filling(alloc: Global, len: usize) -> Result<Piece, NoMemory>
    requires { len ≤ 9223372036854775808 }
    ensures { IfOk result (λ piece. piece ≡ Fixed (blob.filling len)) }
{
    let mut bytes = Bytes::none(alloc);
    add_filling(&mut bytes, len)?;
    Ok(Piece::Fixed(bytes))
}

/// Appends a property of these bytes, whose name begins at that place in the strings block.
pub(crate) fn add_prop(
    alloc: Global,
    pieces: &mut Vec<Piece>,
    offset: usize,
    value: &[u8],
) -> Result<(), NoMemory>
    ensures { OnOk result (pieces.new.items ≡ pieces.old.items ++ fixed_prop offset value.now) }
{
    pieces.push(token(alloc, value.len(), offset)?)?;
    pieces.push(fixed(alloc, value)?)?;
    pieces.push(filling(alloc, value.len())?)?;
    Ok(())
}

/// The property `value` of a variable.
pub(crate) fn field(alloc: Global, var: &Var) -> Result<Vec<Piece>, NoMemory>
    requires { var.now.size < 4294967296 }
    ensures { IfOk result (λ field. field.items ≡ field_written var.now) }
{
    let place = place_of(var);
    let len = place.field_len();
    let mut field = Vec::new(alloc);
    field.push(token(alloc, len, VALUE_OFFSET)?)?;
    field.push(Piece::Value(place))?;
    field.push(filling(alloc, len)?)?;
    Ok(field)
}

fn token(alloc: Global, len: usize, offset: usize) -> Result<Piece, NoMemory>
    ensures { IfOk result (λ piece. piece ≡ Fixed (word 3 ++ (word len ++ word offset))) }
{
    let mut bytes = Bytes::none(alloc);
    add_token(&mut bytes, len, offset)?;
    Ok(Piece::Fixed(bytes))
}

fn fixed(alloc: Global, value: &[u8]) -> Result<Piece, NoMemory>
    ensures { IfOk result (λ piece. piece ≡ Fixed value.now) }
{
    let mut bytes = Bytes::none(alloc);
    bytes.add(value)?;
    Ok(Piece::Fixed(bytes))
}

// Appends the zero bytes that fill `len` bytes up to whole words.
fn add_filling(bytes: &mut Bytes, len: usize) -> Result<(), NoMemory>
    requires { len ≤ 9223372036854775808 }
    ensures { OnOk result (bytes.new ≡ bytes.old ++ blob.filling len) }
{
    let zeros = [0u8, 0, 0];
    bytes.add(zeros.split_at(whole_words(len) - len).0)
}

// The next multiple of 4.
fn whole_words(len: usize) -> usize
    requires { len ≤ 9223372036854775808 }
    ensures { result ≡ blob.whole_words len }
{
    4 * ((len + 3) / 4)
}
