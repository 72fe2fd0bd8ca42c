ghost use Rattle.std.specs.Prelude.{◌≡◌, ◌≤◌, ◌++◌, OnOk};
ghost use Rattle.std.specs.List.{flat_map};
ghost use Rattle.bb_tree.specs.Blob.{word, double_word, filling};

use crate::token::whole_words;
use bb_base::NoMemory;

/// Appends the low 32 bits of a number, big endian.
#[tactic(auto, unfolding(bb_tree::specs::Blob::word))]
pub(crate) fn add_word(bytes: &mut Vec<u8>, n: usize) -> Result<(), NoMemory>
    ensures { OnOk result (bytes.new.items ≡ bytes.old.items ++ word n) }
{
    let double = (n as u64).to_be_bytes();
    bytes.extend_from_slice(double.split_at(4).1)?;
    Ok(())
}

/// Appends words one after another.
pub(crate) fn add_words(bytes: &mut Vec<u8>, words: &[usize]) -> Result<(), NoMemory>
    ensures { OnOk result (bytes.new.items ≡ bytes.old.items ++ flat_map word words.now) }
{
    for n in words {
        add_word(bytes, *n)?;
    }
    Ok(())
}

/// Appends a number of 64 bits, big endian.
pub(crate) fn add_double_word(bytes: &mut Vec<u8>, n: u64) -> Result<(), NoMemory>
    ensures { OnOk result (bytes.new.items ≡ bytes.old.items ++ double_word n) }
{
    bytes.extend_from_slice(&n.to_be_bytes())?;
    Ok(())
}

/// Appends the zero bytes that fill `len` bytes up to whole words.
pub(crate) fn add_filling(bytes: &mut Vec<u8>, len: usize) -> Result<(), NoMemory>
    requires { len ≤ 9223372036854775808 }
    ensures { OnOk result (bytes.new.items ≡ bytes.old.items ++ filling len) }
{
    let zeros = [0u8, 0, 0];
    bytes.extend_from_slice(zeros.split_at(whole_words(len) - len).0)?;
    Ok(())
}
