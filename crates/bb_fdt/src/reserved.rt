ghost use Rattle.std.specs.Prelude.{◌≡◌, ◌≤◌, ◌+◌, ◌==◌, ◌&&◌, Some, None, IfOk, IfErr, length};
ghost use Rattle.bb_fdt.specs.Descent.{unless_memory};
ghost use Rattle.bb_fdt.specs.Reading.{pairs_in, double_word_at};
ghost use Rattle.bb_fdt.specs.declared.error.Field.TheVariants.{Reserve};
ghost use Rattle.bb_fdt.specs.declared.error.FdtError.TheVariants.{OutOfBounds};

use crate::{FdtError, Field};
use bb_tree::PairList;
use byteorder::{BigEndian, ByteOrder};
use std::alloc::Global;

const PAIR_LEN: usize = 16;

/// Reads a reservation list up to its pair of zeros.
pub(crate) fn read_reserved(alloc: Global, text: &[u8]) -> Result<PairList, FdtError>
    ensures ok { IfOk result (λ pairs. pairs_in 0 text.now ≡ Some pairs) }
    ensures refused { IfErr result
        (λ e. unless_memory e e ≡ unless_memory e (OutOfBounds Reserve)) }
    ensures none { IfErr result
        (λ e. unless_memory e (pairs_in 0 text.now) ≡ unless_memory e None) }
{
    let mut pairs = PairList::none(alloc);
    let mut rest = text;
    while rest.len() >= PAIR_LEN {
        let address = double_word_at(rest, 0);
        let len = double_word_at(rest, 8);
        if is_end(address, len) {
            return Ok(pairs);
        }
        pairs.push((address, len))?;
        rest = rest.split_at(PAIR_LEN).1;
    }
    Err(FdtError::OutOfBounds(Field::Reserve))
}

// Whether this is the pair of zeros.
fn is_end(address: u64, len: u64) -> bool
    ensures { result ≡ ((address == 0) && (len == 0)) }
{
    address == 0 && len == 0
}

#[tactic(auto, unfolding(crate::specs::Reading::double_word_at))]
fn double_word_at(bytes: &[u8], at: usize) -> u64
    requires { at + 8 ≤ length bytes.now }
    ensures { result ≡ double_word_at at bytes.now }
{
    BigEndian::read_u64(&bytes[at..])
}
