ghost use Rattle.std.specs.Prelude.{◌≡◌, ◌<◌, ◌∷◌, [], IfOk, length, replicate};
ghost use Rattle.bb_dtbrec.specs.declared.piece.Piece.TheVariants.{Fixed, Value};
ghost use Rattle.bb_dtbrec.specs.declared.piece.Spelling.TheVariants.{ByteAsCell, NumberAsCell};

mod layouts;

use super::*;
use crate::piece::{Piece, Place, Spelling};
use bb_base::{Bytes, Format, NoMemory, Passed};
use std::alloc::Global;
use std::test::*;

fn bytes(alloc: Global, list: &[u8]) -> Result<Bytes, NoMemory>
    ensures { IfOk result (λ bytes. bytes ≡ list.now) }
{
    let mut bytes = Bytes::none(alloc);
    bytes.add(list)?;
    Ok(bytes)
}

fn value(at: usize, size: usize, spelling: Spelling) -> Piece
    ensures { result ≡ Value (record { at = at; size = size; spelling = spelling }) }
{
    Piece::Value(Place { at, size, spelling })
}

// A byte at 0, a number at 2, and bytes that are always the same.
#[tactic(auto, unfolding(crate::specs::Dtb::are_pieces, crate::specs::Dtb::is_apart, crate::specs::Dtb::pieces_len))]
fn two_variables(alloc: Global) -> Result<Dtb, NoMemory>
    ensures { IfOk result (λ dtb. dtb ≡ record {
      front = replicate 76 7;
      area_len = 6;
      pieces =
          Value (record { at = 0; size = 1; spelling = ByteAsCell })
          ∷ Value (record { at = 2; size = 4; spelling = NumberAsCell })
          ∷ Fixed (101 ∷ 110 ∷ 100 ∷ []) ∷ [];
    }) }
{
    let front = bytes(alloc, &[7; 76])?;
    let end = bytes(alloc, b"end")?;
    let mut pieces = Vec::new(alloc);
    pieces.push(value(0, 1, Spelling::ByteAsCell))?;
    pieces.push(value(2, 4, Spelling::NumberAsCell))?;
    pieces.push(Piece::Fixed(end))?;
    Ok(Dtb::of_pattern(front, pieces, 6))
}

// The record of the area 5, 0, 1, 2, 3, 4. The CRC is zlib's.
fn record() -> [u8; 91] {
    let mut record = [7u8; 91];
    record[76..].copy_from_slice(b"\xa4QV\x8d\x00\x00\x00\x05\x04\x03\x02\x01end");
    record
}

// What every record of these variables passes as.
const PASSED: Option<Passed> = Some(Passed { len: 6, old: false });

#[test]
fn the_worked_record_passes(rt: HostRuntime) -> Result<(), Fail> {
    let dtb = two_variables(rt.alloc()).ok().ok_or("there is memory")?;
    let mut area = [0xFFu8; 6];
    assert_eq!(rt; dtb.reach(), 91);
    assert_eq!(rt; dtb.check(&record(), &mut area), PASSED);
    assert_eq!(rt; area, [5, 0, 1, 2, 3, 4]);
    Ok(())
}

// Checks bytes in pieces of so many bytes.
fn check_by(dtb: &Dtb, bytes: &[u8], size: usize, area: &mut [u8]) -> Option<Passed>
    requires some { 0 < size }
    requires area { length area.old ≡ dtb.now.area_len }
{
    let mut feed = dtb.start();
    for piece in bytes.chunks(size) {
        dtb.feed(&mut feed, piece, area);
    }
    dtb.end(feed, area)
}

#[test]
fn it_passes_in_pieces_of_any_length(rt: HostRuntime) -> Result<(), Fail> {
    let dtb = two_variables(rt.alloc()).ok().ok_or("there is memory")?;
    let mut longer = [9u8; 100];
    longer[..91].copy_from_slice(&record());
    for size in 1..101usize {
        let mut area = [0xFFu8; 6];
        assert_eq!(rt; check_by(&dtb, &longer, size, &mut area), PASSED);
        assert_eq!(rt; area, [5, 0, 1, 2, 3, 4], "in pieces of {size}");
    }
    Ok(())
}

#[tactic(auto, unfolding(crate::specs::Dtb::are_pieces, crate::specs::Dtb::is_apart, crate::specs::Dtb::pieces_len, crate::specs::Dtb::pieces_text, crate::specs::Dtb::with_fields))]
#[test]
fn the_worked_area_is_packed(rt: HostRuntime) -> Result<(), Fail> {
    let dtb = two_variables(rt.alloc()).ok().ok_or("there is memory")?;
    let mut out = [0xFFu8; 91];
    dtb.pack(&[5, 0, 1, 2, 3, 4], &mut out);
    assert_eq!(rt; out, record());
    Ok(())
}

#[test]
fn damaged_records_pass_nothing(rt: HostRuntime) -> Result<(), Fail> {
    let dtb = two_variables(rt.alloc()).ok().ok_or("there is memory")?;
    let mut area = [0u8; 6];
    for place in 0..91usize {
        let mut damaged = record();
        damaged[place] ^= 1;
        assert_eq!(rt;
            check_by(&dtb, &damaged, 7, &mut area),
            None,
            "with byte {place} changed"
        );
    }
    Ok(())
}

#[test]
fn records_that_end_early_pass_nothing(rt: HostRuntime) -> Result<(), Fail> {
    let dtb = two_variables(rt.alloc()).ok().ok_or("there is memory")?;
    let record = record();
    let mut area = [0u8; 6];
    for len in 0..91usize {
        let (cut, _) = record.split_at(len);
        assert_eq!(rt; check_by(&dtb, cut, 7, &mut area), None, "of {len} bytes");
    }
    Ok(())
}
