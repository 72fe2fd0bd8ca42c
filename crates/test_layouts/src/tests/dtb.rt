use super::board::{self, copies_on, in_blocks, in_place, is_bad_prop, layout_on};
use super::records::has_value;
use bb_layout::{FormatKind, Layout, Storage};
use bb_tree::{Tree, blob_length};
use std::alloc::Global;
use std::test::Fail;

// The record of these variables has 440 bytes, as dtc compiles its text: a root with `bb,crc32`,
// and in it the state node with `compatible`, `magic`, and these nodes, each variable's with one
// cell.
fn two_targets() -> &'static [u8] {
    b"backend-type = \"dtb\";
bootstate {
  system0 {
    remaining_attempts@0 { reg = <0 4>; type = \"uint32\"; default = <3>; };
    priority@4 { reg = <4 4>; type = \"uint32\"; default = <20>; };
  };
  system1 {
    remaining_attempts@8 { reg = <8 4>; type = \"uint32\"; default = <3>; };
    priority@c { reg = <12 4>; type = \"uint32\"; default = <10>; };
  };
  last_chosen@10 { reg = <16 4>; type = \"uint32\"; };
};
"
}

fn strides_of_447() -> &'static [u8] {
    b"/ { state@1 { backend-stridesize = <447>; }; };\n"
}

fn strides_of_448() -> &'static [u8] {
    b"/ { state@1 { backend-stridesize = <448>; }; };\n"
}

fn strides_of_512() -> &'static [u8] {
    b"/ { state@1 { backend-stridesize = <0x200>; }; };\n"
}

fn single_blocks() -> &'static [u8] {
    b"/ { state@1 { backend-storage-type = \"direct\"; }; };\n"
}

fn is_too_small(alloc: Global, more: &[u8], geometry: &str) -> Result<bool, Fail> {
    board::is_too_small(alloc, two_targets(), more, geometry)
}

// How the copies are stored, where the records are blobs.
fn stored(alloc: Global, more: &[u8], geometry: &str) -> Result<Storage, Fail> {
    let copies = copies_on(alloc, two_targets(), more, geometry)?;
    if copies.format != FormatKind::Dtb || copies.copies != 3 {
        return Err(Fail::from("another layout"));
    }
    Ok(copies.storage)
}

#[test]
fn a_blob_of_440_fits_into_strides_of_448(rt: HostRuntime) -> Result<(), Fail> {
    assert!(rt; is_too_small(rt.alloc(), b"", in_place())?);
    assert!(rt; is_too_small(rt.alloc(), strides_of_447(), in_place())?);
    let full = stored(rt.alloc(), strides_of_448(), in_place())?;
    assert_eq!(rt; full, Storage::Stride(448));
    let wide = stored(rt.alloc(), strides_of_512(), in_place())?;
    assert_eq!(rt; wide, Storage::Stride(512));
    Ok(())
}

#[test]
fn a_blob_of_440_fits_into_no_small_block(rt: HostRuntime) -> Result<(), Fail> {
    assert!(rt; is_too_small(rt.alloc(), b"", "er:64:128:1048576")?);
    assert!(rt; is_too_small(rt.alloc(), b"", "er:64:256:1048576")?);
    assert!(rt; is_too_small(rt.alloc(), single_blocks(), "er:64:256:1048576")?);
    let log = stored(rt.alloc(), b"", in_blocks())?;
    assert_eq!(rt; log, Storage::Circular);
    let single = stored(rt.alloc(), single_blocks(), in_blocks())?;
    assert_eq!(rt; single, Storage::OneBlock);
    Ok(())
}

fn record_of_defaults(alloc: Global, layout: &Layout) -> Result<Tree, Fail> {
    if layout.area_len != 20 {
        return Err(Fail::from("another area"));
    }
    let mut area = [7u8; 20];
    layout.defaults(&mut area);
    Ok(Layout::record_tree(alloc, layout, &area)?)
}

fn record(alloc: Global) -> Result<Tree, Fail> {
    let layout = layout_on(alloc, two_targets(), strides_of_512(), in_place())?;
    record_of_defaults(alloc, &layout)
}

#[test]
fn the_record_has_the_length_that_a_layout_counts(rt: HostRuntime) -> Result<(), Fail> {
    let record = record(rt.alloc())?;
    assert_eq!(rt; blob_length(&record), 440);
    let first = "/state@1/bootstate/system0/priority@4";
    assert!(rt; has_value(&record, first, "value", b"\0\0\0\x14"));
    Ok(())
}

fn keyed() -> &'static [u8] {
    b"backend-type = \"dtb\";\nalgo = \"hmac(sha256)\";\nbackend-stridesize = <0x200>;\n"
}

#[test]
fn a_blob_takes_no_key(rt: HostRuntime) -> Result<(), Fail> {
    let keyed = is_bad_prop(rt.alloc(), keyed(), "algo")?;
    assert!(rt; keyed);
    assert!(rt; !FormatKind::Dtb.takes_key());
    assert!(rt; FormatKind::RawHmac.takes_key());
    Ok(())
}
