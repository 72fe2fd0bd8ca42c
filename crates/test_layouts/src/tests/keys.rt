use super::board::{Copies, copies_on, in_place, is_bad_prop, is_too_small};
use bb_layout::{FormatKind, Storage};
use std::test::Fail;

// An area of 20 bytes under a key: a front of 8 bytes, 16 bytes and the area, and an HMAC of 32.
fn stride_of_76() -> &'static [u8] {
    b"algo = \"hmac(sha256)\";
backend-stridesize = <76>;
a@10 { reg = <16 4>; type = \"uint32\"; };
"
}

fn stride_of_75() -> &'static [u8] {
    b"algo = \"hmac(sha256)\";
backend-stridesize = <75>;
a@10 { reg = <16 4>; type = \"uint32\"; };
"
}

fn no_key() -> &'static [u8] {
    b"backend-stridesize = <75>;
a@10 { reg = <16 4>; type = \"uint32\"; };
"
}

#[test]
fn a_key_takes_32_bytes_more(rt: HostRuntime) -> Result<(), Fail> {
    let strides = Copies {
        format: FormatKind::RawHmac,
        storage: Storage::Stride(76),
        copies: 3,
        last: 131_224,
        area_len: 20,
    };
    let keyed = copies_on(rt.alloc(), stride_of_76(), b"", in_place())?;
    assert_eq!(rt; keyed, strides);
    assert!(rt; is_too_small(rt.alloc(), stride_of_75(), b"", in_place())?);
    let plain = copies_on(rt.alloc(), no_key(), b"", in_place())?;
    assert_eq!(rt; plain.format, FormatKind::Raw);
    Ok(())
}

// In a log of pages of 64 bytes an entry of an area of 16 bytes has one page without a key, and two
// with one.
fn log_without_key() -> &'static [u8] {
    b"a@c { reg = <12 4>; type = \"uint32\"; };
"
}

fn log_with_key() -> &'static [u8] {
    b"algo = \"hmac(sha256)\";
a@c { reg = <12 4>; type = \"uint32\"; };
"
}

fn three_small_blocks() -> &'static [u8] {
    b"&p { reg = <0 192>; };\n"
}

fn two_larger_blocks() -> &'static [u8] {
    b"&p { reg = <0 256>; };\n"
}

fn plain_logs() -> Copies {
    Copies {
        format: FormatKind::Raw,
        storage: Storage::Circular,
        copies: 3,
        last: 128,
        area_len: 16,
    }
}

fn keyed_logs() -> Copies {
    Copies {
        format: FormatKind::RawHmac,
        storage: Storage::Circular,
        copies: 2,
        last: 128,
        area_len: 16,
    }
}

fn small() -> &'static str {
    "er:64:64:1024"
}

fn larger() -> &'static str {
    "er:64:128:1024"
}

#[test]
fn an_entry_under_a_key_has_a_page_more(rt: HostRuntime) -> Result<(), Fail> {
    let plain = copies_on(rt.alloc(), log_without_key(), three_small_blocks(), small())?;
    assert_eq!(rt; plain, plain_logs());
    let refused = is_too_small(rt.alloc(), log_with_key(), three_small_blocks(), small())?;
    assert!(rt; refused);
    let keyed = copies_on(rt.alloc(), log_with_key(), two_larger_blocks(), larger())?;
    assert_eq!(rt; keyed, keyed_logs());
    Ok(())
}

fn another_hash() -> &'static [u8] {
    b"algo = \"hmac(sha1)\";\n"
}

fn no_hmac() -> &'static [u8] {
    b"algo = \"sha256\";\n"
}

fn unended() -> &'static [u8] {
    b"algo = [68 6d 61 63 28 73 68 61 32 35 36 29];\n"
}

fn two() -> &'static [u8] {
    b"algo = \"hmac(sha256)\", \"hmac(sha256)\";\n"
}

#[test]
fn another_algo_is_refused(rt: HostRuntime) -> Result<(), Fail> {
    assert!(rt; is_bad_prop(rt.alloc(), another_hash(), "algo")?);
    assert!(rt; is_bad_prop(rt.alloc(), no_hmac(), "algo")?);
    assert!(rt; is_bad_prop(rt.alloc(), b"algo;\n", "algo")?);
    assert!(rt; is_bad_prop(rt.alloc(), unended(), "algo")?);
    assert!(rt; is_bad_prop(rt.alloc(), two(), "algo")?);
    Ok(())
}
