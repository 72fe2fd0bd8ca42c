use bb_fdt::{FdtError, read_blob};
use std::alloc::Global;
use std::test::Fail;

// FDT_BEGIN_NODE with the name `a`.
const BEGIN: [u8; 8] = *b"\0\0\0\x01a\0\0\0";

const END_NODE: [u8; 4] = *b"\0\0\0\x02";

const NOP: [u8; 4] = *b"\0\0\0\x04";

const END: [u8; 4] = *b"\0\0\0\x09";

// A blob with this structure block, at byte 56, and neither reserved pairs nor strings.
fn with_structure(alloc: Global, structure: &[u8]) -> Result<Vec<u8>, Fail> {
    let len = u32::try_from(structure.len()).unwrap_or(u32::MAX);
    let total = len.saturating_add(56);
    let mut bytes = Vec::new(alloc);
    for word in [0xD00D_FEED, total, 56, total, 40, 17, 16, 0, 0, len] {
        bytes.extend_from_slice(&word.to_be_bytes())?;
    }
    bytes.extend_from_slice(&[0; 16])?;
    bytes.extend_from_slice(structure)?;
    Ok(bytes)
}

fn add_times(bytes: &mut Vec<u8>, token: &[u8], times: u32) -> Result<(), Fail> {
    for _ in 0..times {
        bytes.extend_from_slice(token)?;
    }
    Ok(())
}

// A tree of this depth.
fn deep(alloc: Global, levels: u32) -> Result<Vec<u8>, Fail> {
    let mut structure = Vec::new(alloc);
    add_times(&mut structure, &BEGIN, levels)?;
    add_times(&mut structure, &END_NODE, levels)?;
    structure.extend_from_slice(&END)?;
    with_structure(alloc, &structure)
}

#[test]
fn level_32_is_the_deepest(rt: HostRuntime) -> Result<(), Fail> {
    let bytes = deep(rt.alloc(), 32)?;
    assert!(rt; read_blob(rt.alloc(), &bytes).is_ok());
    let bytes = deep(rt.alloc(), 33)?;
    assert_eq!(rt;
        read_blob(rt.alloc(), &bytes).err(),
        Some(FdtError::TooDeep(56 + 32 * 8))
    );
    Ok(())
}

// 1 MiB of FDT_BEGIN_NODE.
#[test]
fn nodes_without_an_end(rt: HostRuntime) -> Result<(), Fail> {
    let mut structure = Vec::new(rt.alloc());
    add_times(&mut structure, &BEGIN, 131_072)?;
    let bytes = with_structure(rt.alloc(), &structure)?;
    assert_eq!(rt;
        read_blob(rt.alloc(), &bytes).err(),
        Some(FdtError::TooDeep(56 + 32 * 8))
    );
    Ok(())
}

#[test]
fn a_million_tokens_without_meaning(rt: HostRuntime) -> Result<(), Fail> {
    let mut structure = Vec::new(rt.alloc());
    add_times(&mut structure, &NOP, 1_000_000)?;
    add_times(&mut structure, &BEGIN, 1)?;
    add_times(&mut structure, &END_NODE, 1)?;
    let bytes = with_structure(rt.alloc(), &structure)?;
    assert_eq!(rt;
        read_blob(rt.alloc(), &bytes).err(),
        Some(FdtError::BadToken(56 + 4_000_012))
    );
    structure.extend_from_slice(&END)?;
    let bytes = with_structure(rt.alloc(), &structure)?;
    assert!(rt; read_blob(rt.alloc(), &bytes).is_ok());
    Ok(())
}
