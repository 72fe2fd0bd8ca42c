use bb_base::{Bytes, NoMemory, Text, TextList};
use std::alloc::Global;
use std::test::Fail;

// Whether a text stands at a place.
pub(super) fn is_at(texts: &TextList, place: usize, text: &str) -> bool {
    match texts.get(place) {
        Some(found) => found.as_str() == text,
        None => false,
    }
}

// Adds a text, and a copy of another.
fn add_two(alloc: Global, words: &mut TextList) -> Result<(), NoMemory> {
    words.push(Text::of(alloc, "raw")?)?;
    words.push(Text::of(alloc, "-g")?.copy()?)
}

#[test]
fn texts_are_kept(rt: HostRuntime) -> Result<(), Fail> {
    let mut words = TextList::none(rt.alloc());
    assert!(rt; words.is_empty());
    add_two(rt.alloc(), &mut words)?;
    assert_eq!(rt; words.len(), 2);
    assert!(rt; is_at(&words, 1, "-g"));
    assert!(rt; words.get(2).is_none());
    Ok(())
}

#[test]
fn bytes_are_kept(rt: HostRuntime) -> Result<(), Fail> {
    let mut bytes = Bytes::none(rt.alloc());
    bytes.add(b"ab")?;
    bytes.add(b"c")?;
    assert!(rt; bytes.as_slice() == b"abc".as_slice());
    Ok(())
}
