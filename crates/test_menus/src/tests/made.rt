// Two hundred versions that a generator makes.
use super::rig::entry;
use bb_base::{Bytes, NoMemory};
use bb_bls::Entry;
use bb_menu::before;
use std::alloc::Global;
use std::test::Fail;

const COUNT: usize = 200;

const CHARACTERS: [char; 12] = ['0', '1', '9', 'a', 'B', 'z', '~', '-', '^', '.', '_', '+'];

// The generator that the drill has.
fn drawn(state: u64, most: u64) -> (u64, u64) {
    let next = state
        .wrapping_mul(6_364_136_223_846_793_005)
        .wrapping_add(1_442_695_040_888_963_407);
    (next, (next >> 33) % most.max(1))
}

fn character(number: u64) -> char {
    CHARACTERS[number as usize % 12]
}

// A version of up to 8 characters, and the state after it.
fn version(alloc: Global, state: u64) -> Result<(u64, String), Fail> {
    let mut text = String::new(alloc);
    let (mut state, len) = drawn(state, 9);
    for _ in 0..len {
        let (next, number) = drawn(state, 12);
        state = next;
        text.push(character(number))?;
    }
    Ok((state, text))
}

// What a key is in the midst of.
#[derive(Clone, Copy)]
enum Run {
    Nothing,
    Letters,
    Digits(u32),
}

// Bytes that compare as versions do: a byte for the kind of each token, then letters up to a zero,
// or a number in four bytes. No version made here has more than eight digits in a run.
fn key_of(alloc: Global, version: &str) -> Result<Bytes, NoMemory> {
    let mut key = Bytes::none(alloc);
    let mut run = Run::Nothing;
    for c in version.as_bytes() {
        run = with_character(&mut key, run, *c)?;
    }
    end_run(&mut key, run)?;
    key.add(b"\x02")?;
    Ok(key)
}

fn with_character(key: &mut Bytes, run: Run, c: u8) -> Result<Run, NoMemory> {
    match run {
        Run::Letters if c.is_ascii_alphabetic() => {
            key.add(&[c])?;
            Ok(run)
        }
        Run::Digits(number) if c.is_ascii_digit() => {
            let digit = u32::from(c.wrapping_sub(b'0'));
            Ok(Run::Digits(number.wrapping_mul(10).wrapping_add(digit)))
        }
        _ => {
            end_run(key, run)?;
            begin_run(key, c)
        }
    }
}

fn end_run(key: &mut Bytes, run: Run) -> Result<(), NoMemory> {
    match run {
        Run::Nothing => Ok(()),
        Run::Letters => key.add(&[0]),
        Run::Digits(number) => {
            key.add(&[7])?;
            key.add(&number.to_be_bytes())
        }
    }
}

fn begin_run(key: &mut Bytes, c: u8) -> Result<Run, NoMemory> {
    match c {
        b'0'..=b'9' => return Ok(Run::Digits(u32::from(c.wrapping_sub(b'0')))),
        b'A'..=b'Z' | b'a'..=b'z' => {
            key.add(&[6, c])?;
            return Ok(Run::Letters);
        }
        b'~' => key.add(&[1])?,
        b'-' => key.add(&[3])?,
        b'^' => key.add(&[4])?,
        b'.' => key.add(&[5])?,
        _ => {}
    }
    Ok(Run::Nothing)
}

// An entry with a made version and nothing else to compare, the version's key, and a file's name.
#[derive(Drop)]
struct Made {
    entry: Entry,
    key: Bytes,
    name: String,
}

fn made_entries(alloc: Global) -> Result<Vec<Made>, Fail> {
    let mut all = Vec::new(alloc);
    let mut state = 20;
    for place in 0..COUNT {
        let (next, text) = version(alloc, state)?;
        state = next;
        all.push(Made {
            entry: entry(alloc, "s", "", text.as_str())?,
            key: key_of(alloc, text.as_str())?,
            name: format!(in alloc; "n{place}.conf")?,
        })?;
    }
    Ok(all)
}

// Of each two the one with the greater key stands in front, and of equal ones the later one, whose
// name is the greater. So the order is that of pairs of a key and a place, which is total and
// passes on.
#[test]
fn the_order_is_that_of_the_keys(rt: HostRuntime) -> Result<(), Fail> {
    let all = made_entries(rt.alloc())?;
    let mut greater = 0u32;
    for (place, a) in all.iter().enumerate() {
        for (other, b) in all.iter().enumerate() {
            let wanted = (a.key.as_slice(), place) > (b.key.as_slice(), other);
            let stands = before(&a.entry, a.name.as_str(), &b.entry, b.name.as_str());
            assert_eq!(rt; stands, wanted, "{place} and {other}");
            if a.key.as_slice() > b.key.as_slice() {
                greater = greater.saturating_add(1);
            }
        }
    }
    // Most of the 19,900 pairs differ in their versions.
    assert!(rt; greater > 19_000);
    Ok(())
}
