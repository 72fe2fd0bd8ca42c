ghost use Rattle.std.specs.Prelude.{◌≡◌, ◌<◌, ◌↔◌, ◌⊎◌, [], IfOk, IfErr, IsTrue, codes, length};
ghost use Rattle.std.specs.Prelude.{map, Ok, Err};
ghost use Rattle.bb_bls.specs.Entry.{IsShortNoText, IsShortText, Refuses, entry_in, entry_of};
ghost use Rattle.bb_bls.specs.Entry.{entry_with, lacks_linux, pairs_of, values_of};
ghost use Rattle.bb_bls.specs.References.{text_pair};

use crate::EntryError;
use crate::pairs::{has_key, last_value, pairs_in, values};
use crate::values::{copy_values, join_values};
use bb_base::{NoMemory, Text, TextList};
use std::alloc::Global;
use std::str;

// In bytes.
const MOST_LEN: usize = 65_536;

/// A boot entry, as the keys of the Boot Loader Specification (UAPI.1) say it. A key that isn't
/// there is empty.
#[derive(Debug, Drop)]
pub struct Entry {
    pub title: Text,
    pub version: Text,
    /// The key `machine-id`.
    pub machine_id: Text,
    /// The key `sort-key`.
    pub sort_key: Text,
    pub architecture: Text,
    /// The kernel's file.
    pub linux: Text,
    /// The values of all lines `options`, joined by one space.
    pub options: Text,
    /// The devicetree's file.
    pub devicetree: Text,
    /// The file of each line `initrd`, in order.
    pub initrds: TextList,
}

/// Reads a boot entry: a key at the front of each line, and its value after spaces and tabs. Of a
/// repeated key the last value counts, but for `initrd` and `options`. Other keys and lines without
/// a value are passed over.
pub fn read_entry(alloc: Global, text: &[u8]) -> Result<Entry, EntryError>
    ensures ok { IfOk result (λ entry. entry_of text.now ≡ Ok entry) }
    ensures refused { IfErr result (Refuses (entry_of text.now)) }
    ensures too_long { (result ≡ Err EntryError.TooLong) ↔ (65536 < length text.now) }
    ensures not_text { (result ≡ Err EntryError.NotText) ↔ IsShortNoText text.now }
    ensures no_linux { result ≡ Err EntryError.NoLinux
        → values_of (codes "linux") (pairs_of text.now) ≡ [] }
{
    let text = as_text(text)?;
    entry_in(alloc, text)
}

fn as_text(bytes: &[u8]) -> Result<&str, EntryError>
    ensures ok { IfOk result (λ text. (text.now ≡ bytes.now) × IsShortText bytes.now) }
    ensures refused { IfErr result (λ e.
        ((e ≡ EntryError.TooLong) × (65536 < length bytes.now))
        ⊎ ((e ≡ EntryError.NotText) × IsShortNoText bytes.now)) }
{
    if bytes.len() > MOST_LEN {
        return Err(EntryError::TooLong);
    }
    let Ok(text) = str::from_utf8(bytes) else {
        return Err(EntryError::NotText);
    };
    Ok(text)
}

fn entry_in(alloc: Global, text: &str) -> Result<Entry, EntryError>
    ensures ok { IfOk result (λ entry. entry_in (pairs_of text.now) ≡ Ok entry) }
    ensures refused { IfErr result (λ e.
        (e ≡ EntryError.NoMemory)
        ⊎ ((e ≡ EntryError.NoLinux) × IsTrue (lacks_linux (pairs_of text.now)))) }
{
    let pairs = pairs_in(alloc, text)?;
    if !has_key(pairs.as_slice(), "linux") {
        return Err(EntryError::NoLinux);
    }
    Ok(entry_with(alloc, pairs.as_slice())?)
}

fn entry_with(alloc: Global, pairs: &[(&str, &str)]) -> Result<Entry, NoMemory>
    ensures { IfOk result (λ entry. entry ≡ entry_with (map text_pair pairs.now)) }
{
    Ok(Entry {
        title: last_value(alloc, pairs, "title")?,
        version: last_value(alloc, pairs, "version")?,
        machine_id: last_value(alloc, pairs, "machine-id")?,
        sort_key: last_value(alloc, pairs, "sort-key")?,
        architecture: last_value(alloc, pairs, "architecture")?,
        linux: last_value(alloc, pairs, "linux")?,
        options: join_values(alloc, values(alloc, pairs, "options")?.as_slice())?,
        devicetree: last_value(alloc, pairs, "devicetree")?,
        initrds: copy_values(alloc, values(alloc, pairs, "initrd")?.as_slice())?,
    })
}
