ghost use Rattle.std.specs.Prelude.{◌≡◌, ◌==◌, IfOk, length, map, not};
ghost use Rattle.bb_bls.specs.Entry.{last_of, pairs_of, values_of};
ghost use Rattle.bb_bls.specs.References.{text_pair};

use crate::line::key_and_value;
use bb_base::{NoMemory, Text};
use std::alloc::Global;

/// The keys and values of the lines that have both.
pub(crate) fn pairs_in(alloc: Global, text: &str) -> Result<Vec<(&str, &str)>, NoMemory>
    ensures { IfOk result (λ pairs. map text_pair pairs.items ≡ pairs_of text.now) }
{
    let mut pairs = Vec::new(alloc);
    for line in text.lines() {
        if let Some(pair) = key_and_value(line) {
            pairs.push(pair)?;
        }
    }
    Ok(pairs)
}

/// Whether the key has a value.
pub(crate) fn has_key(pairs: &[(&str, &str)], key: &str) -> bool
    ensures { result ≡ not (length (values_of key.now (map text_pair pairs.now)) == 0) }
{
    pairs.iter().any(|pair| pair.0 == key)
}

/// The values of the key, in order.
pub(crate) fn values<'t>(
    alloc: Global,
    pairs: &[(&'t str, &'t str)],
    key: &str,
) -> Result<Vec<&'t str>, NoMemory>
    ensures { IfOk result (λ values.
        map (λ v. v.now) values.items ≡ values_of key.now (map text_pair pairs.now)) }
{
    let mut values = Vec::new(alloc);
    for i in 0..pairs.len() {
        let (found, value) = pairs[i];
        if found == key {
            values.push(value)?;
        }
    }
    Ok(values)
}

/// The last value of the key, empty where there is none.
pub(crate) fn last_value(alloc: Global, pairs: &[(&str, &str)], key: &str) -> Result<Text, NoMemory>
    ensures { IfOk result (λ last. last ≡ last_of key.now (map text_pair pairs.now)) }
{
    let values = values(alloc, pairs, key)?;
    Text::of(alloc, values.as_slice().last().copied().unwrap_or(""))
}
