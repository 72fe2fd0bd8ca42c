ghost use Rattle.std.specs.Prelude.{◌≡◌, ◌≢◌, ◌≤◌, All, AllPairs, IfOk, IfErr, OnOk, map};
ghost use Rattle.bb_base.specs.Form.{area_limit};
ghost use Rattle.bb_layout.specs.Ranges.{AreApart, area_len_of, end_of, greatest_end};
ghost use Rattle.bb_layout.specs.Ranges.{has_same_name, shares_byte, some_pair};
ghost use Rattle.bb_layout.specs.Spans.{has_meeting_spans, span_of};
ghost use Rattle.bb_layout.specs.VarNames.{is_first_of_name};
ghost use Rattle.bb_layout.specs.Variables.{IsWellFormed};
ghost use Rattle.bb_layout.specs.Refusals.{Refuses};

use crate::{LayoutError, VarList};
use bb_base::{AREA_LIMIT, NoMemory};
use std::alloc::Global;

/// The length of the area that the variables take. `NameTwice` where two have one name, else
/// `Overlap` where two share a byte, else `AreaTooLong` where it exceeds `AREA_LIMIT`.
pub(crate) fn area_len(alloc: Global, vars: &VarList) -> Result<u32, LayoutError>
    requires { All IsWellFormed vars.now }
    ensures ok { IfOk result (λ len. area_len_of vars.now ≡ Ok len) }
    ensures refused { IfErr result (Refuses (area_len_of vars.now)) }
    ensures names { OnOk result (AllPairs (λ a b. a.name ≢ b.name) vars.now) }
    ensures apart { OnOk result (AllPairs AreApart vars.now) }
    ensures inside { IfOk result (λ len. All (λ v. end_of v ≤ len) vars.now) }
    ensures short { IfOk result (λ len. len ≤ area_limit) }
{
    if has_name_twice(vars) {
        return Err(LayoutError::NameTwice);
    }
    if has_overlap(alloc, vars)? {
        return Err(LayoutError::Overlap);
    }
    let end = last_end(vars);
    if end > AREA_LIMIT {
        return Err(LayoutError::AreaTooLong);
    }
    Ok(end)
}

// A name stands twice where the first variable of that name is another.
fn has_name_twice(vars: &VarList) -> bool
    ensures { result ≡ some_pair has_same_name vars.now }
{
    for i in 0..vars.len() {
        if !is_first_of_name(vars, i) {
            return true;
        }
    }
    false
}

fn is_first_of_name(vars: &VarList, i: usize) -> bool
    ensures { result ≡ is_first_of_name vars.now i }
{
    let Some(var) = vars.get(i) else {
        return true;
    };
    match vars.find(var.name.as_str()) {
        Some(place) => place == i,
        None => false,
    }
}

fn has_overlap(alloc: Global, vars: &VarList) -> Result<bool, NoMemory>
    requires { All IsWellFormed vars.now }
    ensures { IfOk result (λ overlap. overlap ≡ some_pair shares_byte vars.now) }
{
    let mut spans = spans_of(alloc, vars)?;
    spans.sort_unstable_by_key(|span| span.0);
    Ok(has_meeting_spans(spans.as_slice()))
}

// The first byte of each variable, and its end.
fn spans_of(alloc: Global, vars: &VarList) -> Result<Vec<(u32, u32)>, NoMemory>
    requires { All IsWellFormed vars.now }
    ensures { IfOk result (λ spans. spans.items ≡ map span_of vars.now) }
{
    let mut spans = Vec::new(alloc);
    for var in vars.as_slice() {
        spans.push((var.at, var.at + var.size))?;
    }
    Ok(spans)
}

// Whether one of the spans begins before the one in front of it ends.
fn has_meeting_spans(spans: &[(u32, u32)]) -> bool
    ensures { result ≡ has_meeting_spans spans.now }
{
    let Some((first, rest)) = spans.split_first() else {
        return false;
    };
    let mut end = first.1;
    for span in rest {
        if span.0 < end {
            return true;
        }
        end = span.1;
    }
    false
}

fn last_end(vars: &VarList) -> u32
    requires { All IsWellFormed vars.now }
    ensures { result ≡ greatest_end vars.now }
{
    let mut end = 0;
    for var in vars.as_slice() {
        end = end.max(var.at + var.size);
    }
    end
}
