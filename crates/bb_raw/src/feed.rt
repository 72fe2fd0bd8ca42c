ghost use Rattle.std.specs.Prelude.{◌≡◌, ◌-◌, ◌≤◌, ◌++◌, ℕ, List, drop, length, take};
ghost use Rattle.bb_base.specs.Form.{area_limit};
ghost use Rattle.bb_raw.specs.Feeding.{KeepsFed, laid_over};

use crate::raw::HEADER_LEN;

/// A raw record that is being checked: what of it stands before the area and after it. The area's
/// bytes stand in their place in the area.
#[derive(Debug, Drop)]
pub struct RawFeed {
    pub(crate) header: [u8; 16],
    pub(crate) code: [u8; 32],
    // how many bytes of the record came
    pub(crate) count: usize,
}

/// Takes the next bytes of a record in, whose code has `code_len` bytes.
pub(crate) fn take_in(feed: &mut RawFeed, code_len: usize, piece: &[u8], area: &mut [u8])
    requires code { code_len ≤ 32 }
    requires small { length area.old ≤ area_limit }
    ensures held { (fed : List ℕ)
        → KeepsFed (feed.old.header ++ (area.old ++ take code_len feed.old.code)) feed.old.count fed
        → KeepsFed (feed.new.header ++ (area.new ++ take code_len feed.new.code)) feed.new.count
        (fed ++ piece.now) }
    ensures len { length area.new ≡ length area.old }
{
    let at = feed.count;
    let code_at = HEADER_LEN + area.len();
    lay_over(&mut feed.header, 0, at, piece);
    lay_over(area, HEADER_LEN, at, piece);
    lay_over(&mut feed.code[..code_len], code_at, at, piece);
    feed.count = at.saturating_add(piece.len()).min(code_at + code_len);
}

// Lays bytes of a record, which stand in it from the place `at` on, over a part of it, which begins
// at `start`.
fn lay_over(part: &mut [u8], start: usize, at: usize, piece: &[u8])
    ensures { part.new ≡ laid_over (at - start) (drop (start - at) piece.now) part.old }
{
    let skipped = start.saturating_sub(at).min(piece.len());
    lay(part, at.saturating_sub(start), &piece[skipped..]);
}

#[tactic(auto, using(crate::proofs::Overlay::laid_is))]
fn lay(part: &mut [u8], from: usize, piece: &[u8])
    ensures { part.new ≡ laid_over from piece.now part.old }
{
    if from < part.len() {
        let len = piece.len().min(part.len() - from);
        part[from..from + len].copy_from_slice(&piece[..len]);
    }
}
