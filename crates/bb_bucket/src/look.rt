ghost use Rattle.std.specs.Prelude.{◌≡◌, ◌≤◌, ◌<◌, ◌+◌, ◌-◌, ◌^◌, IfOk, IfSome, IsTrue};
ghost use Rattle.std.specs.Prelude.{OnOk, is_err, length, option_map};
ghost use Rattle.std.specs.Option.{ForSome};
ghost use Rattle.bb_base.specs.Faults.{counted};
ghost use Rattle.bb_flash.specs.Device.{content};
ghost use Rattle.bb_bucket.specs.Calls.{IsPieceOf, IsQuiet, Reaches};
ghost use Rattle.bb_bucket.specs.Front.{front_candidate, front_is_worn, is_lost};
ghost use Rattle.bb_bucket.specs.Front.{stride_header_len};
ghost use Rattle.bb_bucket.specs.Kind.{LiesOn, part_of};
ghost use Rattle.bb_bucket.specs.Seen.{IsLookOf, IsSeenIn, is_sight_of, sight_in};

use crate::entry::{FRONT_LEN, record_len};
use crate::parts::read_part;
use crate::pieces::{give_part, read_pieces};
use crate::seen::{Look, NOTHING, Seen, look_with};
use bb_base::Failed;
use bb_flash::{Flash, Health, Region};

#[tactic(auto, using(crate::proofs::Quiet::quiet_joined))]
/// Looks for the record of a region that begins with a front: one read of the front, and one of
/// each piece of the record. What is kept of it stands at the front of `memory`.
pub(crate) fn find_record<F: Flash>(
    flash: &mut F,
    region: Region,
    memory: &mut Vec<u8>,
) -> Result<Look, Failed>
    requires lies { LiesOn (F.device flash.old).geometry region }
    requires small { region.at + region.size < 2 ^ 32 }
    requires least { stride_header_len ≤ region.size }
    requires memory { 0 < length memory.old.items }
    ensures done { IfOk result (λ look. ForSome (content (F.device flash.old)) (λ image.
        let page = (F.device flash.old).geometry.page in
        let part = part_of page region image in
        IsLookOf (front_candidate page part) (front_is_worn page part)
        memory.new.items look)) }
    ensures len { IfOk result (λ look.
        look.found.len ≡ option_map (λ seen. seen.len) look.seen) }
    ensures inside { IfOk result (λ look. IfSome look.seen
        (IsSeenIn stride_header_len (region.size - stride_header_len)
        (length memory.old.items))) }
    ensures memory { length memory.new.items ≡ length memory.old.items }
    ensures quiet { IsQuiet (F.device flash.old) (F.device flash.new) }
    ensures faults { (F.device flash.new).faults
        ≡ counted (is_err result) (F.device flash.old).faults }
    ensures read_faults { (F.device flash.new).read_faults
        ≡ counted (is_err result) (F.device flash.old).read_faults }
{
    let mut front = [0u8; FRONT_LEN as usize];
    let front_health = read_part(flash, region, 0, &mut front)?;
    if is_lost(front_health) {
        return Ok(NOTHING);
    }
    let Some(len) = record_len(region.size, &front) else {
        return Ok(NOTHING);
    };
    let pieces = read_pieces(flash, region, FRONT_LEN, len, memory)?;
    Ok(look_with(pieces.seen, pieces.health))
}

/// Gives bytes of the record that a look found in a region that begins with a front, from the one
/// at `from` on.
pub(crate) fn front_part<F: Flash>(
    flash: &mut F,
    region: Region,
    seen: Option<Seen>,
    memory: &Vec<u8>,
    from: u32,
    out: &mut [u8],
) -> Result<(), Failed>
    requires lies { LiesOn (F.device flash.old).geometry region }
    requires small { region.at + region.size < 2 ^ 32 }
    requires least { stride_header_len ≤ region.size }
    requires inside { IfSome seen (IsSeenIn stride_header_len (region.size - stride_header_len)
        (length memory.now.items)) }
    requires reaches { Reaches (option_map (λ s. s.len) seen) (from + length out.old) }
    requires agreed { ForSome (content (F.device flash.old)) (λ image.
        let page = (F.device flash.old).geometry.page in
        IsTrue (is_sight_of (sight_in memory.now.items seen)
        (front_candidate page (part_of page region image)))) }
    ensures done { OnOk result (ForSome (content (F.device flash.old)) (λ image.
        let page = (F.device flash.old).geometry.page in
        IsPieceOf (front_candidate page (part_of page region image)) from out.new)) }
    ensures quiet { IsQuiet (F.device flash.old) (F.device flash.new) }
    ensures faults { (F.device flash.new).faults
        ≡ counted (is_err result) (F.device flash.old).faults }
    ensures read_faults { (F.device flash.new).read_faults
        ≡ counted (is_err result) (F.device flash.old).read_faults }
{
    let Some(seen) = seen else { unreachable!() };
    give_part(flash, region, seen, memory, from, out)
}

fn is_lost(health: Health) -> bool
    ensures { result ≡ is_lost health }
{
    matches!(health, Health::Lost)
}
