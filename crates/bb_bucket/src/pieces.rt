ghost use Rattle.std.specs.Prelude.{◌≡◌, ◌≤◌, ◌<◌, ◌+◌, ◌-◌, ◌^◌, IfOk, OnOk, drop, is_err};
ghost use Rattle.std.specs.Prelude.{length, take};
ghost use Rattle.std.specs.Option.{ForSome};
ghost use Rattle.bb_base.specs.Faults.{counted};
ghost use Rattle.bb_flash.specs.Device.{content};
ghost use Rattle.bb_flash.specs.Image.{worse_of};
ghost use Rattle.bb_bucket.specs.Calls.{IsQuiet};
ghost use Rattle.bb_bucket.specs.Kind.{LiesOn, part_of};
ghost use Rattle.bb_bucket.specs.Seen.{IsReadThrough, IsReadable, IsSeenIn};

use crate::parts::read_part;
use crate::seen::Seen;
use bb_base::Failed;
use bb_flash::{Flash, Health, Region};

// In bytes: the most that is read at once, where a page isn't larger.
const PIECE_LEN: u32 = 256;

/// What a record gave that was read in pieces.
#[derive(Clone, Copy, Debug, PartialEq, Eq)]
pub struct Pieces {
    /// How its pages are: as the worst of them.
    pub health: Health,
    /// What there is to keep: the last piece.
    pub seen: Seen,
}

/// Reads the bytes of a record at a place of a region, for their health, in pieces of at most 256
/// bytes, or a page where that is larger. The last piece is then at the front of `memory`.
pub fn read_pieces<F: Flash>(
    flash: &mut F,
    region: Region,
    at: u32,
    len: u32,
    memory: &mut [u8],
) -> Result<Pieces, Failed>
    requires lies { LiesOn (F.device flash.old).geometry region }
    requires small { region.at + region.size < 2 ^ 32 }
    requires within { at + len ≤ region.size }
    requires memory { 0 < length memory.old }
    ensures done { IfOk result (λ pieces. ForSome (content (F.device flash.old)) (λ image.
        IsReadThrough (F.device flash.old).geometry.page
        (part_of (F.device flash.old).geometry.page region image)
        region.size at len memory.new pieces)) }
    ensures len { IfOk result (λ pieces. pieces.seen.len ≡ len) }
    ensures seen { IfOk result (λ pieces. IsSeenIn at len (length memory.old) pieces.seen) }
    ensures memory { length memory.new ≡ length memory.old }
    ensures quiet { IsQuiet (F.device flash.old) (F.device flash.new) }
    ensures faults { (F.device flash.new).faults
        ≡ counted (is_err result) (F.device flash.old).faults }
    ensures read_faults { (F.device flash.new).read_faults
        ≡ counted (is_err result) (F.device flash.old).read_faults }
{
    let most = piece_len(flash.geometry().page, memory);
    let mut health = Health::Fine;
    let mut from = 0;
    let mut end = 0;
    while end < len {
        let count = most.min(len - end);
        let next = read_part(flash, region, at + end, &mut memory[..count as usize])?;
        health = worse(health, next);
        from = end;
        end += count;
    }
    let count = end - from;
    Ok(Pieces {
        health,
        seen: Seen {
            at,
            len,
            from,
            count,
        },
    })
}

// How many bytes are read at once, at most: the memory holds them.
fn piece_len(page: u32, memory: &[u8]) -> u32
    requires { 0 < length memory.now }
    ensures some { 0 < result }
    ensures held { result ≤ length memory.now }
{
    let most = PIECE_LEN.max(page);
    if memory.len() < most as usize {
        memory.len() as u32
    } else {
        most
    }
}

fn worse(one: Health, other: Health) -> Health
    ensures { result ≡ worse_of one other }
{
    match one {
        Health::Fine => other,
        Health::Lost => Health::Lost,
        Health::Worn => match other {
            Health::Lost => Health::Lost,
            Health::Fine | Health::Worn => Health::Worn,
        },
    }
}

/// Gives bytes of a record that was seen in a region, from the one at `from` on: out of the piece
/// in front of `memory` where they are of it, or else by one read.
pub fn give_part<F: Flash>(
    flash: &mut F,
    region: Region,
    seen: Seen,
    memory: &[u8],
    from: u32,
    out: &mut [u8],
) -> Result<(), Failed>
    requires lies { LiesOn (F.device flash.old).geometry region }
    requires small { region.at + region.size < 2 ^ 32 }
    requires within { seen.at + seen.len ≤ region.size }
    requires reaches { from + length out.old ≤ seen.len }
    requires inside { IsSeenIn seen.at seen.len (length memory.now) seen }
    requires readable { ForSome (content (F.device flash.old)) (λ image.
        IsReadable (F.device flash.old).geometry.page
        (part_of (F.device flash.old).geometry.page region image) memory.now seen) }
    ensures done { OnOk result (ForSome (content (F.device flash.old)) (λ image.
        out.new ≡ take (length out.old) (drop (seen.at + from)
        (part_of (F.device flash.old).geometry.page region image).bytes))) }
    ensures len { length out.new ≡ length out.old }
    ensures quiet { IsQuiet (F.device flash.old) (F.device flash.new) }
    ensures faults { (F.device flash.new).faults
        ≡ counted (is_err result) (F.device flash.old).faults }
    ensures read_faults { (F.device flash.new).read_faults
        ≡ counted (is_err result) (F.device flash.old).read_faults }
{
    let _ = flash.geometry();
    let end = from + out.len() as u32;
    if seen.from <= from && end <= seen.from + seen.count {
        copy_from(memory, from - seen.from, out);
        Ok(())
    } else {
        read_part(flash, region, seen.at + from, out)?;
        Ok(())
    }
}

fn copy_from(memory: &[u8], from: u32, out: &mut [u8])
    requires { from + length out.old ≤ length memory.now }
    ensures { out.new ≡ take (length out.old) (drop from memory.now) }
{
    let from = from as usize;
    out.copy_from_slice(&memory[from..from + out.len()]);
}
