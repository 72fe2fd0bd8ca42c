ghost use Rattle.std.specs.Prelude.{◌≡◌, IfSome, option_map};
ghost use Rattle.bb_bucket.specs.Seen.{look_with};

use crate::Found;
use bb_flash::Health;

/// What a bucket keeps of the record that it found last, until the next write: where it stands, and
/// a piece of it.
#[derive(Clone, Copy, Debug, PartialEq, Eq)]
pub struct Seen {
    /// Where in the region the record begins, in bytes.
    pub at: u32,
    /// How many bytes the record has.
    pub len: u32,
    /// Where in the record the piece begins, in bytes.
    pub from: u32,
    /// How many bytes the piece has. They are the first of the bucket's memory.
    pub count: u32,
}

/// What a look for a record gives: what it found, and what there is to keep of it.
#[derive(Clone, Copy, Debug, PartialEq, Eq)]
pub struct Look {
    pub found: Found,
    pub seen: Option<Seen>,
}

/// A look that finds no record.
pub const NOTHING: Look = Look {
    found: Found {
        len: None,
        worn: false,
    },
    seen: None,
};

/// What a look gives that saw a record, whose pages are in this health.
pub fn look_with(seen: Seen, health: Health) -> Look
    ensures value { result ≡ look_with seen health }
    ensures seen { IfSome result.seen (λ kept. kept ≡ seen) }
    ensures len { result.found.len ≡ option_map (λ kept. kept.len) result.seen }
{
    match health {
        Health::Fine => Look {
            found: Found {
                len: Some(seen.len),
                worn: false,
            },
            seen: Some(seen),
        },
        Health::Worn => Look {
            found: Found {
                len: Some(seen.len),
                worn: true,
            },
            seen: Some(seen),
        },
        Health::Lost => NOTHING,
    }
}
