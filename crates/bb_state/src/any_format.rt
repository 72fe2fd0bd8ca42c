ghost use Rattle.bb_state.specs.Kinds.{any_form, any_format_laws};

use bb_base::{Format, Passed};
use bb_dtbrec::{Dtb, DtbFeed};
use bb_raw::{Raw, RawFeed};

/// A format of any kind: each call is that of the format inside.
#[derive(Drop)]
pub enum AnyFormat {
    /// The raw record.
    Raw(Raw),
    /// The record that is a blob.
    Dtb(Dtb),
}

/// A record of any format that is being checked.
#[derive(Drop)]
pub enum AnyFeed {
    /// The raw record.
    Raw(RawFeed),
    /// The record that is a blob.
    Dtb(DtbFeed),
}

impl Format for AnyFormat {
    ghost use Rattle.bb_state.specs.Feeds.{any_holds};

    type Feed = AnyFeed;

    ghost form = { any_form };

    ghost holds = { any_holds };

    ghost laws = { any_format_laws };

    fn area_len(&self) -> usize {
        match self {
            AnyFormat::Raw(raw) => raw.area_len(),
            AnyFormat::Dtb(dtb) => dtb.area_len(),
        }
    }

    fn reach(&self) -> usize {
        match self {
            AnyFormat::Raw(raw) => raw.reach(),
            AnyFormat::Dtb(dtb) => dtb.reach(),
        }
    }

    fn length(&self, len: usize) -> usize {
        match self {
            AnyFormat::Raw(raw) => raw.length(len),
            AnyFormat::Dtb(dtb) => dtb.length(len),
        }
    }

    fn pack(&self, area: &[u8], out: &mut [u8]) {
        match self {
            AnyFormat::Raw(raw) => raw.pack(area, out),
            AnyFormat::Dtb(dtb) => dtb.pack(area, out),
        }
    }

    fn start(&self) -> AnyFeed {
        match self {
            AnyFormat::Raw(raw) => AnyFeed::Raw(raw.start()),
            AnyFormat::Dtb(dtb) => AnyFeed::Dtb(dtb.start()),
        }
    }

    fn feed(&self, feed: &mut AnyFeed, piece: &[u8], area: &mut [u8]) {
        match self {
            AnyFormat::Raw(raw) => {
                if let AnyFeed::Raw(feed) = feed {
                    raw.feed(feed, piece, area);
                }
            }
            AnyFormat::Dtb(dtb) => {
                if let AnyFeed::Dtb(feed) = feed {
                    dtb.feed(feed, piece, area);
                }
            }
        }
    }

    fn end(&self, feed: AnyFeed, area: &[u8]) -> Option<Passed> {
        match self {
            AnyFormat::Raw(raw) => match feed {
                AnyFeed::Raw(feed) => raw.end(feed, area),
                AnyFeed::Dtb(_) => None,
            },
            AnyFormat::Dtb(dtb) => match feed {
                AnyFeed::Dtb(feed) => dtb.end(feed, area),
                AnyFeed::Raw(_) => None,
            },
        }
    }
}
