// What a boot meets: contents of the copies on each kind of storage, with the calls that it makes.
use super::areas::Content;
use super::devices::Kind;

// The attempts of the two systems, and the place of the one that was chosen last.
pub(super) type Table = (u8, u8, u8);

// A content of the copies, the table that a load gives of it, how many rounds were run from the
// full table to the one that the boot begins with, and the calls that a boot makes of the flash:
// reads, and programs and erases by the load, by the first round, and by each further one.
#[derive(Clone, Copy)]
pub(super) struct Row {
    pub kind: Kind,
    pub copies: [&'static [Content]; 3],
    pub loaded: Table,
    pub rounds: u32,
    pub reads: u32,
    pub mends: u32,
    pub first: u32,
    pub further: u32,
}

// The table after so many rounds from the full one.
pub(super) fn table_after(rounds: u32) -> Table {
    match rounds {
        0 => (3, 3, 0),
        1 => (2, 3, 1),
        2 => (1, 3, 1),
        3 => (0, 3, 1),
        4 => (0, 2, 2),
        5 => (0, 1, 2),
        _ => (0, 0, 2),
    }
}

pub(super) fn area_of(table: Table) -> [u8; 20] {
    let (first, second, chosen) = table;
    let mut area =
        *b"\x00\x00\x00\x00\x14\x00\x00\x00\x00\x00\x00\x00\x0a\x00\x00\x00\x00\x00\x00\x00";
    area[0] = first;
    area[8] = second;
    area[16] = chosen;
    area
}

// Nothing was ever stored: of each stride the front is read.
pub(super) fn fresh_strides() -> Row {
    Row {
        kind: Kind::Stride,
        copies: [&[], &[], &[]],
        loaded: table_after(0),
        rounds: 0,
        reads: 3,
        mends: 0,
        first: 3,
        further: 3,
    }
}

// A front and a record are read of each stride.
pub(super) fn full_strides() -> Row {
    Row {
        copies: [&[Content::Full], &[Content::Full], &[Content::Full]],
        reads: 6,
        ..fresh_strides()
    }
}

// The first stride passes, and the load writes the others.
pub(super) fn strides_of_three_kinds() -> Row {
    Row {
        copies: [&[Content::OneSpent], &[Content::Full], &[]],
        loaded: table_after(1),
        rounds: 1,
        reads: 5,
        mends: 2,
        ..fresh_strides()
    }
}

// The last stride alone passes.
pub(super) fn last_stride() -> Row {
    Row {
        copies: [&[], &[], &[Content::Full]],
        reads: 4,
        mends: 2,
        ..fresh_strides()
    }
}

// No attempt is left, so all come back.
pub(super) fn empty_strides() -> Row {
    Row {
        copies: [&[Content::Empty], &[Content::Empty], &[Content::Empty]],
        loaded: (0, 0, 0),
        reads: 6,
        ..fresh_strides()
    }
}

// The same in blocks, where each write is an erase and a program.
pub(super) fn in_blocks(row: Row) -> Row {
    Row {
        kind: Kind::OneBlock,
        mends: row.mends.saturating_mul(2),
        first: 6,
        further: 6,
        ..row
    }
}

// Of a log the pages are read from the last one down to one that isn't blank, and then the entry.
// Eight pages of each are blank.
pub(super) fn fresh_logs() -> Row {
    Row {
        kind: Kind::Log,
        reads: 24,
        ..fresh_strides()
    }
}

// Four pages are blank after two entries.
pub(super) fn full_logs() -> Row {
    Row {
        kind: Kind::Log,
        copies: [
            &[Content::Empty, Content::Full],
            &[Content::Empty, Content::Full],
            &[Content::Empty, Content::Full],
        ],
        reads: 18,
        ..fresh_strides()
    }
}

pub(super) fn logs_of_three_kinds() -> Row {
    Row {
        kind: Kind::Log,
        copies: [
            &[Content::Full, Content::OneSpent],
            &[Content::Empty, Content::Full],
            &[],
        ],
        reads: 20,
        ..strides_of_three_kinds()
    }
}

pub(super) fn last_log() -> Row {
    Row {
        kind: Kind::Log,
        copies: [&[], &[], &[Content::Empty, Content::Full]],
        reads: 22,
        ..last_stride()
    }
}

// No entry fits after the fourth, so the first round erases the blocks.
pub(super) fn logs_without_room() -> Row {
    Row {
        kind: Kind::Log,
        copies: [
            &[
                Content::Full,
                Content::OneSpent,
                Content::TwoSpent,
                Content::Empty,
            ],
            &[
                Content::Full,
                Content::OneSpent,
                Content::TwoSpent,
                Content::Empty,
            ],
            &[
                Content::Full,
                Content::OneSpent,
                Content::TwoSpent,
                Content::Empty,
            ],
        ],
        first: 6,
        ..empty_strides()
    }
}
