use bb_fdt::{FdtError, Field};

// What is read of a changed blob: the names and values in it begin where they stood.
#[derive(Clone, Copy, Debug, PartialEq, Eq)]
pub struct Parts {
    /// How many bytes the root's value has, from byte 96 on.
    pub root_len: usize,
    /// Where the child's property has its name, of one byte.
    pub name_at: usize,
    /// How many bytes its value has, from byte 120 on.
    pub child_len: usize,
}

pub type Answer = Result<Parts, FdtError>;

// What the blob gives as it stands.
pub const WORKED: Parts = Parts {
    root_len: 4,
    name_at: 138,
    child_len: 2,
};

const NOT_BLOB: Answer = Err(FdtError::NotBlob);

const VERSION: Answer = Err(FdtError::Version);

const TOTAL: Answer = Err(FdtError::OutOfBounds(Field::Total));

const STRUCT: Answer = Err(FdtError::OutOfBounds(Field::Struct));

const STRINGS: Answer = Err(FdtError::OutOfBounds(Field::Strings));

const RESERVE: Answer = Err(FdtError::OutOfBounds(Field::Reserve));

const SAME: Answer = Ok(WORKED);

// The answer where the byte at this place gets another value, by the field that it belongs to. The
// values are 0, 1, 0x7F, 0x80 and 0xFF.
pub fn answer(place: usize, value: u8) -> Answer {
    match place {
        0..=19 => place_answer(place, value),
        20..=39 => size_answer(place, value),
        // the reserved pair, and the pair of zeros, without which the list goes on past the end
        40..=55 => SAME,
        56..=71 => RESERVE,
        72..=99 => root_answer(place, value),
        100..=123 => child_answer(place, value),
        _ => end_answer(place, value),
    }
}

fn place_answer(place: usize, value: u8) -> Answer {
    match (place, value) {
        // magic
        (0..=3, _) => NOT_BLOB,
        // totalsize, 140: with 127 and 128 the structure block ends after the blob
        (4..=6, _) | (7, 0 | 1 | 0xFF) => TOTAL,
        (7, _) => STRUCT,
        // off_dt_struct, 72: at 0 the first token would be the magic
        (8..=10, _) => STRUCT,
        (11, 0) => Err(FdtError::BadToken(0)),
        (11, _) => STRUCT,
        // off_dt_strings, 136: elsewhere in the blob stands no name that ends within 4 bytes
        (12..=14, _) | (15, 0xFF) => STRINGS,
        (15, _) => Err(FdtError::BadName(84)),
        // off_mem_rsvmap, 40: from 0 and from 128 on no pair of zeros follows
        _ => RESERVE,
    }
}

fn size_answer(place: usize, value: u8) -> Answer {
    match (place, value) {
        // version, 17
        (23, 0 | 1) => VERSION,
        (20..=23, _) => SAME,
        // last_comp_version, 16
        (27, 0 | 1) => SAME,
        (24..=27, _) => VERSION,
        // boot_cpuid_phys
        (28..=31, _) => SAME,
        // size_dt_strings, 4: with 0 and 1 no name ends in the strings block
        (35, 0 | 1) => Err(FdtError::BadName(84)),
        (32..=35, _) => STRINGS,
        // size_dt_struct, 64: with 0 and 1 there is no first token
        (39, 0 | 1) => Err(FdtError::BadToken(72)),
        _ => STRUCT,
    }
}

fn root_answer(place: usize, value: u8) -> Answer {
    match (place, value) {
        // FDT_BEGIN_NODE, and the root's name with its filling, which isn't looked at
        (72..=75, _) => Err(FdtError::BadToken(72)),
        (76..=79, _) => SAME,
        // FDT_NOP, 4: as FDT_BEGIN_NODE it has no name
        (83, 1) => Err(FdtError::BadName(80)),
        (80..=83, _) => Err(FdtError::BadToken(80)),
        // FDT_PROP, 3
        (87, 1) => Err(FdtError::BadName(84)),
        (84..=87, _) => Err(FdtError::BadToken(84)),
        // the value's length, 4: of a value without bytes those that stand there are an FDT_NOP
        (91, 0 | 1) => Ok(Parts {
            root_len: usize::from(value),
            ..WORKED
        }),
        (88..=91, _) => Err(FdtError::BadToken(84)),
        // where its name begins, 0
        (92..=95, _) => Err(FdtError::BadName(84)),
        // the value
        _ => SAME,
    }
}

fn child_answer(place: usize, value: u8) -> Answer {
    match (place, value) {
        // FDT_BEGIN_NODE, the name and its zero byte, and filling
        (100..=103, _) => Err(FdtError::BadToken(100)),
        (104..=105, _) => Err(FdtError::BadName(100)),
        (106..=107, _) => SAME,
        // FDT_PROP, 3
        (111, 1) => Err(FdtError::BadName(108)),
        (108..=111, _) => Err(FdtError::BadToken(108)),
        // the value's length, 2: of a value without bytes those that stand there are no token
        (115, 0) => Err(FdtError::BadToken(120)),
        (115, 1) => Ok(Parts {
            child_len: 1,
            ..WORKED
        }),
        (112..=115, _) => Err(FdtError::BadToken(108)),
        // where its name begins, 2: at 0 stands the name of the root's property
        (119, 0) => Ok(Parts {
            name_at: 136,
            ..WORKED
        }),
        (116..=119, _) => Err(FdtError::BadName(108)),
        // the value and its filling
        _ => SAME,
    }
}

fn end_answer(place: usize, value: u8) -> Answer {
    match (place, value) {
        // FDT_END_NODE twice, 2
        (127, 1) => Err(FdtError::BadName(124)),
        (124..=127, _) => Err(FdtError::BadToken(124)),
        (131, 1) => Err(FdtError::BadName(128)),
        (128..=131, _) => Err(FdtError::BadToken(128)),
        // FDT_END, 9
        (132..=135, _) => Err(FdtError::BadToken(132)),
        // the strings: the name of the root's property, that of the child's, each with its zero
        // byte
        (136..=137, _) => Err(FdtError::BadName(84)),
        _ => Err(FdtError::BadName(108)),
    }
}
