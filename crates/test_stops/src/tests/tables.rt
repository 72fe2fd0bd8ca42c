// Tables of two systems, and their records with the magic word 0x4d433230: the attempts and the
// priority of system0, those of system1, and the place of the target that was chosen last. The CRCs
// were computed apart from this program.
use super::rig::Rig;

/// A table.
#[derive(Clone, Copy, Debug, PartialEq, Eq)]
pub enum Table {
    /// The defaults: 3, 20, 3, 10, 0. Logs have it in front of others, and no load may give it.
    Older,
    /// 3, 20, 3, 30, 0.
    Old,
    /// The same where last_chosen is 1.
    New,
    /// What a boot makes of `Old` and of `New`: 3, 20, 2, 30, 2.
    Spent,
}

impl Table {
    /// The entry of a copy that holds it.
    pub fn entry(self, rig: Rig) -> &'static [u8] {
        match rig {
            Rig::Strides | Rig::OneBlock => self.in_front(),
            Rig::Log => self.in_log(),
        }
    }

    // The front, and the record after it.
    fn in_front(self) -> &'static [u8] {
        match self {
            Table::Older => OLDER,
            Table::Old => OLD,
            Table::New => NEW,
            Table::Spent => SPENT,
        }
    }

    // The record, filled up to two pages, at whose end the closing words stand.
    fn in_log(self) -> &'static [u8] {
        match self {
            Table::Older => LOG_OLDER,
            Table::Old => LOG_OLD,
            Table::New => LOG_NEW,
            Table::Spent => LOG_SPENT,
        }
    }

    /// What `-d` sends of it.
    pub fn dump(self) -> &'static str {
        match self {
            Table::Older => DUMP_OLDER,
            Table::Old => DUMP_OLD,
            Table::New => DUMP_NEW,
            Table::Spent => DUMP_SPENT,
        }
    }
}

const OLDER: &[u8] = b"\xf3\xfd\x54\x23\x24\x00\x00\x00\x30\x32\x43\x4d\x00\x00\x14\x00\
    \x66\x6a\x34\x74\x33\xba\xa2\x6a\x03\x00\x00\x00\x14\x00\x00\x00\
    \x03\x00\x00\x00\x0a\x00\x00\x00\x00\x00\x00\x00";

const OLD: &[u8] = b"\xf3\xfd\x54\x23\x24\x00\x00\x00\x30\x32\x43\x4d\x00\x00\x14\x00\
    \xb7\x55\xc5\x8c\xb0\x6c\xbc\x65\x03\x00\x00\x00\x14\x00\x00\x00\
    \x03\x00\x00\x00\x1e\x00\x00\x00\x00\x00\x00\x00";

const NEW: &[u8] = b"\xf3\xfd\x54\x23\x24\x00\x00\x00\x30\x32\x43\x4d\x00\x00\x14\x00\
    \xd2\x32\x79\x34\x2e\x6c\x16\xa9\x03\x00\x00\x00\x14\x00\x00\x00\
    \x03\x00\x00\x00\x1e\x00\x00\x00\x01\x00\x00\x00";

const SPENT: &[u8] = b"\xf3\xfd\x54\x23\x24\x00\x00\x00\x30\x32\x43\x4d\x00\x00\x14\x00\
    \x53\xd1\x69\xbd\x5c\xfa\xf1\x89\x03\x00\x00\x00\x14\x00\x00\x00\
    \x02\x00\x00\x00\x1e\x00\x00\x00\x02\x00\x00\x00";

const LOG_OLDER: &[u8] = b"\x30\x32\x43\x4d\x00\x00\x14\x00\x66\x6a\x34\x74\x33\xba\xa2\x6a\
    \x03\x00\x00\x00\x14\x00\x00\x00\x03\x00\x00\x00\x0a\x00\x00\x00\
    \x00\x00\x00\x00\xff\xff\xff\xff\xff\xff\xff\xff\xff\xff\xff\xff\
    \xff\xff\xff\xff\xff\xff\xff\xff\x02\x2d\xfa\x14\x40\x00\x00\x00";

const LOG_OLD: &[u8] = b"\x30\x32\x43\x4d\x00\x00\x14\x00\xb7\x55\xc5\x8c\xb0\x6c\xbc\x65\
    \x03\x00\x00\x00\x14\x00\x00\x00\x03\x00\x00\x00\x1e\x00\x00\x00\
    \x00\x00\x00\x00\xff\xff\xff\xff\xff\xff\xff\xff\xff\xff\xff\xff\
    \xff\xff\xff\xff\xff\xff\xff\xff\x02\x2d\xfa\x14\x40\x00\x00\x00";

const LOG_NEW: &[u8] = b"\x30\x32\x43\x4d\x00\x00\x14\x00\xd2\x32\x79\x34\x2e\x6c\x16\xa9\
    \x03\x00\x00\x00\x14\x00\x00\x00\x03\x00\x00\x00\x1e\x00\x00\x00\
    \x01\x00\x00\x00\xff\xff\xff\xff\xff\xff\xff\xff\xff\xff\xff\xff\
    \xff\xff\xff\xff\xff\xff\xff\xff\x02\x2d\xfa\x14\x40\x00\x00\x00";

const LOG_SPENT: &[u8] = b"\x30\x32\x43\x4d\x00\x00\x14\x00\x53\xd1\x69\xbd\x5c\xfa\xf1\x89\
    \x03\x00\x00\x00\x14\x00\x00\x00\x02\x00\x00\x00\x1e\x00\x00\x00\
    \x02\x00\x00\x00\xff\xff\xff\xff\xff\xff\xff\xff\xff\xff\xff\xff\
    \xff\xff\xff\xff\xff\xff\xff\xff\x02\x2d\xfa\x14\x40\x00\x00\x00";

const DUMP_OLDER: &str = "bootstate.system0.remaining_attempts=3
bootstate.system0.priority=20
bootstate.system1.remaining_attempts=3
bootstate.system1.priority=10
bootstate.last_chosen=0
";

const DUMP_OLD: &str = "bootstate.system0.remaining_attempts=3
bootstate.system0.priority=20
bootstate.system1.remaining_attempts=3
bootstate.system1.priority=30
bootstate.last_chosen=0
";

const DUMP_NEW: &str = "bootstate.system0.remaining_attempts=3
bootstate.system0.priority=20
bootstate.system1.remaining_attempts=3
bootstate.system1.priority=30
bootstate.last_chosen=1
";

const DUMP_SPENT: &str = "bootstate.system0.remaining_attempts=3
bootstate.system0.priority=20
bootstate.system1.remaining_attempts=2
bootstate.system1.priority=30
bootstate.last_chosen=2
";
