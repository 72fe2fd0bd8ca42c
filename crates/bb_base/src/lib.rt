//! What every other crate of the repository stands on: texts, bytes and lists that own their
//! memory, CRC-32, spelt numbers, and the traits of what lies outside (files, an output) and of a
//! record's format. Any crate may know it; it knows none of them.
#![tactic(auto)]

mod bytes;
mod crc;
mod failed;
mod fault_count;
mod files;
mod format;
mod law;
mod list;
mod mem_files;
mod mem_sink;
mod memory;
mod number;
mod planned;
mod remainders;
mod sink;
mod text;

pub use bytes::Bytes;
pub use crc::{Crc, crc32};
pub use failed::Failed;
pub use fault_count::FaultCount;
pub use files::{FILE_LIMIT, FileFail, Files};
pub use format::{AREA_LIMIT, Format, MOST_COPIES, Passed};
pub use law::law_any_cutting;
pub use list::List;
pub use mem_files::MemFiles;
pub use mem_sink::MemSink;
pub use memory::NoMemory;
pub use number::{NumberError, read_number};
pub use sink::Sink;
pub use text::{Text, TextList};
