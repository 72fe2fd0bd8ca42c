ghost use Rattle.std.specs.Prelude.{◌≡◌, IfOk, Some};
ghost use Rattle.bb_base.specs.MemFiles.{folder_of};
ghost use Rattle.bb_drill_sessions.specs.Documents.{board_files, board_text, entry_text};
ghost use Rattle.bb_drill_sessions.specs.Documents.{settings_text};

use bb_base::{MemFiles, NoMemory};
use std::alloc::Global;

// A state of five numbers, with a copy in each of three erase blocks.
const BOARD: &str = "/dts-v1/;
/memreserve/\t0x0000000010000000 0x0000000000004000;
/ {
\t#address-cells = <0x01>;
\t#size-cells = <0x01>;
\tmodel = \"board\";
\taliases { state = \"/state\"; };
\tflash@0 {
\t\treg = <0x00 0x100000>;
\t\tpartitions {
\t\t\tcompatible = \"fixed-partitions\";
\t\t\t#address-cells = <0x01>;
\t\t\t#size-cells = <0x01>;
\t\t\tpartition@20000 {
\t\t\t\tlabel = \"state\";
\t\t\t\treg = <0x0 0x300>;
\t\t\t\tphandle = <0x01>;
\t\t\t};
\t\t};
\t};
\tstate {
\t\tcompatible = \"barebox,state\";
\t\tmagic = <0x4d433230>;
\t\tbackend-type = \"raw\";
\t\tbackend = <0x01>;
\t\tbackend-stridesize = <0x40>;
\t\tbootstate {
\t\t\tsystem0 {
\t\t\t\tremaining_attempts@0 { reg = <0x00 0x04>; type = \"uint32\"; default = <0x03>; };
\t\t\t\tpriority@4 { reg = <0x04 0x04>; type = \"uint32\"; default = <0x14>; };
\t\t\t};
\t\t\tsystem1 {
\t\t\t\tremaining_attempts@8 { reg = <0x08 0x04>; type = \"uint32\"; default = <0x03>; };
\t\t\t\tpriority@c { reg = <0x0c 0x04>; type = \"uint32\"; default = <0x0a>; };
\t\t\t};
\t\t\tlast_chosen@10 { reg = <0x10 0x04>; type = \"uint32\"; };
\t\t};
\t};
};
";

// The settings of bootchooser.
const SETTINGS: &str = "global.bootchooser.targets=\"system0 system1\"
global.bootchooser.state_prefix=state.bootstate
";

// What each target starts.
const ENTRY: &str = "title Board
linux /zImage
options root=/dev/mmcblk0p1
options rw
";

#[tactic(auto, unfolding(crate::specs::Documents::board_text))]
fn board_text() -> &'static str
    ensures { result.now ≡ board_text }
{
    BOARD
}

#[tactic(auto, unfolding(crate::specs::Documents::settings_text))]
fn settings_text() -> &'static str
    ensures { result.now ≡ settings_text }
{
    SETTINGS
}

#[tactic(auto, unfolding(crate::specs::Documents::entry_text))]
fn entry_text() -> &'static str
    ensures { result.now ≡ entry_text }
{
    ENTRY
}

/// The files of a drill, in memory: the devicetree source of its board, the settings, and the
/// entries of both targets.
#[tactic(auto, unfolding(crate::specs::Documents::board_files))]
pub(crate) fn documents(alloc: Global) -> Result<MemFiles, NoMemory>
    ensures { IfOk result (λ files. (folder_of files).told ≡ Some board_files) }
{
    let mut files = MemFiles::none(alloc);
    files.add("board.dts", board_text().as_bytes())?;
    files.add("set.txt", settings_text().as_bytes())?;
    files.add("loader/entries/system0.conf", entry_text().as_bytes())?;
    files.add("loader/entries/system1.conf", entry_text().as_bytes())?;
    Ok(files)
}
