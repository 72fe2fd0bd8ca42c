use super::rig::plays_on_blank;
use super::steps::Step::{Counts, Has, Loads, Saves, SavesAlways, Sets};
use bb_state::{CopyFault, Loaded};
use std::test::Fail;

#[test]
fn a_table_is_unsure_before_a_load(rt: HostRuntime) -> Result<(), Fail> {
    plays_on_blank(&rt, rt.alloc(), &[Saves(Err(CopyFault::Unsure))])
}

// The load read three fronts.
#[test]
fn a_save_reads_nothing(rt: HostRuntime) -> Result<(), Fail> {
    plays_on_blank(
        &rt,
        rt.alloc(),
        &[Loads(Loaded::NoCopy), SavesAlways, Counts([3, 3, 0])],
    )
}

#[test]
fn a_set_stands_in_the_table(rt: HostRuntime) -> Result<(), Fail> {
    plays_on_blank(&rt, rt.alloc(), &[Sets(b"7"), Has(7)])
}
