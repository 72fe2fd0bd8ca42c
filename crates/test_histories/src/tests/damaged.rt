// Histories of logs that were torn, or hold what no one wrote.
use super::items::Item::{self, Around, Failing, Far, Four, Half, Junk, Long, Odd, One, Two, Zero};
use super::{board, says, set_health, shows};
use bb_flash::Health;
use bb_tool::Status;
use std::alloc::Global;
use std::process::Abort;
use std::test::Fail;

fn shows_first(rt: &impl Abort, alloc: Global, items: &[Item], sends: &str) -> Result<(), Fail> {
    shows(rt, alloc, [items, &[], &[]], sends)
}

const ONE_AND_TWO: &str = "copy 0 entries 2\nentry 1\nn=1\ntext=\nentry 2\nn=2\ntext=\n\
    copy 1 entries 0\ncopy 2 entries 0\n";

const ONE_ALONE: &str = "copy 0 entries 1\nentry 1\nn=1\ntext=\ncopy 1 entries 0\n\
    copy 2 entries 0\n";

const NONE: &str = "copy 0 entries 0\ncopy 1 entries 0\ncopy 2 entries 0\n";

// The page of a cut is passed over alone, and so is one that says a length which no entry has.
#[test]
fn a_torn_page_goes_alone(rt: HostRuntime) -> Result<(), Fail> {
    shows_first(&rt, rt.alloc(), &[One, Half], ONE_ALONE)?;
    shows_first(&rt, rt.alloc(), &[One, Half, Two], ONE_AND_TWO)?;
    shows_first(
        &rt,
        rt.alloc(),
        &[Half, One, Half, Half, Two, Half],
        ONE_AND_TWO,
    )
}

#[test]
fn a_length_of_no_entry_goes_alone(rt: HostRuntime) -> Result<(), Fail> {
    shows_first(&rt, rt.alloc(), &[One, Zero, Two], ONE_AND_TWO)?;
    shows_first(&rt, rt.alloc(), &[One, Odd, Two], ONE_AND_TWO)?;
    shows_first(&rt, rt.alloc(), &[One, Far, Two], ONE_AND_TWO)?;
    shows_first(&rt, rt.alloc(), &[One, Junk, Two], ONE_AND_TWO)
}

// Entries that pass are numbered from 1 without gaps.
#[test]
fn an_entry_that_passes_nothing_has_no_number(rt: HostRuntime) -> Result<(), Fail> {
    shows_first(
        &rt,
        rt.alloc(),
        &[Failing, One, Failing, Two, Failing],
        ONE_AND_TWO,
    )
}

#[test]
fn closing_words_in_an_area_end_no_entry(rt: HostRuntime) -> Result<(), Fail> {
    shows_first(&rt, rt.alloc(), &[One, Long], ONE_AND_TWO)
}

// Sixteen entries, every second of which is torn in its first page.
#[test]
fn every_second_entry_is_torn(rt: HostRuntime) -> Result<(), Fail> {
    let items = [
        One, Half, Four, Half, One, Half, Four, Half, One, Half, Four, Half, One, Half, Four, Half,
    ];
    let sends = "copy 0 entries 8\nentry 1\nn=1\ntext=\nentry 2\nn=4\ntext=\nentry 3\nn=1\ntext=\n\
        entry 4\nn=4\ntext=\nentry 5\nn=1\ntext=\nentry 6\nn=4\ntext=\nentry 7\nn=1\ntext=\n\
        entry 8\nn=4\ntext=\ncopy 1 entries 0\ncopy 2 entries 0\n";
    shows_first(&rt, rt.alloc(), &items, sends)
}

// An entry with a Lost page is none; those before it are, and those after it.
#[test]
fn a_lost_page_hides_its_entry_alone(rt: HostRuntime) -> Result<(), Fail> {
    let mut device = board(rt.alloc(), [&[One, Four, Two], &[], &[]])?;
    set_health(&mut device, 2, Health::Lost)?;
    says(
        &rt,
        rt.alloc(),
        &mut device,
        Status::Done,
        ONE_AND_TWO.as_bytes(),
    )
}

// Where the last page of a long entry is Lost, the entry is looked for that the page before it
// closes alone, and its record passes nothing.
#[test]
fn a_lost_page_frees_the_closing_words_in_an_area(rt: HostRuntime) -> Result<(), Fail> {
    let mut device = board(rt.alloc(), [&[One, Long], &[], &[]])?;
    set_health(&mut device, 4, Health::Lost)?;
    says(
        &rt,
        rt.alloc(),
        &mut device,
        Status::Done,
        ONE_ALONE.as_bytes(),
    )
}

// Pages 0 to 3 are one entry by its closing words, and page 2 is Lost: page 3 goes alone, and the
// entry in pages 0 and 1 is shown.
#[test]
fn a_lost_page_frees_the_entry_that_a_claimed_one_holds(rt: HostRuntime) -> Result<(), Fail> {
    let mut device = board(rt.alloc(), [&[One, Junk, Around], &[], &[]])?;
    set_health(&mut device, 2, Health::Lost)?;
    says(
        &rt,
        rt.alloc(),
        &mut device,
        Status::Done,
        ONE_ALONE.as_bytes(),
    )
}

#[test]
fn nothing_is_shown_of_lost_pages(rt: HostRuntime) -> Result<(), Fail> {
    let mut device = board(rt.alloc(), [&[One, Two], &[One], &[Two]])?;
    for page in 0..96 {
        set_health(&mut device, page, Health::Lost)?;
    }
    says(&rt, rt.alloc(), &mut device, Status::Done, NONE.as_bytes())
}
