// Sets of variables of four kinds on a device of 1 MiB that is blank: what is sent, and which calls
// the device gets.
use super::entries::Entry::Kinds;
use super::rig::Rig;
use super::steps::Step::{Does, Ends, Holds, Programs, Reads};
use super::steps::plays_from;
use bb_tool::Status;
use std::alloc::Global;
use std::process::Abort;
use std::test::Fail;

// The words of a session on a blank device, and what it sends.
#[derive(Clone, Copy)]
struct Row {
    words: &'static str,
    sends: &'static str,
}

// How such a session ends, and how often it reads and programs.
#[derive(Clone, Copy)]
struct End {
    status: Status,
    reads: u64,
    programs: u64,
}

// It reads three fronts and writes three copies.
const SAVES: End = End {
    status: Status::Done,
    reads: 3,
    programs: 3,
};

// It reads three fronts.
const KEEPS: End = End {
    status: Status::Done,
    reads: 3,
    programs: 0,
};

// It is refused before the device is asked.
const REFUSES: End = End {
    status: Status::BadVariable,
    reads: 0,
    programs: 0,
};

fn each_ends(rt: &impl Abort, alloc: Global, rows: &[Row], end: End) -> Result<(), Fail> {
    for row in rows {
        asks(rt, alloc, *row, end)?;
    }
    Ok(())
}

fn asks(rt: &impl Abort, alloc: Global, row: Row, end: End) -> Result<(), Fail> {
    let steps = [
        Ends(row.words, end.status, row.sends),
        Reads(end.reads),
        Programs(end.programs),
    ];
    plays_from(rt, alloc, Rig::Kinds, [&[], &[], &[]], &steps)
}

// In the second row a value is set before one that is asked for earlier is got.
#[test]
fn what_is_set_is_saved_once_and_then_got(rt: HostRuntime) -> Result<(), Fail> {
    let rows = [
        Row {
            words: "state -i a.dts -s n=1 -s n=2 -g n",
            sends: "2\n",
        },
        Row {
            words: "state -i a.dts -g n --set=n=1 --set n=2",
            sends: "2\n",
        },
        Row {
            words: "state -i a.dts -s host=x -s n=255",
            sends: "",
        },
        Row {
            words: "state -i a.dts -s host=abcd -g host",
            sends: "abcd\n",
        },
        Row {
            words: "state -i a.dts -s host= -g host",
            sends: "\n",
        },
    ];
    each_ends(&rt, rt.alloc(), &rows, SAVES)
}

#[test]
fn what_is_set_to_what_it_is_is_not_saved(rt: HostRuntime) -> Result<(), Fail> {
    let rows = [
        Row {
            words: "state -i a.dts -s n=0",
            sends: "",
        },
        Row {
            words: "state -i a.dts -s n=1 -s n=0 -g n",
            sends: "0\n",
        },
    ];
    each_ends(&rt, rt.alloc(), &rows, KEEPS)
}

#[test]
fn the_bytes_of_a_set_stand_in_all_copies(rt: HostRuntime) -> Result<(), Fail> {
    let steps = [
        Does("state -i a.dts -s n=1 -s n=2", ""),
        Holds(&[Kinds], &[Kinds], &[Kinds]),
    ];
    plays_from(&rt, rt.alloc(), Rig::Kinds, [&[], &[], &[]], &steps)
}

fn values_that_are_none() -> &'static [Row] {
    &[
        Row {
            words: "state -i a.dts -s n=256",
            sends: "fault 4 BadVariable n TooLarge\n",
        },
        Row {
            words: "state -i a.dts -s n=1x",
            sends: "fault 4 BadVariable n NotNumber\n",
        },
        Row {
            words: "state -i a.dts -s mode=spare",
            sends: "fault 4 BadVariable mode NoSuchName\n",
        },
        Row {
            words: "state -i a.dts -s eth=00:11:22:33:44",
            sends: "fault 4 BadVariable eth NotMac\n",
        },
        Row {
            words: "state -i a.dts -s host=abcde",
            sends: "fault 4 BadVariable host TooLong\n",
        },
        Row {
            words: "state -i a.dts -s nope=1",
            sends: "fault 4 BadVariable nope NoSuchVariable\n",
        },
    ]
}

// The same where a set that fits stands in front of them.
fn behind_one_that_fits() -> &'static [Row] {
    &[
        Row {
            words: "state -i a.dts -s host=x -s n=256",
            sends: "fault 4 BadVariable n TooLarge\n",
        },
        Row {
            words: "state -i a.dts -s host=x -s n=1x",
            sends: "fault 4 BadVariable n NotNumber\n",
        },
        Row {
            words: "state -i a.dts -s host=x -s mode=spare",
            sends: "fault 4 BadVariable mode NoSuchName\n",
        },
        Row {
            words: "state -i a.dts -s host=x -s eth=00:11:22:33:44",
            sends: "fault 4 BadVariable eth NotMac\n",
        },
        Row {
            words: "state -i a.dts -s host=x -s host=abcde",
            sends: "fault 4 BadVariable host TooLong\n",
        },
        Row {
            words: "state -i a.dts -s host=x -s nope=1",
            sends: "fault 4 BadVariable nope NoSuchVariable\n",
        },
    ]
}

#[test]
fn a_value_that_is_none_is_refused(rt: HostRuntime) -> Result<(), Fail> {
    each_ends(&rt, rt.alloc(), values_that_are_none(), REFUSES)?;
    each_ends(&rt, rt.alloc(), behind_one_that_fits(), REFUSES)
}

#[test]
fn the_first_action_that_doesnt_fit_is_named(rt: HostRuntime) -> Result<(), Fail> {
    let rows = [
        Row {
            words: "state -i a.dts -g nope -s n=256",
            sends: "fault 4 BadVariable nope NoSuchVariable\n",
        },
        Row {
            words: "state -i a.dts -s n=256 -g nope",
            sends: "fault 4 BadVariable n TooLarge\n",
        },
    ];
    each_ends(&rt, rt.alloc(), &rows, REFUSES)?;
    let row = Row {
        words: "state -i a.dts -s abc",
        sends: "fault 1 BadWords 5\n",
    };
    let status = Status::BadWords;
    asks(&rt, rt.alloc(), row, End { status, ..REFUSES })
}
