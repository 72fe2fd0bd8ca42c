// Sessions of the example board, one after the other, and what each answers.
use super::boards::Kind;
use bb_tool::Status;

#[derive(Clone, Copy)]
pub struct Session {
    // Between single blanks.
    pub words: &'static str,
    pub status: Status,
    pub text: &'static str,
    // How many programs the device has made after it: a save makes one for each copy.
    pub programs: u64,
}

const fn done(words: &'static str, text: &'static str, programs: u64) -> Session {
    Session {
        words,
        status: Status::Done,
        text,
        programs,
    }
}

const DEFAULTS: &str = "bootstate.system0.remaining_attempts=3
bootstate.system0.priority=20
bootstate.system1.remaining_attempts=3
bootstate.system1.priority=10
bootstate.last_chosen=0
";

// Sessions before anything is saved.
pub fn looks() -> [Session; 4] {
    [
        done("state -i board -d", DEFAULTS, 0),
        done("state -i board -g bootstate.system0.priority", "20\n", 0),
        Session {
            words: "state -i board -g nope",
            status: Status::BadVariable,
            text: "fault 4 BadVariable nope NoSuchVariable\n",
            programs: 0,
        },
        Session {
            words: "mark-good -i board -c set.txt",
            status: Status::NoGood,
            text: "fault 18 NoGood 0\n",
            programs: 0,
        },
    ]
}

const SHELL: &str = "state_bootstate_system0_remaining_attempts=\"1\"
state_bootstate_system0_priority=\"30\"
state_bootstate_system1_remaining_attempts=\"3\"
state_bootstate_system1_priority=\"25\"
state_bootstate_last_chosen=\"0\"
";

const SET_TWO: &str = "state -i board -s bootstate.system0.priority=30 \
    -s bootstate.system1.priority=25 -g bootstate.system1.priority";

// Sessions that set variables, one of them to what they are already, and one that shows them.
pub fn sets() -> [Session; 4] {
    [
        done(
            "state -i board -s bootstate.system0.remaining_attempts=1",
            "",
            3,
        ),
        done(SET_TWO, "25\n", 6),
        done(SET_TWO, "25\n", 6),
        done("state -i board --dump-shell", SHELL, 6),
    ]
}

const LEFT: &str = "bootstate.system0.remaining_attempts=0
bootstate.system0.priority=30
bootstate.system1.remaining_attempts=3
bootstate.system1.priority=25
bootstate.last_chosen=2
";

const BOOT: &str = "boot -i board -c set.txt";

// Sessions that boot.
pub fn boots() -> [Session; 4] {
    [
        done(BOOT, "start system0 left 0 tries 1\n", 9),
        done(BOOT, "start system1 left 2 tries 1\n", 12),
        done("mark-good -i board -c set.txt", "good system1 3\n", 15),
        done("state -i board -d", LEFT, 15),
    ]
}

// A look at thirds of the device, where nothing stands.
pub fn raw_look(kind: Kind) -> Session {
    let words = "raw 0x4d433230 20 -g";
    match kind {
        Kind::InPlace => done(words, "none\n", 15),
        Kind::Blocks => Session {
            words,
            status: Status::BadLayout,
            text: "fault 3 BadLayout BadProp backend-storage-type\n",
            programs: 15,
        },
    }
}
