ghost use Rattle.std.specs.Prelude.{◌≡◌};

/// How a session ended.
#[derive(Clone, Copy, Debug, PartialEq, Eq)]
pub enum Status {
    /// The session was done.
    Done,
    /// The words aren't a command.
    BadWords,
    /// The file is neither a devicetree source nor a blob.
    BadTree,
    /// The copies can't stand on this device, or the devicetree gives no layout for it.
    BadLayout,
    /// A variable that a word names isn't in the layout.
    BadVariable,
    /// There is no file of the name that a word gives.
    FileMissing,
    /// A file couldn't be read.
    FileFault,
    /// A file has more than 1,048,576 bytes.
    FileTooLong,
    /// The device couldn't be read.
    ReadFault,
    /// A copy couldn't be written.
    WriteFault,
    /// No target has a priority and attempts left.
    NoTarget,
    /// The target that was tried last couldn't be started.
    StartFailed,
    /// The settings aren't settings, or the layout hasn't their variables.
    BadSettings,
    /// The file of the script isn't a script.
    BadScript,
    /// The text couldn't be sent whole. It takes the place of any other status but `NoMemory`.
    SinkFault,
    /// The script ended with a status other than 0.
    ScriptFailed,
    /// The script has more than 10,000 commands and rounds.
    StepLimit,
    /// No target has the name that a word gives.
    BadTarget,
    /// No slot of the device has the label that a word gives.
    BadSlot,
    /// The image is another than the one whose digest a word gives.
    BadDigest,
    /// The image is longer than the slot.
    ImageTooLong,
    /// No other target has a priority and attempts left.
    LastTarget,
    /// A slot couldn't be written.
    SlotFault,
    /// The state's records stand under a key, and none is given, or its file holds none.
    BadKey,
    /// No target was chosen last that could be marked good.
    NoGood,
    /// Memory was refused.
    NoMemory,
}

impl Status {
    ghost use Rattle.bb_plan.specs.Status.{code_of, status_name};

    /// The exit status of the program.
    pub fn code(&self) -> u8
        ensures { result ≡ code_of self.now }
    {
        self.row().0
    }

    /// Its name, the first word of its fault line.
    pub fn name(&self) -> &'static str
        ensures { result.now ≡ status_name self.now }
    {
        self.row().1
    }

    fn row(&self) -> (u8, &'static str)
        ensures code { result.0 ≡ code_of self.now }
        ensures name { result.1.now ≡ status_name self.now }
    {
        match self {
            Status::BadWords => (1, "BadWords"),
            Status::FileMissing => (5, "FileMissing"),
            Status::FileFault => (6, "FileFault"),
            Status::FileTooLong => (7, "FileTooLong"),
            Status::BadTree => (2, "BadTree"),
            Status::BadLayout => (3, "BadLayout"),
            Status::BadKey => (17, "BadKey"),
            Status::BadVariable => (4, "BadVariable"),
            Status::BadSettings => (13, "BadSettings"),
            Status::BadScript => (12, "BadScript"),
            Status::BadTarget => (22, "BadTarget"),
            Status::BadSlot => (23, "BadSlot"),
            Status::ImageTooLong => (25, "ImageTooLong"),
            Status::BadDigest => (24, "BadDigest"),
            Status::ReadFault => (8, "ReadFault"),
            Status::WriteFault => (9, "WriteFault"),
            Status::NoTarget => (10, "NoTarget"),
            Status::NoGood => (18, "NoGood"),
            Status::LastTarget => (26, "LastTarget"),
            Status::SlotFault => (27, "SlotFault"),
            Status::StartFailed => (11, "StartFailed"),
            Status::ScriptFailed => (15, "ScriptFailed"),
            Status::StepLimit => (16, "StepLimit"),
            Status::NoMemory => (20, "NoMemory"),
            Status::SinkFault => (14, "SinkFault"),
            Status::Done => (0, "Done"),
        }
    }
}
