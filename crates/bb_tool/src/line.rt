ghost use Rattle.std.specs.Prelude.{◌≡◌, ◌≤◌, ◌++◌, true, IfOk, IfSome, None, codes, decimal};
ghost use Rattle.std.specs.Prelude.{length, string_bytes};
ghost use Rattle.bb_tool.specs.Lines.{blob_words, fault_text, field_name, key_words};
ghost use Rattle.bb_tool.specs.Lines.{detail_of, layout_words, line_of, script_words};
ghost use Rattle.bb_tool.specs.Lines.{settings_words, slot_words, spaced};
ghost use Rattle.bb_tool.specs.Lines.{tree_words, value_words, variable_words};
ghost use Rattle.hex.specs.Hex.{encode_lower};
ghost use Rattle.bb_plan.specs.Refusal.{takes_memory};
ghost use Rattle.bb_plan.specs.Status.{status_name};

use arrayvec::ArrayString;
use bb_base::Bytes;
use bb_chooser::SettingsError;
use bb_dts::DtsError;
use bb_fdt::{FdtError, Field};
use bb_hmac::KeyError;
use bb_install::SlotError;
use bb_layout::LayoutError;
use bb_plan::{Refusal, Status};
use bb_script::ScriptError;
use bb_state::StateError;
use bb_vars::ValueError;
use itoa::Buffer;
use std::alloc::{AllocError, Global};

/// The line that is sent of a refusal: the number of its status, its name, and what more it says.
pub(crate) fn line(alloc: Global, refusal: &Refusal) -> Result<String, AllocError>
    ensures { IfOk result (λ line. string_bytes line ≡ line_of refusal.now) }
{
    let detail = detail(alloc, refusal)?;
    let status = refusal.status();
    format!(in alloc; "fault {} {}{detail}\n", status.code(), status.name())
}

/// A line of at most 34 bytes, which takes no memory.
pub(crate) type ShortLine = ArrayString<34>;

/// The line of a refusal that takes no memory, where it is one.
pub(crate) fn fixed_line(refusal: &Refusal) -> Option<ShortLine>
    ensures line { IfSome result (λ line. line.bytes ≡ line_of refusal.now) }
    ensures made { result ≡ None → takes_memory refusal.now ≡ true }
{
    let status = refusal.status();
    match refusal {
        Refusal::ReadFault => Some(fault_line(status, status.name())),
        Refusal::WriteFault(copy) => Some(numbered_line(status, *copy)),
        Refusal::NoTarget => Some(fault_line(status, status.name())),
        Refusal::NoGood(place) => Some(numbered_line(status, *place)),
        Refusal::ScriptFailed(ended) => Some(numbered_line(status, *ended)),
        Refusal::StepLimit => Some(fault_line(status, status.name())),
        Refusal::SlotFault(at) => Some(numbered_line(status, *at)),
        Refusal::NoMemory => Some(fault_line(status, status.name())),
        Refusal::BadWords(_) | Refusal::BadTree(_) | Refusal::BadBlob(_) => None,
        Refusal::BadLayout(_) => None,
        Refusal::BadVariable(_, _) => None,
        Refusal::FileMissing(_) | Refusal::FileFault(_) | Refusal::FileTooLong(_) => None,
        Refusal::StartFailed(_) | Refusal::BadSettings(_) | Refusal::BadScript(_) => None,
        Refusal::NoKey | Refusal::BadKey(_) => None,
        Refusal::BadTarget(_) | Refusal::BadSlot(_) | Refusal::LastTarget(_) => None,
        Refusal::ImageTooLong(_) | Refusal::BadDigest(_) => None,
    }
}

/// The line of a fault with this status, which says what it is in these words.
pub(crate) fn fault_line(status: Status, words: &str) -> ShortLine
    requires { length words.now ≤ 23 }
    ensures { result.bytes ≡ fault_text status words.now }
{
    let mut digits = Buffer::new();
    let mut line = ShortLine::new();
    line.push_str("fault ");
    line.push_str(digits.format(status.code()));
    line.push_str(" ");
    line.push_str(words);
    line.push_str("\n");
    line
}

fn numbered_line(status: Status, number: u32) -> ShortLine
    requires { length (status_name status) ≤ 12 }
    ensures { result.bytes ≡ fault_text status (status_name status ++ spaced (decimal number)) }
{
    let mut digits = Buffer::new();
    let mut words = ShortLine::new();
    words.push_str(status.name());
    words.push_str(" ");
    words.push_str(digits.format(number));
    fault_line(status, words.as_str())
}

// What the line of a refusal says after its name.
fn detail(alloc: Global, refusal: &Refusal) -> Result<String, AllocError>
    ensures { IfOk result (λ words. string_bytes words ≡ detail_of refusal.now) }
{
    match refusal {
        Refusal::BadWords(place) => format!(in alloc; " {}", *place as u128 + 1),
        Refusal::FileMissing(file) => format!(in alloc; " {}", file.as_str()),
        Refusal::FileFault(file) => format!(in alloc; " {}", file.as_str()),
        Refusal::FileTooLong(file) => format!(in alloc; " {}", file.as_str()),
        Refusal::BadTree(error) => tree_words(alloc, *error),
        Refusal::BadBlob(error) => blob_words(alloc, *error),
        Refusal::BadLayout(error) => layout_words(alloc, error),
        Refusal::NoKey => String::from_str(alloc, " None"),
        Refusal::BadKey(error) => key_words(alloc, *error),
        Refusal::BadVariable(name, cause) => format!(in alloc;
            " {} {}",
            name.as_str(),
            variable_words(*cause)
        ),
        Refusal::BadSettings(error) => settings_words(alloc, error),
        Refusal::BadScript(error) => script_words(alloc, *error),
        Refusal::BadTarget(name) => format!(in alloc; " {}", name.as_str()),
        Refusal::BadSlot(error) => format!(in alloc; " {}", slot_words(*error)),
        Refusal::ImageTooLong(number) => format!(in alloc; " {number}"),
        Refusal::BadDigest(digest) => digest_words(alloc, digest),
        Refusal::LastTarget(name) => format!(in alloc; " {}", name.as_str()),
        Refusal::SlotFault(number) => format!(in alloc; " {number}"),
        Refusal::WriteFault(number) => format!(in alloc; " {number}"),
        Refusal::NoGood(number) => format!(in alloc; " {number}"),
        Refusal::ScriptFailed(number) => format!(in alloc; " {number}"),
        Refusal::StartFailed(name) => format!(in alloc; " {}", name.as_str()),
        Refusal::ReadFault | Refusal::NoTarget | Refusal::NoMemory => String::from_str(alloc, ""),
        Refusal::StepLimit => String::from_str(alloc, ""),
    }
}

// Why there is no slot.
fn slot_words(error: SlotError) -> &'static str
    ensures { result.now ≡ slot_words error }
{
    match error {
        SlotError::NoSlot => "NoSlot",
        SlotError::BadReg => "BadReg",
        SlotError::Unaligned => "Unaligned",
        SlotError::OutOfDevice => "OutOfDevice",
        SlotError::Overlap => "Overlap",
    }
}

// A digest in hexadecimal.
fn digest_words(alloc: Global, digest: &Bytes) -> Result<String, AllocError>
    ensures { IfOk result (λ words. string_bytes words ≡ spaced (encode_lower digest.now)) }
{
    let digits = hex::encode(alloc, digest.as_slice())?;
    format!(in alloc; " {}", digits.as_str())
}

// Why a variable doesn't fit.
fn variable_words(cause: StateError) -> &'static str
    ensures { result.now ≡ variable_words cause }
{
    match cause {
        StateError::NoSuchVariable => "NoSuchVariable",
        StateError::Value(cause) => value_words(cause),
        StateError::NoMemory => "NoMemory",
    }
}

fn value_words(cause: ValueError) -> &'static str
    ensures { result.now ≡ value_words cause }
{
    match cause {
        ValueError::NotNumber => "NotNumber",
        ValueError::TooLarge => "TooLarge",
        ValueError::NoSuchName => "NoSuchName",
        ValueError::NotMac => "NotMac",
        ValueError::TooLong => "TooLong",
        ValueError::HasZeroByte => "HasZeroByte",
    }
}

fn tree_words(alloc: Global, error: DtsError) -> Result<String, AllocError>
    ensures { IfOk result (λ words. string_bytes words ≡ spaced (tree_words error)) }
{
    match error {
        DtsError::NotText(at) => format!(in alloc; " NotText {at}"),
        DtsError::BadToken(at) => format!(in alloc; " BadToken {at}"),
        DtsError::Unexpected(at) => format!(in alloc; " Unexpected {at}"),
        DtsError::NumberTooLarge(at) => format!(in alloc; " NumberTooLarge {at}"),
        DtsError::LeftOut(at) => format!(in alloc; " LeftOut {at}"),
        DtsError::TooDeep(at) => format!(in alloc; " TooDeep {at}"),
        DtsError::DuplicateLabel(at) => format!(in alloc; " DuplicateLabel {at}"),
        DtsError::DuplicatePhandle(at) => format!(in alloc; " DuplicatePhandle {at}"),
        DtsError::NoSuchLabel(at) => format!(in alloc; " NoSuchLabel {at}"),
        DtsError::NoMemory => String::from_str(alloc, " NoMemory"),
    }
}

fn blob_words(alloc: Global, error: FdtError) -> Result<String, AllocError>
    ensures { IfOk result (λ words. string_bytes words ≡ codes " " ++ blob_words error) }
{
    match error {
        FdtError::NotBlob => String::from_str(alloc, " NotBlob"),
        FdtError::Version => String::from_str(alloc, " Version"),
        FdtError::OutOfBounds(field) => { format!(in alloc; " OutOfBounds {}", field_name(field)) }
        FdtError::BadToken(at) => format!(in alloc; " BadToken {at}"),
        FdtError::BadName(at) => format!(in alloc; " BadName {at}"),
        FdtError::TooDeep(at) => format!(in alloc; " TooDeep {at}"),
        FdtError::NoMemory => String::from_str(alloc, " NoMemory"),
    }
}

fn field_name(field: Field) -> &'static str
    ensures { result.now ≡ field_name field }
{
    match field {
        Field::Total => "Total",
        Field::Struct => "Struct",
        Field::Strings => "Strings",
        Field::Reserve => "Reserve",
    }
}

fn layout_words(alloc: Global, error: &LayoutError) -> Result<String, AllocError>
    ensures { IfOk result (λ words.
        string_bytes words ≡ spaced (layout_words error.now)) }
{
    match error {
        LayoutError::NoState => String::from_str(alloc, " NoState"),
        LayoutError::Missing(prop) => format!(in alloc; " Missing {}", prop.as_str()),
        LayoutError::BadProp(prop) => format!(in alloc; " BadProp {}", prop.as_str()),
        LayoutError::BadType => String::from_str(alloc, " BadType"),
        LayoutError::BadReg => String::from_str(alloc, " BadReg"),
        LayoutError::Overlap => String::from_str(alloc, " Overlap"),
        LayoutError::NoBackend => String::from_str(alloc, " NoBackend"),
        LayoutError::TooSmall => String::from_str(alloc, " TooSmall"),
        LayoutError::Unaligned => String::from_str(alloc, " Unaligned"),
        LayoutError::OutOfDevice => String::from_str(alloc, " OutOfDevice"),
        LayoutError::AreaTooLong => String::from_str(alloc, " AreaTooLong"),
        LayoutError::NameTwice => String::from_str(alloc, " NameTwice"),
        LayoutError::NoMemory => String::from_str(alloc, " NoMemory"),
    }
}

fn settings_words(alloc: Global, error: &SettingsError) -> Result<String, AllocError>
    ensures { IfOk result (λ words.
        string_bytes words ≡ spaced (settings_words error.now)) }
{
    match error {
        SettingsError::BadLine(line) => format!(in alloc; " BadLine {line}"),
        SettingsError::NoTargets => String::from_str(alloc, " NoTargets"),
        SettingsError::TargetTwice(line) => format!(in alloc; " TargetTwice {line}"),
        SettingsError::BadNumber(line) => format!(in alloc; " BadNumber {line}"),
        SettingsError::BadEvent(line) => format!(in alloc; " BadEvent {line}"),
        SettingsError::NoSuchVariable(name) => format!(in alloc;
            " NoSuchVariable {}",
            name.as_str()
        ),
        SettingsError::NotUint32(name) => format!(in alloc; " NotUint32 {}", name.as_str()),
        SettingsError::NoMemory => String::from_str(alloc, " NoMemory"),
    }
}

fn script_words(alloc: Global, error: ScriptError) -> Result<String, AllocError>
    ensures { IfOk result (λ words. string_bytes words ≡ spaced (script_words error)) }
{
    match error {
        ScriptError::TooLong => String::from_str(alloc, " TooLong"),
        ScriptError::NotText => String::from_str(alloc, " NotText"),
        ScriptError::Unclosed(at) => format!(in alloc; " Unclosed {at}"),
        ScriptError::Unexpected(at) => format!(in alloc; " Unexpected {at}"),
        ScriptError::TooDeep(at) => format!(in alloc; " TooDeep {at}"),
        ScriptError::NoMemory => String::from_str(alloc, " NoMemory"),
    }
}

fn key_words(alloc: Global, error: KeyError) -> Result<String, AllocError>
    ensures { IfOk result (λ words. string_bytes words ≡ spaced (key_words error)) }
{
    match error {
        KeyError::Empty => String::from_str(alloc, " Empty"),
        KeyError::BadHex(_) => String::from_str(alloc, " BadHex"),
    }
}
