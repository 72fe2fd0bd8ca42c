// Texts of settings, read or refused.
use bb_base::NoMemory;
use bb_chooser::{Settings, SettingsError};
use std::alloc::Global;
use std::process::Abort;
use std::test::Fail;

// The refusal of a text, with its line where it has one.
fn refusal(alloc: Global, text: &[u8]) -> Result<(&'static str, usize), NoMemory> {
    match Settings::read(alloc, text) {
        Ok(_) => Ok(("", 0)),
        Err(SettingsError::BadLine(line)) => Ok(("BadLine", line)),
        Err(SettingsError::NoTargets) => Ok(("NoTargets", 0)),
        Err(SettingsError::TargetTwice(line)) => Ok(("TargetTwice", line)),
        Err(SettingsError::BadNumber(line)) => Ok(("BadNumber", line)),
        Err(SettingsError::BadEvent(line)) => Ok(("BadEvent", line)),
        Err(SettingsError::NoSuchVariable(_)) => Ok(("NoSuchVariable", 0)),
        Err(SettingsError::NotUint32(_)) => Ok(("NotUint32", 0)),
        Err(SettingsError::NoMemory) => Err(NoMemory),
    }
}

// A text is refused so, in this line where it has one.
fn is(rt: &impl Abort, alloc: Global, text: &[u8], name: &str, line: usize) -> Result<(), Fail> {
    let (found, at) = refusal(alloc, text)?;
    assert_eq!(rt; found, name);
    assert_eq!(rt; at, line);
    Ok(())
}

#[test]
fn settings_are_read(rt: HostRuntime) -> Result<(), Fail> {
    let text = b"# a board\r\n \t\r\n\
          global.bootchooser.targets=\"a b\"\n\
          global.bootchooser.a.boot=x"
        .as_slice();
    is(&rt, rt.alloc(), text, "", 0)
}

#[test]
fn the_first_bad_line_decides(rt: HostRuntime) -> Result<(), Fail> {
    is(&rt, rt.alloc(), b"", "NoTargets", 0)?;
    is(&rt, rt.alloc(), b"targets=a a", "BadLine", 1)?;
    let twice = b"global.bootchooser.targets=a a".as_slice();
    is(&rt, rt.alloc(), twice, "TargetTwice", 1)?;
    let noon =
        b"global.bootchooser.targets=a\n\nglobal.bootchooser.reset_attempts=noon\nx".as_slice();
    is(&rt, rt.alloc(), noon, "BadEvent", 3)?;
    let large = b"#\xc3\xa9\nglobal.bootchooser.retry=2\nglobal.bootchooser.retry=1\n".as_slice();
    is(&rt, rt.alloc(), large, "BadNumber", 2)
}
