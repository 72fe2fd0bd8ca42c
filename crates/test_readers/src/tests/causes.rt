// The causes of a start.
use super::lists::words_in;
use bb_base::NoMemory;
use bb_words::{CauseWord, Command, WordsError, read_words};
use std::alloc::Global;
use std::test::Fail;

// The cause that the words of a boot say.
fn cause_in(alloc: Global, line: &str) -> Result<Option<CauseWord>, NoMemory> {
    match read_words(alloc, &words_in(alloc, line)?) {
        Ok(Command::Boot(boot)) => Ok(Some(boot.cause)),
        Err(WordsError::NoMemory) => Err(NoMemory),
        _ => Ok(None),
    }
}

fn causes() -> &'static [(&'static str, CauseWord)] {
    &[
        ("boot -i a -c b", CauseWord::Other),
        ("boot -i a -c b --cause power-on", CauseWord::PowerOn),
        ("boot -i a -c b --cause reset", CauseWord::Reset),
        ("boot -i a -c b --cause other", CauseWord::Other),
    ]
}

#[test]
fn each_cause_has_its_word(rt: HostRuntime) -> Result<(), Fail> {
    for row in causes() {
        let (line, cause) = *row;
        let said = cause_in(rt.alloc(), line)?;
        assert_eq!(rt; said, Some(cause), "at {line}");
    }
    Ok(())
}
