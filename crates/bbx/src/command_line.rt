use crate::open_error::Cause;
use bb_base::{NoMemory, Text, TextList};
use std::alloc::Global;
use std::rt::Env;
use std::{env, io};

/// What the words after the program's name ask for.
#[derive(Drop)]
pub struct CommandLine {
    pub options: Options,
    pub call: Call,
    /// From COMMAND on.
    pub words: TextList,
}

/// The options in front of DEVICE.
#[derive(Drop)]
pub struct Options {
    /// FILE of `--plan=FILE`.
    pub plan: Option<Text>,
    /// `--read-only` is there.
    pub read_only: bool,
    /// `--explain` is there.
    pub explain: bool,
    /// `--progress` is there.
    pub progress: bool,
}

/// What stands after the options.
#[derive(Drop)]
pub enum Call {
    /// The one word `--help`.
    Help,
    /// The one word `--version`.
    Version,
    /// No session: fewer than two words, an option that is there already or names no file, or a
    /// word that isn't UTF-8.
    NoSession,
    /// `DEVICE GEOMETRY COMMAND ..`
    Session(Device),
}

/// The words DEVICE and GEOMETRY.
#[derive(Drop)]
pub struct Device {
    pub path: Text,
    pub geometry: Text,
}

// Whether a word is an option.
#[derive(Clone, Copy)]
enum Taken {
    Taken,
    // It is none.
    Device,
    // It is there already, or names no file.
    Refused,
}

impl CommandLine {
    pub fn read<R: Env + AllocGlobal>(rt: &R) -> Result<CommandLine, NoMemory> {
        match env::args(rt) {
            Ok(mut args) => {
                let _ = args.next();
                let mut words = Vec::new(rt.alloc());
                for word in args {
                    words.push(word)?;
                }
                CommandLine::of(rt.alloc(), &words)
            }
            Err(error) if error.kind() == io::ErrorKind::OutOfMemory => Err(NoMemory),
            Err(_) => Ok(CommandLine {
                options: Options {
                    explain: asks_to_explain(rt),
                    ..Options::none()
                },
                call: Call::NoSession,
                words: TextList::none(rt.alloc()),
            }),
        }
    }
}

impl CommandLine {
    /// The file that a refusal is about: the one of the plan, or the device.
    pub fn file_of(&self, cause: Cause) -> &str {
        match (cause, &self.options.plan, &self.call) {
            (Cause::PlanIsDevice | Cause::PlanIsNoFile | Cause::Unplanned, Some(plan), _) => {
                plan.as_str()
            }
            (_, _, Call::Session(device)) => device.path.as_str(),
            _ => "",
        }
    }

    // What these words, all after the program's name, ask for.
    fn of(alloc: Global, words: &[String]) -> Result<CommandLine, NoMemory> {
        let mut options = Options::none();
        for (place, word) in words.iter().enumerate() {
            match options.take(alloc, word.as_str())? {
                Taken::Taken => {}
                Taken::Device => {
                    return Ok(CommandLine {
                        options,
                        call: Call::of(alloc, words, place)?,
                        words: words_from(alloc, words, place.saturating_add(2))?,
                    });
                }
                Taken::Refused => break,
            }
        }
        Ok(CommandLine {
            options,
            call: Call::NoSession,
            words: TextList::none(alloc),
        })
    }
}

impl Options {
    fn none() -> Options {
        Options {
            plan: None,
            read_only: false,
            explain: false,
            progress: false,
        }
    }

    // Takes a word that is an option.
    fn take(&mut self, alloc: Global, word: &str) -> Result<Taken, NoMemory> {
        if let Some(file) = word.strip_prefix("--plan=") {
            return self.take_plan(alloc, file);
        }
        Ok(match word {
            "--read-only" => once(&mut self.read_only),
            "--explain" => once(&mut self.explain),
            "--progress" => once(&mut self.progress),
            _ => Taken::Device,
        })
    }

    fn take_plan(&mut self, alloc: Global, file: &str) -> Result<Taken, NoMemory> {
        if file.is_empty() || self.plan.is_some() {
            return Ok(Taken::Refused);
        }
        self.plan = Some(Text::of(alloc, file)?);
        Ok(Taken::Taken)
    }
}

// Notes an option that comes once at most.
fn once(noted: &mut bool) -> Taken {
    if *noted {
        return Taken::Refused;
    }
    *noted = true;
    Taken::Taken
}

impl Call {
    // What the words from a place on ask for. `--help` and `--version` count only as the one word.
    fn of(alloc: Global, words: &[String], place: usize) -> Result<Call, NoMemory> {
        let (Some(path), Some(geometry)) = (words.get(place), words.get(place.saturating_add(1)))
        else {
            return Ok(lone(words));
        };
        Ok(Call::Session(Device {
            path: Text::of(alloc, path.as_str())?,
            geometry: Text::of(alloc, geometry.as_str())?,
        }))
    }
}

// What fewer words than two after the options ask for.
fn lone(words: &[String]) -> Call {
    let (Some(word), 1) = (words.get(0), words.len()) else {
        return Call::NoSession;
    };
    match word.as_str() {
        "--help" => Call::Help,
        "--version" => Call::Version,
        _ => Call::NoSession,
    }
}

// The words from a place on.
fn words_from(alloc: Global, words: &[String], start: usize) -> Result<TextList, NoMemory> {
    let mut rest = TextList::none(alloc);
    for word in words.iter().skip(start) {
        rest.push(Text::of(alloc, word.as_str())?)?;
    }
    Ok(rest)
}

// Whether `--explain` stands among the options in front, where a later word isn't UTF-8. A word of
// more bytes than a path may have ends them.
fn asks_to_explain<R: Env>(rt: &R) -> bool {
    for place in 1..5 {
        let mut buffer = [0u8; 4096];
        let Ok(len) = rt.arg(place, &mut buffer) else {
            return false;
        };
        let word = &buffer[..len];
        if word == b"--explain".as_slice() {
            return true;
        }
        if !stands_in_front(word) {
            return false;
        }
    }
    false
}

// Whether a word is another option in front.
fn stands_in_front(word: &[u8]) -> bool {
    if word == b"--read-only".as_slice() {
        return true;
    }
    word == b"--progress".as_slice() || word.starts_with(b"--plan=")
}
