// Commands from outside: `save` sends how often it was called, `start` starts, `break` is a fault
// of the device. The variable `kept.it` takes numbers alone.
ghost use Rattle.std.specs.Prelude.{◌||◌, codes, Some, None, if◌then◌else◌};
ghost use Rattle.std.specs.Result.{is_ok};
ghost use Rattle.std.specs.Str.{bytes_eq};
ghost use Rattle.bb_base.specs.Number.{number_of};

use bb_base::{Bytes, NoMemory, read_number};
use bb_interpreter::{Commands, Reply, SetReply};
use std::alloc::Global;

#[derive(Drop)]
pub struct Shelf {
    pub kept: Bytes,
}

impl Commands for Shelf {
    type Device = u32;

    ghost outside = { record {
      value_of = λ shelf name. if bytes_eq name (codes "kept.it") then Some shelf.kept else None;
      set_by = λ shelf name value. if bytes_eq name (codes "kept.it")
          then Some (if is_ok (number_of value) then Some (record { kept = value }) else None)
          else None;
      is_command = λ name. bytes_eq name (codes "save")
          || (bytes_eq name (codes "start") || bytes_eq name (codes "break"));
    } };

    ghost can_call = { λ _ _. Unit };

    ghost call_gives = { λ _ _ _ _ _ _. Unit };

    fn value(&self, alloc: Global, name: &[u8]) -> Result<Option<Bytes>, NoMemory> {
        if name != b"kept.it".as_slice() {
            return Ok(None);
        }
        let mut value = Bytes::none(alloc);
        value.add(self.kept.as_slice())?;
        Ok(Some(value))
    }

    fn set(&mut self, alloc: Global, name: &[u8], value: &[u8]) -> Result<SetReply, NoMemory> {
        if name != b"kept.it".as_slice() {
            return Ok(SetReply::Unknown);
        }
        if read_number(value).is_err() {
            return Ok(SetReply::Refused);
        }
        let mut kept = Bytes::none(alloc);
        kept.add(value)?;
        self.kept = kept;
        Ok(SetReply::Set)
    }

    fn has_command(&self, name: &[u8]) -> bool {
        name == b"save".as_slice() || name == b"start".as_slice() || name == b"break".as_slice()
    }

    fn call(&mut self, alloc: Global, words: &[Bytes], device: &mut u32) -> Reply {
        let text = Bytes::none(alloc);
        match words {
            [] => Reply::Fault,
            [name, ..] => {
                if name.as_slice() == b"save".as_slice() {
                    return save(alloc, device);
                }
                if name.as_slice() == b"start".as_slice() {
                    return Reply::Started(text);
                }
                Reply::Fault
            }
        }
    }
}

fn save(alloc: Global, device: &mut u32) -> Reply {
    *device = device.saturating_add(1);
    match format!(in alloc; "{}\n", *device) {
        Ok(line) => {
            let mut text = Bytes::none(alloc);
            match text.add(line.as_bytes()) {
                Ok(()) => Reply::Done(0, text),
                Err(_) => Reply::NoMemory,
            }
        }
        Err(_) => Reply::NoMemory,
    }
}
