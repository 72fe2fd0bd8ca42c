ghost use Rattle.std.specs.Prelude.{◌≡◌, IfOk};

use crate::{List, NoMemory};
use std::alloc::Global;
use std::marker::Model;

/// A text in UTF-8 that owns its memory. Clauses see the list of its bytes.
#[derive(Debug, Drop)]
pub struct Text {
    alloc: Global,
    inner: String,
}

impl Model for Text {
    ghost use Rattle.std.specs.Prelude.{List, ℕ};
    ghost use Rattle.std.specs.String.{string_bytes};

    ghost Value = { List ℕ };

    ghost view = { λ t. string_bytes t.inner };
}

impl Text {
    /// A copy of the text.
    pub fn of(alloc: Global, text: &str) -> Result<Text, NoMemory>
        ensures { IfOk result (λ copy. copy ≡ text.now) }
    {
        let inner = String::from_str(alloc, text)?;
        Ok(Text { alloc, inner })
    }

    /// The text as std sees one.
    pub fn as_str(&self) -> &str
        ensures { result.now ≡ self.now }
    {
        self.inner.as_str()
    }

    /// A copy in memory of its own.
    pub fn copy(&self) -> Result<Text, NoMemory>
        ensures { IfOk result (λ copy. copy ≡ self.now) }
    {
        Text::of(self.alloc, self.as_str())
    }
}

/// A list of texts. Clauses see the list of the texts' bytes.
pub type TextList = List<Text>;
