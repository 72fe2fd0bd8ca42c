ghost use Rattle.std.specs.Prelude.{◌≡◌, ◌≢◌, Ok, true, false, IfErr, OnOk, Some, take, slice_get};
ghost use Rattle.std.specs.Str.{IsAscii};
ghost use Rattle.std.specs.String.{string_bytes};
ghost use Rattle.bb_tree.specs.Draft.{with_label};
ghost use Rattle.bb_dts.specs.Walk.{path_text};
ghost use Rattle.bb_dts.specs.Descent.{RefusesResult};

use crate::DtsError;
use crate::input::Input;
use crate::label::Waiting;
use crate::word::word_str;
use bb_tree::{Draft, TreeError};

/// A source that is read: its tree so far, and the path of the body that is read, which is empty
/// for the root's.
#[derive(Drop)]
pub(crate) struct Reader {
    pub input: Input,
    pub draft: Draft,
    pub path: String,
}

impl Reader {
    ghost use Rattle.bb_dts.specs.Readers.{LabelsOnly, GoesInto, labels_of_child, labels_of_node};
    ghost use Rattle.bb_dts.specs.Readers.{names_other_node, node_path};

    /// Goes into the node of that name, and gives it the labels. The name must be ASCII.
    pub(crate) fn enter(&mut self, waiting: &Vec<Waiting>, name: &[u8]) -> Result<(), DtsError>
        requires { IsAscii name.now }
        ensures ok { OnOk result (labels_of_child self.old waiting.now.items name.now
            ≡ Ok self.new.draft.labels) }
        ensures kept { OnOk result (GoesInto self.old self.new name.now) }
        ensures refused { IfErr result
            (RefusesResult (labels_of_child self.old waiting.now.items name.now)) }
    {
        self.path.push('/')?;
        self.path.push_str(word_str(name))?;
        self.label_all(waiting)
    }

    /// Goes back to the path's first `len` bytes, after which a `/` stands.
    pub(crate) fn leave(&mut self, len: usize)
        requires { slice_get (string_bytes self.old.path) len ≡ Some 47 }
        ensures path { string_bytes self.new.path ≡ take len (string_bytes self.old.path) }
        ensures input { self.new.input ≡ self.old.input }
        ensures draft { self.new.draft ≡ self.old.draft }
    {
        self.path.truncate(len);
    }

    /// Gives the labels to the node whose body is read.
    pub(crate) fn label_all(&mut self, waiting: &Vec<Waiting>) -> Result<(), DtsError>
        ensures ok { OnOk result
            (labels_of_node self.old waiting.now.items ≡ Ok self.new.draft.labels) }
        ensures kept { OnOk result (LabelsOnly self.old self.new) }
        ensures refused { IfErr result (RefusesResult (labels_of_node self.old waiting.now.items)) }
    {
        for label in waiting {
            self.label(label)?;
        }
        Ok(())
    }

    fn label(&mut self, label: &Waiting) -> Result<(), DtsError>
        ensures other { OnOk result (names_other_node self.old label.now.name ≡ false) }
        ensures ok { OnOk result (self.new.draft.labels
            ≡ with_label self.old.draft.labels label.now.name (node_path self.old)) }
        ensures kept { OnOk result (LabelsOnly self.old self.new) }
        ensures refused { IfErr result
            (λ e. e ≢ DtsError.NoMemory → e ≡ DtsError.DuplicateLabel label.now.at) }
        ensures another { IfErr result
            (λ e. e ≢ DtsError.NoMemory → names_other_node self.old label.now.name ≡ true) }
    {
        let path = path_text(&self.path);
        match self.draft.label(label.name.as_str(), path) {
            Ok(()) => Ok(()),
            Err(TreeError::NoMemory) => Err(DtsError::NoMemory),
            Err(_) => Err(DtsError::DuplicateLabel(label.at)),
        }
    }
}

/// The text of a path that is empty for the root's.
pub(crate) fn path_text(path: &String) -> &str
    ensures { result.now ≡ path_text (string_bytes path.now) }
{
    if path.is_empty() { "/" } else { path.as_str() }
}
