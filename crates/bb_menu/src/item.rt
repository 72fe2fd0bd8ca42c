use bb_base::Text;
use bb_bls::Entry;

/// An entry of a menu, under the name of its file in the folder.
#[derive(Debug, Drop)]
pub struct MenuItem {
    /// The file's name, with its ending `.conf`.
    pub name: Text,
    pub entry: Entry,
}
