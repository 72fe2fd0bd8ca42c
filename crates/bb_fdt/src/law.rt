ghost use Rattle.std.specs.Prelude.{◌≡◌, Ok};
ghost use Rattle.bb_tree.specs.Blob.{Devicetree, blob_text};
ghost use Rattle.bb_fdt.specs.Laws.{IsWritable};
ghost use Rattle.bb_fdt.specs.Reading.{blob_of};

/// A tree is read back from its blob: where its root has no name, its other names are names, its
/// depth is at most 32, no reserved pair is two zeros, and the blob is below 4 GiB. The function
/// does nothing.
pub fn law_read_back()
    ensures { (tree : Devicetree) → IsWritable tree → blob_of (blob_text tree) ≡ Ok tree }
{}
