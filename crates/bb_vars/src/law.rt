ghost use Rattle.std.specs.Prelude.{◌≡◌, ◌+◌, ◌<◌, ◌≤◌, ◌⊎◌, List, ℕ, length, slice_index};
ghost use Rattle.std.specs.Prelude.{slice_range};
ghost use Rattle.bb_vars.specs.declared.kind.Kind.{Kind};
ghost use Rattle.bb_vars.specs.Kind.{size_of, HasFewNames};
ghost use Rattle.bb_vars.specs.RoundTrip.{IsValue, ReadsBack, plain_text};
ghost use Rattle.bb_vars.specs.Table.{table_with};
ghost use Rattle.bb_vars.specs.Value.{bytes_of, text_of};

/// A printed value reads back as its bytes: each number and MAC address, an index of an enum whose
/// names differ, and a string with only zero bytes after its first zero byte. The function does
/// nothing.
pub fn law_print_then_read()
    ensures { (kind : Kind) (value : List ℕ) → IsValue kind value → ReadsBack kind value
        → bytes_of kind (text_of kind value) ≡ Ok value }
{}

/// A value that was read prints as the one form of its text: a number in decimal, a MAC address in
/// lower case, a name or a string as it is. It has as many bytes as the kind has. The function does
/// nothing.
pub fn law_read_then_print()
    ensures printed { (kind : Kind) (text value : List ℕ) → HasFewNames kind
        → bytes_of kind text ≡ Ok value → text_of kind value ≡ plain_text kind text }
    ensures sized { (kind : Kind) (text value : List ℕ)
        → bytes_of kind text ≡ Ok value → length value ≡ size_of kind }
{}

/// A range of a table that is set holds the bytes, and every byte before and after it stays. The
/// function does nothing.
pub fn law_set_changes_its_range()
    ensures inside { (table : List ℕ) (at : ℕ) (bytes : List ℕ) → at + length bytes ≤ length table
        → slice_range (table_with table at bytes) at (at + length bytes) ≡ bytes }
    ensures outside { (table : List ℕ) (at : ℕ) (bytes : List ℕ) → at + length bytes ≤ length table
        → (k : ℕ) → (k < at) ⊎ (at + length bytes ≤ k)
        → slice_index (table_with table at bytes) k ≡ slice_index table k }
{}
