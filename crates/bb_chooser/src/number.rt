ghost use Rattle.std.specs.Prelude.{◌≡◌, ◌+◌, ◌≤◌, length};
ghost use Rattle.std.specs.Int.{w32, from_le_bytes};
ghost use Rattle.bb_chooser.specs.Choosing.{number_at, with_number};

use bb_vars::Table;

/// The uint32 at a place of a table.
pub(crate) fn number_at(table: &Table, at: u32) -> u32
    requires { at + 4 ≤ length table.now }
    ensures { result ≡ number_at table.now at }
{
    let at = at as usize;
    number_of(&table.bytes()[at..at + 4])
}

fn number_of(bytes: &[u8]) -> u32
    requires { length bytes.now ≡ 4 }
    ensures { result ≡ from_le_bytes w32 bytes.now }
{
    u32::from_le_bytes([bytes[0], bytes[1], bytes[2], bytes[3]])
}

/// Sets the uint32 at a place of a table, which is then the one that is read there.
pub(crate) fn put_number(table: &mut Table, at: u32, n: u32)
    requires { at + 4 ≤ length table.old }
    ensures put { table.new ≡ with_number table.old at n }
    ensures same_length { length table.new ≡ length table.old }
    ensures reads { number_at table.new at ≡ n }
{
    put_bytes(table, at, n);
}

// Puts the bytes of a number at a place of a table, the least one first.
fn put_bytes(table: &mut Table, at: u32, n: u32)
    requires { at + 4 ≤ length table.old }
    ensures put { table.new ≡ with_number table.old at n }
    ensures same_length { length table.new ≡ length table.old }
{
    table.put(at, &n.to_le_bytes());
}
