// Values as text and as bytes.
ghost use Rattle.std.specs.Prelude.{◌≡◌, ◌+◌, ◌≤◌, IfOk, length};
ghost use Rattle.bb_vars.specs.Kind.{HasFewNames, size_of};

use super::checks::same;
use bb_base::{Bytes, NoMemory, Text, TextList};
use bb_vars::{Kind, Table, ValueError, check_value, print_value, read_value};
use std::alloc::Global;
use std::test::Fail;

fn read(kind: &Kind, text: &[u8], out: &mut [u8]) -> Result<(), ValueError>
    requires sized { length out.old ≡ size_of kind.now }
    requires few_names { HasFewNames kind.now }
{
    read_value(kind, text, out)
}

fn printed(alloc: Global, kind: &Kind, bytes: &[u8]) -> Result<Bytes, NoMemory>
    requires { length bytes.now ≡ size_of kind.now }
{
    let mut text = Bytes::none(alloc);
    print_value(kind, bytes, &mut text)?;
    Ok(text)
}

#[test]
fn a_uint8_ends_at_255(rt: HostRuntime) {
    let mut out = [7u8; 1];
    let past = read(&Kind::Uint8, b"256", &mut out);
    same(&rt, past, Err(ValueError::TooLarge));
    same(&rt, out[0], 7);
    let last = read(&Kind::Uint8, b"255", &mut out);
    same(&rt, last, Ok(()));
    same(&rt, out[0], 255);
}

#[test]
fn a_string_is_filled_up(rt: HostRuntime) {
    let mut out = [7u8; 4];
    let long = read(&Kind::Chars(4), b"abcde", &mut out);
    same(&rt, long, Err(ValueError::TooLong));
    let zero = read(&Kind::Chars(4), b"a\0c", &mut out);
    same(&rt, zero, Err(ValueError::HasZeroByte));
    let short = read(&Kind::Chars(4), b"ab", &mut out);
    same(&rt, short, Ok(()));
    same(&rt, out.as_slice(), b"ab\0\0".as_slice());
}

// The kind of two names.
fn mode(alloc: Global) -> Result<Kind, NoMemory>
    ensures few_names { IfOk result HasFewNames }
    ensures sized { IfOk result (λ kind. size_of kind ≡ 4) }
{
    let mut names = TextList::none(alloc);
    names.push(Text::of(alloc, "primary")?)?;
    names.push(Text::of(alloc, "backup")?)?;
    Ok(Kind::Enum32(names))
}

#[test]
fn an_enum_has_its_names(rt: HostRuntime) -> Result<(), Fail> {
    let mode = mode(rt.alloc())?;
    let mut out = [7u8; 4];
    let spare = read(&mode, b"spare", &mut out);
    same(&rt, spare, Err(ValueError::NoSuchName));
    let backup = read(&mode, b"backup", &mut out);
    same(&rt, backup, Ok(()));
    same(&rt, out.as_slice(), b"\x01\0\0\0".as_slice());
    let text = printed(rt.alloc(), &mode, b"\x02\0\0\0")?;
    same(&rt, text.as_slice(), b"2".as_slice());
    Ok(())
}

#[test]
fn a_mac_has_six_pairs(rt: HostRuntime) -> Result<(), Fail> {
    let mut out = [7u8; 6];
    let five = read(&Kind::Mac, b"00:11:22:33:44", &mut out);
    same(&rt, five, Err(ValueError::NotMac));
    let six = read(&Kind::Mac, b"00:11:22:33:44:55", &mut out);
    same(&rt, six, Ok(()));
    let text = printed(rt.alloc(), &Kind::Mac, &out)?;
    same(&rt, text.as_slice(), b"00:11:22:33:44:55".as_slice());
    Ok(())
}

// Six bytes, two of which are put in.
fn table(alloc: Global) -> Result<Table, NoMemory>
    ensures { IfOk result (λ table. length table ≡ 6) }
{
    let mut table = Table::of(alloc, b"abcdef")?;
    table.put(2, b"XY");
    Ok(table)
}

fn put(table: &mut Table, kind: &Kind, at: u32, text: &[u8]) -> Result<(), ValueError>
    requires inside { at + size_of kind.now ≤ length table.old }
    requires few_names { HasFewNames kind.now }
{
    table.put_value(kind, at, text)
}

fn check(kind: &Kind, text: &[u8]) -> Result<(), ValueError>
    requires { HasFewNames kind.now }
{
    check_value(kind, text)
}

#[test]
fn a_table_takes_bytes_at_a_place(rt: HostRuntime) -> Result<(), Fail> {
    let mut table = table(rt.alloc())?;
    same(&rt, table.bytes(), b"abXYef".as_slice());
    let was_put = put(&mut table, &Kind::Uint8, 3, b"0x7a");
    same(&rt, was_put, Ok(()));
    same(&rt, table.bytes(), b"abXzef".as_slice());
    let fits = check(&Kind::Chars(4), b"abcd");
    same(&rt, fits, Ok(()));
    same(&rt, Kind::Chars(9).size(), 9);
    Ok(())
}
