ghost use Rattle.std.specs.Prelude.{◌≡◌, length};

use super::rig::{IN_PLACE, layout_in, plain};
use bb_base::{Bytes, NoMemory};
use bb_layout::Layout;
use bb_state::{
    StateError, add_dump, add_shell_dump, add_value_line, check_value, get_value, set_value,
};
use bb_vars::{Table, ValueError};
use std::alloc::Global;
use std::process::Abort;
use std::test::Fail;

fn add_lines(alloc: Global, out: &mut Bytes) -> Result<(), Fail> {
    let layout = plain(alloc)?;
    Ok(add_lines_of(alloc, &layout, out)?)
}

fn add_lines_of(alloc: Global, layout: &Layout, out: &mut Bytes) -> Result<(), NoMemory>
    requires { layout.now.area_len ≡ 1 }
{
    let area = [7u8; 1];
    add_shell_dump(alloc, layout, &area, out)?;
    add_value_line(layout, &area, "a.n", out)?;
    add_dump(layout, &area, out)
}

#[test]
fn lines_have_values(rt: HostRuntime) -> Result<(), Fail> {
    let mut out = Bytes::none(rt.alloc());
    add_lines(rt.alloc(), &mut out)?;
    assert_eq!(rt; out.as_slice(), b"state_a_n=\"7\"\n7\na.n=7\n".as_slice());
    Ok(())
}

// A name, a text, and what a set of the one to the other answers.
type Row = (&'static str, &'static [u8], Result<(), StateError>);

fn are_set(rt: &impl Abort, layout: &Layout, table: &mut Table, rows: &[Row])
    requires { length table.old ≡ layout.now.area_len }
    ensures { length table.new ≡ layout.now.area_len }
{
    for row in rows {
        let set = set_value(layout, table, row.0, row.1);
        assert_eq!(rt; set, row.2);
    }
}

// Values that are refused, then the largest, which is taken.
fn values_are_set(rt: &impl Abort, layout: &Layout, table: &mut Table)
    requires { length table.old ≡ layout.now.area_len }
    ensures { length table.new ≡ layout.now.area_len }
{
    let too_large = StateError::Value(ValueError::TooLarge);
    let rows: [Row; 3] = [
        ("a.n", b"256", Err(too_large)),
        ("a", b"1", Err(StateError::NoSuchVariable)),
        ("a.n", b"255", Ok(())),
    ];
    are_set(rt, layout, table, &rows);
}

fn value_is_checked(rt: &impl Abort, layout: &Layout) {
    assert_eq!(rt; check_value(layout, "a.n", b"255"), Ok(()));
}

fn value_is_got(rt: &impl Abort, layout: &Layout, table: &Table, out: &mut Bytes)
    requires { length table.now ≡ layout.now.area_len }
{
    let got = get_value(layout, table.bytes(), "a.n", out);
    assert_eq!(rt; got, Ok(()));
    assert_eq!(rt; out.as_slice(), b"255".as_slice());
}

fn set_and_got(rt: &impl Abort, layout: &Layout, table: &mut Table, out: &mut Bytes)
    requires { length table.old ≡ layout.now.area_len }
{
    value_is_checked(rt, layout);
    values_are_set(rt, layout, table);
    value_is_got(rt, layout, table, out);
}

#[test]
fn a_variable_is_set_and_got(rt: HostRuntime) -> Result<(), Fail> {
    let layout = plain(rt.alloc())?;
    let mut table = Table::of(rt.alloc(), b"\x03")?;
    let mut out = Bytes::none(rt.alloc());
    set_and_got(&rt, &layout, &mut table, &mut out);
    Ok(())
}

fn marks() -> &'static [u8] {
    b"/dts-v1/;
/ {
  part@0 { reg = <0 192>; };
  boot.state {
    compatible = \"barebox,state\";
    magic = <1>;
    backend-type = \"raw\";
    backend = \"/part@0\";
    a.b { n@0 { reg = <0 9>; type = \"string\"; }; };
  };
};
"
}

fn add_marks(alloc: Global, out: &mut Bytes) -> Result<(), Fail> {
    let layout = layout_in(alloc, marks(), IN_PLACE, 9)?;
    Ok(add_shell_dump(alloc, &layout, b"a\\b\"c$d`e", out)?)
}

fn quoted() -> &'static [u8] {
    b"boot_state_a_b_n=\"a\\\\b\\\"c\\$d\\`e\"\n"
}

#[test]
fn a_shell_reads_its_line(rt: HostRuntime) -> Result<(), Fail> {
    let mut out = Bytes::none(rt.alloc());
    add_marks(rt.alloc(), &mut out)?;
    assert_eq!(rt; out.as_slice(), quoted());
    Ok(())
}
