ghost use Rattle.std.specs.Prelude.{◌≡◌, IfOk, length};

use bb_base::NoMemory;
use bb_chooser::{Chooser, Settings};
use bb_dts::read_source;
use bb_flash::geometry_of;
use bb_layout::{Layout, layout_of};
use bb_vars::Table;
use std::alloc::Global;
use std::test::Fail;

// A board with the variables of three targets in 28 bytes: for each its attempts and its priority,
// and then the one that was chosen last.
fn source() -> &'static [u8] {
    b"/dts-v1/;
/ {
  partition@20000 { reg = <0x20000 0x30000>; };
  state {
    compatible = \"barebox,state\";
    magic = <1>;
    backend-type = \"raw\";
    backend = \"/partition@20000\";
    backend-stridesize = <64>;
    a {
      remaining_attempts@0 { reg = <0 4>; type = \"uint32\"; };
      priority@4 { reg = <4 4>; type = \"uint32\"; };
    };
    b {
      remaining_attempts@8 { reg = <8 4>; type = \"uint32\"; };
      priority@c { reg = <12 4>; type = \"uint32\"; };
    };
    c {
      remaining_attempts@10 { reg = <16 4>; type = \"uint32\"; };
      priority@14 { reg = <20 4>; type = \"uint32\"; };
    };
    last_chosen@18 { reg = <24 4>; type = \"uint32\"; };
  };
};
"
}

fn layout(alloc: Global) -> Result<Layout, Fail>
    ensures { IfOk result (λ layout. layout.area_len ≡ 28) }
{
    let text = source();
    if text.len() > 4096 {
        return Err(Fail::from("a long source"));
    }
    let Ok(tree) = read_source(alloc, text) else {
        return Err(Fail::from("the source is refused"));
    };
    let Some(geometry) = geometry_of("ov:1048576") else {
        return Err(Fail::from("the geometry is refused"));
    };
    let Ok(layout) = layout_of(alloc, &tree, None, geometry) else {
        return Err(Fail::from("the tree is refused"));
    };
    if layout.area_len != 28 {
        return Err(Fail::from("another area"));
    }
    Ok(layout)
}

/// The chooser that these settings give on the board.
pub fn chooser(alloc: Global, settings: &[u8]) -> Result<Chooser, Fail>
    ensures { IfOk result (λ chooser. chooser.area_len ≡ 28) }
{
    let layout = layout(alloc)?;
    let Ok(settings) = Settings::read(alloc, settings) else {
        return Err(Fail::from("the settings are refused"));
    };
    let Ok(chooser) = Chooser::bind(alloc, settings, &layout) else {
        return Err(Fail::from("the targets are refused"));
    };
    Ok(chooser)
}

/// A table with these attempts, these priorities, and the place of the target that was chosen last.
pub fn table(
    alloc: Global,
    attempts: [u8; 3],
    priorities: [u8; 3],
    last: u8,
) -> Result<Table, NoMemory>
    ensures { IfOk result (λ table. length table ≡ 28) }
{
    let mut bytes = [0u8; 28];
    bytes[0] = attempts[0];
    bytes[4] = priorities[0];
    bytes[8] = attempts[1];
    bytes[12] = priorities[1];
    bytes[16] = attempts[2];
    bytes[20] = priorities[2];
    bytes[24] = last;
    Table::of(alloc, &bytes)
}
