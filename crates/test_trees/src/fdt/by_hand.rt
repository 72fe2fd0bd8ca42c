// examples/board-by-hand.dts, of which dtc compiles the example board's blob.
use bb_base::{Bytes, NoMemory};
use std::alloc::Global;

pub fn text(alloc: Global) -> Result<Bytes, NoMemory> {
    let mut text = Bytes::none(alloc);
    text.add(flash())?;
    text.add(first_system())?;
    text.add(second_system())?;
    Ok(text)
}

fn flash() -> &'static [u8] {
    b"/dts-v1/;\n\
\n\
/memreserve/ 0x10000000 0x4000;\t/* the bootloader's own memory */\n\
\n\
/ {\n\
\t#address-cells = <1>;\n\
\t#size-cells = <1>;\n\
\tmodel = \"board\";\n\
\n\
\taliases {\n\
\t\tstate = &state;\n\
\t};\n\
\n\
\tflash@0 {\n\
\t\treg = <0x0 0x100000>;\t// 1 MiB\n\
\n\
\t\tpartitions {\n\
\t\t\tcompatible = \"fixed-partitions\";\n\
\t\t\t#address-cells = <1>;\n\
\t\t\t#size-cells = <1>;\n\
\n\
\t\t\tbackend_state: partition@20000 {\n\
\t\t\t\tlabel = \"state\";\n\
\t\t\t\treg = <0x20000 0x30000>;\n\
\t\t\t};\n\
\t\t};\n\
\t};\n\
\n"
}

fn first_system() -> &'static [u8] {
    b"\tstate: state {\n\
\t\tcompatible = \"barebox,state\";\n\
\t\tmagic = <0x4d433230>;\n\
\t\tbackend-type = \"raw\";\n\
\t\tbackend = <&backend_state>;\n\
\t\tbackend-stridesize = <64>;\n\
\n\
\t\tbootstate {\n\
\t\t\t/* the system that is tried first */\n\
\t\t\tsystem0 {\n\
\t\t\t\tremaining_attempts@0 {\n\
\t\t\t\t\treg = <0x0 0x4>;\n\
\t\t\t\t\ttype = \"uint32\";\n\
\t\t\t\t\tdefault = <3>;\n\
\t\t\t\t};\n\
\n\
\t\t\t\tpriority@4 {\n\
\t\t\t\t\treg = <0x4 0x4>;\n\
\t\t\t\t\ttype = \"uint32\";\n\
\t\t\t\t\tdefault = <20>;\n\
\t\t\t\t};\n\
\t\t\t};\n\
\n"
}

fn second_system() -> &'static [u8] {
    b"\t\t\t/* the one that stands in for it */\n\
\t\t\tsystem1 {\n\
\t\t\t\tremaining_attempts@8 {\n\
\t\t\t\t\treg = <0x8 0x4>;\n\
\t\t\t\t\ttype = \"uint32\";\n\
\t\t\t\t\tdefault = <3>;\n\
\t\t\t\t};\n\
\n\
\t\t\t\tpriority@c {\n\
\t\t\t\t\treg = <0xc 0x4>;\n\
\t\t\t\t\ttype = \"uint32\";\n\
\t\t\t\t\tdefault = <10>;\n\
\t\t\t\t};\n\
\t\t\t};\n\
\n\
\t\t\tlast_chosen@10 {\n\
\t\t\t\treg = <0x10 0x4>;\n\
\t\t\t\ttype = \"uint32\";\n\
\t\t\t};\n\
\t\t};\n\
\t};\n\
};\n"
}
