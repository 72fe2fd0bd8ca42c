// examples/board.dts, which is what dtc prints of its blob too.
use bb_base::{Bytes, NoMemory};
use std::alloc::Global;

pub fn text(alloc: Global) -> Result<Bytes, NoMemory> {
    let mut text = Bytes::none(alloc);
    text.add(flash())?;
    text.add(first_system())?;
    text.add(second_system())?;
    Ok(text)
}

fn flash() -> &'static [u8] {
    b"/dts-v1/;\n\
\n\
/memreserve/\t0x0000000010000000 0x0000000000004000;\n\
/ {\n\
\t#address-cells = <0x01>;\n\
\t#size-cells = <0x01>;\n\
\tmodel = \"board\";\n\
\n\
\taliases {\n\
\t\tstate = \"/state\";\n\
\t};\n\
\n\
\tflash@0 {\n\
\t\treg = <0x00 0x100000>;\n\
\n\
\t\tpartitions {\n\
\t\t\tcompatible = \"fixed-partitions\";\n\
\t\t\t#address-cells = <0x01>;\n\
\t\t\t#size-cells = <0x01>;\n\
\n\
\t\t\tpartition@20000 {\n\
\t\t\t\tlabel = \"state\";\n\
\t\t\t\treg = <0x20000 0x30000>;\n\
\t\t\t\tphandle = <0x01>;\n\
\t\t\t};\n\
\t\t};\n\
\t};\n\
\n"
}

fn first_system() -> &'static [u8] {
    b"\tstate {\n\
\t\tcompatible = \"barebox,state\";\n\
\t\tmagic = <0x4d433230>;\n\
\t\tbackend-type = \"raw\";\n\
\t\tbackend = <0x01>;\n\
\t\tbackend-stridesize = <0x40>;\n\
\n\
\t\tbootstate {\n\
\n\
\t\t\tsystem0 {\n\
\n\
\t\t\t\tremaining_attempts@0 {\n\
\t\t\t\t\treg = <0x00 0x04>;\n\
\t\t\t\t\ttype = \"uint32\";\n\
\t\t\t\t\tdefault = <0x03>;\n\
\t\t\t\t};\n\
\n\
\t\t\t\tpriority@4 {\n\
\t\t\t\t\treg = <0x04 0x04>;\n\
\t\t\t\t\ttype = \"uint32\";\n\
\t\t\t\t\tdefault = <0x14>;\n\
\t\t\t\t};\n\
\t\t\t};\n\
\n"
}

fn second_system() -> &'static [u8] {
    b"\t\t\tsystem1 {\n\
\n\
\t\t\t\tremaining_attempts@8 {\n\
\t\t\t\t\treg = <0x08 0x04>;\n\
\t\t\t\t\ttype = \"uint32\";\n\
\t\t\t\t\tdefault = <0x03>;\n\
\t\t\t\t};\n\
\n\
\t\t\t\tpriority@c {\n\
\t\t\t\t\treg = <0x0c 0x04>;\n\
\t\t\t\t\ttype = \"uint32\";\n\
\t\t\t\t\tdefault = <0x0a>;\n\
\t\t\t\t};\n\
\t\t\t};\n\
\n\
\t\t\tlast_chosen@10 {\n\
\t\t\t\treg = <0x10 0x04>;\n\
\t\t\t\ttype = \"uint32\";\n\
\t\t\t};\n\
\t\t};\n\
\t};\n\
};\n"
}
