// The example board's devicetree, as source and as blobs.
use bb_base::{Bytes, NoMemory};
use bb_dts::read_source;
use bb_fdt::write_blob;
use bb_tree::blob_length;
use std::alloc::Global;
use std::test::Fail;

// examples/board.dts.
pub fn source(alloc: Global) -> Result<Bytes, NoMemory> {
    let mut text = Bytes::none(alloc);
    text.add(flash())?;
    text.add(first_system())?;
    text.add(second_system())?;
    Ok(text)
}

fn flash() -> &'static [u8] {
    b"/dts-v1/;\n\
\n\
/memreserve/\t0x0000000010000000 0x0000000000004000;\n\
/ {\n\
\t#address-cells = <0x01>;\n\
\t#size-cells = <0x01>;\n\
\tmodel = \"board\";\n\
\n\
\taliases {\n\
\t\tstate = \"/state\";\n\
\t};\n\
\n\
\tflash@0 {\n\
\t\treg = <0x00 0x100000>;\n\
\n\
\t\tpartitions {\n\
\t\t\tcompatible = \"fixed-partitions\";\n\
\t\t\t#address-cells = <0x01>;\n\
\t\t\t#size-cells = <0x01>;\n\
\n\
\t\t\tpartition@20000 {\n\
\t\t\t\tlabel = \"state\";\n\
\t\t\t\treg = <0x20000 0x30000>;\n\
\t\t\t\tphandle = <0x01>;\n\
\t\t\t};\n\
\t\t};\n\
\t};\n\
\n"
}

fn first_system() -> &'static [u8] {
    b"\tstate {\n\
\t\tcompatible = \"barebox,state\";\n\
\t\tmagic = <0x4d433230>;\n\
\t\tbackend-type = \"raw\";\n\
\t\tbackend = <0x01>;\n\
\t\tbackend-stridesize = <0x40>;\n\
\n\
\t\tbootstate {\n\
\n\
\t\t\tsystem0 {\n\
\n\
\t\t\t\tremaining_attempts@0 {\n\
\t\t\t\t\treg = <0x00 0x04>;\n\
\t\t\t\t\ttype = \"uint32\";\n\
\t\t\t\t\tdefault = <0x03>;\n\
\t\t\t\t};\n\
\n\
\t\t\t\tpriority@4 {\n\
\t\t\t\t\treg = <0x04 0x04>;\n\
\t\t\t\t\ttype = \"uint32\";\n\
\t\t\t\t\tdefault = <0x14>;\n\
\t\t\t\t};\n\
\t\t\t};\n\
\n"
}

fn second_system() -> &'static [u8] {
    b"\t\t\tsystem1 {\n\
\n\
\t\t\t\tremaining_attempts@8 {\n\
\t\t\t\t\treg = <0x08 0x04>;\n\
\t\t\t\t\ttype = \"uint32\";\n\
\t\t\t\t\tdefault = <0x03>;\n\
\t\t\t\t};\n\
\n\
\t\t\t\tpriority@c {\n\
\t\t\t\t\treg = <0x0c 0x04>;\n\
\t\t\t\t\ttype = \"uint32\";\n\
\t\t\t\t\tdefault = <0x0a>;\n\
\t\t\t\t};\n\
\t\t\t};\n\
\n\
\t\t\tlast_chosen@10 {\n\
\t\t\t\treg = <0x10 0x04>;\n\
\t\t\t\ttype = \"uint32\";\n\
\t\t\t};\n\
\t\t};\n\
\t};\n\
};\n"
}

// What Debian's dtc 1.6.1 compiles of it. A line has whole tokens.
pub fn compiled() -> &'static [u8] {
    b"\xd0\x0d\xfe\xed\0\0\x04\x1a\0\0\0\x48\0\0\x03\xa0\0\0\0\x28\
      \0\0\0\x11\0\0\0\x10\0\0\0\0\0\0\0\x7a\0\0\x03\x58\0\0\0\0\x10\0\0\0\0\0\0\0\0\0\x40\0\
      \0\0\0\0\0\0\0\0\0\0\0\0\0\0\0\0\0\0\0\x01\0\0\0\0\0\0\0\x03\0\0\0\x04\0\0\0\0\0\0\0\x01\
      \0\0\0\x03\0\0\0\x04\0\0\0\x0f\0\0\0\x01\0\0\0\x03\0\0\0\x06\0\0\0\x1bboard\0\0\0\0\0\0\x01aliases\0\
      \0\0\0\x03\0\0\0\x07\0\0\0\x21/state\0\0\0\0\0\x02\0\0\0\x01flash@0\0\
      \0\0\0\x03\0\0\0\x08\0\0\0\x27\0\0\0\0\0\x10\0\0\0\0\0\x01partitions\0\0\
      \0\0\0\x03\0\0\0\x11\0\0\0\x2bfixed-partitions\0\0\0\0\0\0\0\x03\0\0\0\x04\0\0\0\0\0\0\0\x01\
      \0\0\0\x03\0\0\0\x04\0\0\0\x0f\0\0\0\x01\0\0\0\x01partition@20000\0\
      \0\0\0\x03\0\0\0\x06\0\0\0\x36state\0\0\0\0\0\0\x03\0\0\0\x08\0\0\0\x27\0\x02\0\0\0\x03\0\0\
      \0\0\0\x03\0\0\0\x04\0\0\0\x3c\0\0\0\x01\0\0\0\x02\0\0\0\x02\0\0\0\x02\0\0\0\x01state\0\0\0\
      \0\0\0\x03\0\0\0\x0e\0\0\0\x2bbarebox,state\0\0\0\0\0\0\x03\0\0\0\x04\0\0\0\x44\x4d\x43\x32\x30\
      \0\0\0\x03\0\0\0\x04\0\0\0\x4araw\0\0\0\0\x03\0\0\0\x04\0\0\0\x57\0\0\0\x01\
      \0\0\0\x03\0\0\0\x04\0\0\0\x5f\0\0\0\x40\0\0\0\x01bootstate\0\0\0\0\0\0\x01system0\0\
      \0\0\0\x01remaining_attempts@0\0\0\0\0\0\0\0\x03\0\0\0\x08\0\0\0\x27\0\0\0\0\0\0\0\x04\
      \0\0\0\x03\0\0\0\x07\0\0\0\x52uint32\0\0\0\0\0\x03\0\0\0\x04\0\0\0\x72\0\0\0\x03\0\0\0\x02\
      \0\0\0\x01priority@4\0\0\0\0\0\x03\0\0\0\x08\0\0\0\x27\0\0\0\x04\0\0\0\x04\
      \0\0\0\x03\0\0\0\x07\0\0\0\x52uint32\0\0\0\0\0\x03\0\0\0\x04\0\0\0\x72\0\0\0\x14\0\0\0\x02\0\0\0\x02\
      \0\0\0\x01system1\0\0\0\0\x01remaining_attempts@8\0\0\0\0\
      \0\0\0\x03\0\0\0\x08\0\0\0\x27\0\0\0\x08\0\0\0\x04\0\0\0\x03\0\0\0\x07\0\0\0\x52uint32\0\0\
      \0\0\0\x03\0\0\0\x04\0\0\0\x72\0\0\0\x03\0\0\0\x02\0\0\0\x01priority@c\0\0\
      \0\0\0\x03\0\0\0\x08\0\0\0\x27\0\0\0\x0c\0\0\0\x04\0\0\0\x03\0\0\0\x07\0\0\0\x52uint32\0\0\
      \0\0\0\x03\0\0\0\x04\0\0\0\x72\0\0\0\x0a\0\0\0\x02\0\0\0\x02\0\0\0\x01last_chosen@10\0\0\
      \0\0\0\x03\0\0\0\x08\0\0\0\x27\0\0\0\x10\0\0\0\x04\0\0\0\x03\0\0\0\x07\0\0\0\x52uint32\0\0\
      \0\0\0\x02\0\0\0\x02\0\0\0\x02\0\0\0\x02\0\0\0\x09\
      #address-cells\0#size-cells\0model\0state\0reg\0compatible\0label\0phandle\0\
      magic\0backend-type\0backend\0backend-stridesize\0default\0"
}

// What our writer makes of it. Its strings are others: in dtc's `type` is the end of
// `backend-type`.
pub fn written(alloc: Global) -> Result<Vec<u8>, Fail> {
    let text = source(alloc)?;
    if text.as_slice().len() > 4096 {
        return Err(Fail::from("a long source"));
    }
    let tree = read_source(alloc, text.as_slice())?;
    let len = blob_length(&tree);
    if len > 4096 {
        return Err(Fail::from("a long blob"));
    }
    let mut blob = vec![in alloc; 0u8; len as usize]?;
    write_blob(alloc, &tree, blob.as_mut_slice())?;
    Ok(blob)
}
