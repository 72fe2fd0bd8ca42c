// What Debian's dtc 1.6.1 printed of blobs that it had compiled.
pub fn board() -> &'static [u8] {
    b"/dts-v1/;\n\
\n\
/memreserve/\t0x0000000010000000 0x0000000000004000;\n\
/ {\n\
\tcompatible = \"acme,board\\0acme,soc\";\n\
\n\
\tuart@fe001000 {\n\
\t\treg = <0xfe001000 0x100>;\n\
\t\tstatus = \"okay\";\n\
\t\tclocks = <0x01 0x01>;\n\
\t};\n\
\n\
\tclock-controller {\n\
\t\t#clock-cells = <0x01>;\n\
\t\tbits = [de ad be ef 00];\n\
\t\tquoted = \"tab\\there \\\"x\\\" \\\\ end\";\n\
\t\tphandle = <0x01>;\n\
\t};\n\
\n\
\tchosen {\n\
\t\tstdout-path = \"/uart@fe001000\";\n\
\t\tempty;\n\
\t};\n\
};\n"
}

pub fn flash() -> &'static [u8] {
    b"/dts-v1/;\n\
\n\
/ {\n\
\t#address-cells = <0x01>;\n\
\t#size-cells = <0x01>;\n\
\n\
\tflash@0 {\n\
\t\treg = <0x00 0x1000000>;\n\
\n\
\t\tpartitions {\n\
\t\t\tcompatible = \"fixed-partitions\";\n\
\n\
\t\t\tpartition@0 {\n\
\t\t\t\tlabel = \"one\";\n\
\t\t\t\treg = <0x00 0x20000>;\n\
\t\t\t\tphandle = <0x01>;\n\
\t\t\t};\n\
\n\
\t\t\tpartition@20000 {\n\
\t\t\t\tlabel = \"two\";\n\
\t\t\t\treg = <0x20000 0x20000>;\n\
\t\t\t};\n\
\t\t};\n\
\t};\n\
\n\
\tuser {\n\
\t\tpart = <0x01>;\n\
\t};\n\
};\n"
}

pub fn deep() -> &'static [u8] {
    b"/dts-v1/;\n\
\n\
/ {\n\
\tz,z = [00];\n\
\n\
\ta {\n\
\n\
\t\tb {\n\
\n\
\t\t\tc {\n\
\t\t\t\tdeep = <0xffffffff 0x00>;\n\
\t\t\t\tmixed = [78 00 01 00 00 00 02];\n\
\t\t\t};\n\
\t\t};\n\
\t};\n\
};\n"
}
