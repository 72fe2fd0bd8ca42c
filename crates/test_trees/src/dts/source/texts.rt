// A board with a state node, and the same with variables of other types.
pub(super) const BOARD: &str = "/dts-v1/;\n\
/memreserve/\t0x0000000010000000 0x0000000000004000;\n\
/ {\n\
\t#address-cells = <0x01>;\n\
\t#size-cells = <0x01>;\n\
\tmodel = \"board\";\n\
\taliases { state = \"/state\"; };\n\
\tflash@0 {\n\
\t\treg = <0x00 0x100000>;\n\
\t\tpartitions {\n\
\t\t\tcompatible = \"fixed-partitions\";\n\
\t\t\t#address-cells = <0x01>;\n\
\t\t\t#size-cells = <0x01>;\n\
\t\t\tpartition@20000 {\n\
\t\t\t\tlabel = \"state\";\n\
\t\t\t\treg = <0x20000 0x30000>;\n\
\t\t\t\tphandle = <0x01>;\n\
\t\t\t};\n\
\t\t};\n\
\t};\n\
\tstate {\n\
\t\tcompatible = \"barebox,state\";\n\
\t\tmagic = <0x4d433230>;\n\
\t\tbackend-type = \"raw\";\n\
\t\tbackend = <0x01>;\n\
\t\tbackend-stridesize = <0x40>;\n\
\t\tbootstate {\n\
\t\t\tsystem0 {\n\
\t\t\t\tremaining_attempts@0 { reg = <0x00 0x04>; type = \"uint32\"; default = <0x03>; };\n\
\t\t\t\tpriority@4 { reg = <0x04 0x04>; type = \"uint32\"; default = <0x14>; };\n\
\t\t\t};\n\
\t\t\tsystem1 {\n\
\t\t\t\tremaining_attempts@8 { reg = <0x08 0x04>; type = \"uint32\"; default = <0x03>; };\n\
\t\t\t\tpriority@c { reg = <0x0c 0x04>; type = \"uint32\"; default = <0x0a>; };\n\
\t\t\t};\n\
\t\t\tlast_chosen@10 { reg = <0x10 0x04>; type = \"uint32\"; };\n\
\t\t};\n\
\t};\n\
};\n";

pub(super) const TWO: &str = "/dts-v1/;\n\
/memreserve/\t0x0000000010000000 0x0000000000004000;\n\
/ {\n\
\t#address-cells = <0x01>;\n\
\t#size-cells = <0x01>;\n\
\tmodel = \"board\";\n\
\taliases { state = \"/state\"; };\n\
\tflash@0 {\n\
\t\treg = <0x00 0x100000>;\n\
\t\tpartitions {\n\
\t\t\tcompatible = \"fixed-partitions\";\n\
\t\t\t#address-cells = <0x01>;\n\
\t\t\t#size-cells = <0x01>;\n\
\t\t\tpartition@20000 {\n\
\t\t\t\tlabel = \"state\";\n\
\t\t\t\treg = <0x20000 0x30000>;\n\
\t\t\t\tphandle = <0x01>;\n\
\t\t\t};\n\
\t\t};\n\
\t};\n\
\tstate {\n\
\t\tcompatible = \"barebox,state\";\n\
\t\tmagic = <0x4d433230>;\n\
\t\tbackend-type = \"raw\";\n\
\t\tbackend = <0x01>;\n\
\t\tbackend-stridesize = <0x40>;\n\
\t\tn@0 { reg = <0x0 0x1>; type = \"uint8\"; };\n\
\t\tmode@4 { reg = <0x4 0x4>; type = \"enum32\"; names = \"primary\", \"backup\"; default = <1>; };\n\
\t\teth@8 { reg = <0x8 0x6>; type = \"mac\"; default = [00 11 22 33 44 55]; };\n\
\t\thost@10 { reg = <0x10 0x4>; type = \"string\"; default = \"ab\"; };\n\
\t};\n\
};\n";

// What dtc 1.6.1 printed of blobs that it had compiled; fdtget gives their values.
pub(super) const PRINTED: [&str; 3] = [
    "/dts-v1/;\n\
\n\
/memreserve/\t0x0000000010000000 0x0000000000004000;\n\
/ {\n\
\tcompatible = \"acme,board\\0acme,soc\";\n\
\n\
\tuart@fe001000 {\n\
\t\treg = <0xfe001000 0x100>;\n\
\t\tstatus = \"okay\";\n\
\t\tclocks = <0x01 0x01>;\n\
\t};\n\
\n\
\tclock-controller {\n\
\t\t#clock-cells = <0x01>;\n\
\t\tbits = [de ad be ef 00];\n\
\t\tquoted = \"tab\\there \\\"x\\\" \\\\ end\";\n\
\t\tphandle = <0x01>;\n\
\t};\n\
\n\
\tchosen {\n\
\t\tstdout-path = \"/uart@fe001000\";\n\
\t\tempty;\n\
\t};\n\
};\n",
    "/dts-v1/;\n\
\n\
/ {\n\
\t#address-cells = <0x01>;\n\
\t#size-cells = <0x01>;\n\
\n\
\tflash@0 {\n\
\t\treg = <0x00 0x1000000>;\n\
\n\
\t\tpartitions {\n\
\t\t\tcompatible = \"fixed-partitions\";\n\
\n\
\t\t\tpartition@0 {\n\
\t\t\t\tlabel = \"one\";\n\
\t\t\t\treg = <0x00 0x20000>;\n\
\t\t\t\tphandle = <0x01>;\n\
\t\t\t};\n\
\n\
\t\t\tpartition@20000 {\n\
\t\t\t\tlabel = \"two\";\n\
\t\t\t\treg = <0x20000 0x20000>;\n\
\t\t\t};\n\
\t\t};\n\
\t};\n\
\n\
\tuser {\n\
\t\tpart = <0x01>;\n\
\t};\n\
};\n",
    "/dts-v1/;\n\
\n\
/ {\n\
\tz,z = [00];\n\
\n\
\ta {\n\
\n\
\t\tb {\n\
\n\
\t\t\tc {\n\
\t\t\t\tdeep = <0xffffffff 0x00>;\n\
\t\t\t\tmixed = [78 00 01 00 00 00 02];\n\
\t\t\t};\n\
\t\t};\n\
\t};\n\
};\n",
];
