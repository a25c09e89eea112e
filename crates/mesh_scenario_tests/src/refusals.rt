use mesh_scenario::LineErr::{
    self, BadMac, BadName, BadNumber, ExtraWord, MissingWord, OutOfRange, UnknownCommand,
};
use mesh_scenario::read_line;

/// Lines that no worked row has, each taken, or refused for the first of its faults.
const ROWS: [(&str, Option<LineErr>); 62] = [
    ("Node A 02:00:00:00:00:0a", Some(UnknownCommand)),
    ("run\r", Some(UnknownCommand)),
    ("algo", Some(MissingWord)),
    ("algo x y", Some(OutOfRange)),
    ("algo v x", Some(ExtraWord)),
    ("node abcdefghijklmnop 02:00:00:00:00:0a", None),
    ("node abcdefghijklmnopq 02:00:00:00:00:0a", Some(BadName)),
    ("node 9a", Some(BadName)),
    ("node _a 02:00:00:00:00:0a", Some(BadName)),
    ("node A 02-00-00-00-00-0a", Some(BadMac)),
    ("node A 03:00:00:00:00:0a", Some(OutOfRange)),
    ("node A 00:00:00:00:00:00", Some(OutOfRange)),
    ("node A 02:00:00:00:00:0a x", Some(ExtraWord)),
    ("lan L", Some(MissingWord)),
    ("lan L a b c d e f g h i j k l m n o p", None),
    ("lan L a b c d e f g h i j k l m n o p 1", Some(ExtraWord)),
    ("lan L a b c d e f g h i j k l m n o 1 q", Some(BadName)),
    ("link A 1 x", Some(BadName)),
    ("link A B delay=10000 tp=1000000", None),
    ("link A B delay=0", Some(BadNumber)),
    ("link A B delay=", Some(BadNumber)),
    ("link A B delay=+1", Some(BadNumber)),
    ("link A B tp=1000001", Some(BadNumber)),
    ("link A B pattern=", Some(BadNumber)),
    ("link A B pattern=.X", Some(BadNumber)),
    ("frame A zz ff:ff:ff:ff:ff:ff - x", Some(BadMac)),
    (
        "frame A 03:00:00:00:01:07 ff:ff:ff:ff:ff:ff - x",
        Some(OutOfRange),
    ),
    (
        "frame A 02:00:00:00:01:07 00:00:00:00:00:00 - x",
        Some(OutOfRange),
    ),
    (
        "frame A 02:00:00:00:01:07 ff:ff:ff:ff:ff:ff 4095 x",
        Some(BadNumber),
    ),
    (
        "frame A 02:00:00:00:01:07 ff:ff:ff:ff:ff:ff 0 x",
        Some(BadNumber),
    ),
    (
        "frame A 02:00:00:00:01:07 ff:ff:ff:ff:ff:ff - \t",
        Some(MissingWord),
    ),
    ("gone A 01:00:5e:00:00:01 -", Some(OutOfRange)),
    ("join A 02:00:00:00:01:07 7", Some(OutOfRange)),
    ("leave A ff:ff:ff:ff:ff:ff 7", Some(OutOfRange)),
    ("dhcp A 02:00:00:00:01:07 -", Some(MissingWord)),
    ("set A", Some(MissingWord)),
    ("set 1 x", Some(BadName)),
    ("set A wifi ON", Some(OutOfRange)),
    ("set A gw on", Some(OutOfRange)),
    ("set A gw server x 1", Some(BadNumber)),
    ("set A gw server 4294967296 1", Some(OutOfRange)),
    ("set A gw client worst", Some(OutOfRange)),
    ("set A gw client late 0", Some(OutOfRange)),
    ("set A gw client late 256", Some(OutOfRange)),
    ("set A mcast 8", Some(OutOfRange)),
    ("set A dat on on", Some(ExtraWord)),
    ("alfred A del 64", Some(OutOfRange)),
    ("alfred A mode first", Some(OutOfRange)),
    ("alfred A put 63 0 x", Some(OutOfRange)),
    ("alfred A put 64 256 x", Some(OutOfRange)),
    ("alfred A put 64 -1 x", Some(BadNumber)),
    ("alfred A get 256", Some(OutOfRange)),
    ("traceroute A B x", Some(ExtraWord)),
    ("reboot", Some(MissingWord)),
    ("reboot A b", Some(ExtraWord)),
    ("run 1099511627777", Some(OutOfRange)),
    ("run 0", Some(OutOfRange)),
    ("run 1e3", Some(BadNumber)),
    ("deliver 1000000000000000000000000000000000000000000", None),
    ("show A", Some(MissingWord)),
    ("show A viz", Some(OutOfRange)),
    ("decode", Some(MissingWord)),
];

#[test]
fn a_line_is_refused_for_its_first_fault(rt: HostRuntime) {
    for (line, refusal) in ROWS {
        assert_eq!(rt;
            read_line(rt.alloc(), line.as_bytes()).err(),
            refusal,
            "{line}"
        );
    }
}
