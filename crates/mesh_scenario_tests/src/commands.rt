use mesh_scenario::read_line;
use std::test::Fail;

/// Lines of the forms of which no worked row has one, and the command that each gives.
const ROWS: [(&str, &str); 27] = [
    ("", "Nothing"),
    (" \t #node A", "Nothing"),
    (
        "lan L B A",
        "Lan { name: Bytes { bytes: [76] }, gateways: NameList { names: [Bytes { bytes: [66] }, \
        Bytes { bytes: [65] }] } }",
    ),
    (
        "gone A 02:00:00:00:01:07 -",
        "Gone { place: Bytes { bytes: [65] }, key: Key { mac: Mac([2, 0, 0, 0, 1, 7]), vid: \
        Vid(0) } }",
    ),
    (
        "join A 01:00:5e:00:00:01 7",
        "Join { node: Bytes { bytes: [65] }, key: Key { mac: Mac([1, 0, 94, 0, 0, 1]), vid: \
        Vid(32775) } }",
    ),
    (
        "leave A 01:00:5e:00:00:01 7",
        "Leave { node: Bytes { bytes: [65] }, key: Key { mac: Mac([1, 0, 94, 0, 0, 1]), vid: \
        Vid(32775) } }",
    ),
    (
        "dhcp A 02:00:00:00:01:07 - hi",
        "Dhcp { node: Bytes { bytes: [65] }, key: Key { mac: Mac([2, 0, 0, 0, 1, 7]), vid: \
        Vid(0) }, text: Bytes { bytes: [104, 105] } }",
    ),
    (
        "set A wifi off",
        "Wifi { node: Bytes { bytes: [65] }, on: false }",
    ),
    ("set A gw off", "GwOff { node: Bytes { bytes: [65] } }"),
    (
        "set A gw server 0 4294967295",
        "GwServer { node: Bytes { bytes: [65] }, down: 0, up: 4294967295 }",
    ),
    (
        "set A gw client best",
        "GwClient { node: Bytes { bytes: [65] }, policy: Best }",
    ),
    (
        "set A gw client stable",
        "GwClient { node: Bytes { bytes: [65] }, policy: Stable }",
    ),
    (
        "set A gw client late 255",
        "GwClient { node: Bytes { bytes: [65] }, policy: Late(255) }",
    ),
    (
        "set A mcast 7",
        "Mcast { node: Bytes { bytes: [65] }, flags: 7 }",
    ),
    (
        "set A dat on",
        "Dat { node: Bytes { bytes: [65] }, on: true }",
    ),
    (
        "alfred A mode primary",
        "Alfred { node: Bytes { bytes: [65] }, mode: Primary }",
    ),
    (
        "alfred A mode secondary",
        "Alfred { node: Bytes { bytes: [65] }, mode: Secondary }",
    ),
    (
        "alfred A mode off",
        "Alfred { node: Bytes { bytes: [65] }, mode: Off }",
    ),
    (
        "alfred A get 255",
        "Get { node: Bytes { bytes: [65] }, type_no: 255 }",
    ),
    ("reboot A", "Reboot { node: Bytes { bytes: [65] } }"),
    ("run 0001000", "Run { time: 1000 }"),
    (
        "deliver 18446744073709551616",
        "Deliver { number: 18446744073709551615 }",
    ),
    (
        "show A cl",
        "Show { node: Bytes { bytes: [65] }, table: Claims }",
    ),
    (
        "show A gw",
        "Show { node: Bytes { bytes: [65] }, table: Gateways }",
    ),
    (
        "show A mc",
        "Show { node: Bytes { bytes: [65] }, table: Groups }",
    ),
    (
        "show A dat",
        "Show { node: Bytes { bytes: [65] }, table: Addresses }",
    ),
    (
        "show A alf",
        "Show { node: Bytes { bytes: [65] }, table: Facts }",
    ),
];

#[test]
fn each_form_gives_its_words(rt: HostRuntime) -> Result<(), Fail> {
    for (line, told) in ROWS {
        let command = read_line(rt.alloc(), line.as_bytes())?;
        let text = format!(in rt.alloc(); "{command:?}")?;
        assert_eq!(rt; text.as_str(), told, "{line}");
    }
    Ok(())
}
