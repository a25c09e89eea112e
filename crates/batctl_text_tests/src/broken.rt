//! The text of bytes that break off or tell wrong lengths.

use batctl_text::decode_text;
use mesh_base::NoMemory;
use std::alloc::Global;
use std::test::Fail;

/// A container of each type: gateway, ARP table, translation table with two VLANs and two changes,
/// a part of one, roaming, multicast.
const CONTAINERS: &str = "01010008000000640000001402010000\
    0401002c0105000281a0d31400000000529adaa980070000\
    0000000002000000010100001000000002000000010280070402001c1405000100010002\
    81a0d3140000000000000000020000000101000005010008020000000101800706020004\
    05000000";

/// Their text.
const CONTAINER_LINES: &str = "tvlv 1 version=1 len=8 down=100 up=20\n\
    tvlv 2 version=1 len=0\n\
    tvlv 4 version=1 len=44 flags=01 ttvn=5 vlans=2 changes=2\n\
    vlan - sum=81a0d314\n\
    vlan 7 sum=529adaa9\n\
    change 00 02:00:00:00:01:01 -\n\
    change 10 02:00:00:00:01:02 7\n\
    tvlv 4 version=2 len=28 flags=14 ttvn=5 vlans=1 part=1 of=2 changes=1\n\
    vlan - sum=81a0d314\n\
    change 00 02:00:00:00:01:01 -\n\
    tvlv 5 version=1 len=8 mac=02:00:00:00:01:01 vid=7\n\
    tvlv 6 version=2 len=4 flags=05\n";

/// Where lengths stand in them: that of each, and how many VLANs the third and the fourth have.
const CONTAINER_LENGTHS: [usize; 8] = [2, 14, 18, 22, 66, 70, 98, 110];

/// A packet, without its containers.
#[derive(Clone, Copy)]
struct Packet {
    /// Its bytes.
    hex: &'static str,
    /// Where its containers begin, if its kind has some.
    containers: Option<usize>,
    /// Where a length of 2 bytes stands in it, if there is one.
    length: Option<usize>,
    /// Its line.
    line: &'static str,
}

/// A packet of each kind.
const PACKETS: [Packet; 9] = [
    Packet {
        hex: "000f32000000000102000000000a02000000000a00ff0074",
        containers: Some(24),
        length: Some(22),
        line: "packet iv_ogm ttl=50 flags=00 seq=1 orig=02:00:00:00:00:0a \
            prev=02:00:00:00:00:0a tq=255 tvlv=116\n",
    },
    Packet {
        hex: "010f32000000000102000000000affffffffffff02000000010188b56869",
        containers: None,
        length: None,
        line: "packet bcast ttl=50 seq=1 orig=02:00:00:00:00:0a data=16\n",
    },
    Packet {
        hex: "030f02000000000b00000003000001f4",
        containers: None,
        length: None,
        line: "packet elp orig=02:00:00:00:00:0b seq=3 interval=500\n",
    },
    Packet {
        hex: "040f32000000000402000000000a0074ffffffff",
        containers: Some(20),
        length: Some(14),
        line: "packet ogm2 ttl=50 flags=00 seq=4 orig=02:00:00:00:00:0a tvlv=116 tp=4294967295\n",
    },
    Packet {
        hex: "400f320502000000000b02000000010102000000010288b56869",
        containers: None,
        length: None,
        line: "packet unicast ttl=50 ttvn=5 dst=02:00:00:00:00:0b data=16\n",
    },
    Packet {
        hex: "410f322a02000000000b02000000000a0007040068656c6c6f",
        containers: None,
        length: Some(18),
        line: "packet frag ttl=50 no=2 prio=5 dst=02:00:00:00:00:0b orig=02:00:00:00:00:0a seq=7 \
            total=1024 data=5\n",
    },
    Packet {
        hex: "420f320002000000000b02000000000a0300ffffffffffff020000000101080668692121",
        containers: None,
        length: None,
        line: "packet unicast4 ttl=50 ttvn=0 dst=02:00:00:00:00:0b src=02:00:00:00:00:0a sub=3 \
            data=18\n",
    },
    Packet {
        hex: "430f320802000000000b02000000000a01000001",
        containers: None,
        length: None,
        line: "packet icmp ttl=50 msg=8 dst=02:00:00:00:00:0b orig=02:00:00:00:00:0a uid=1 seq=1\n",
    },
    Packet {
        hex: "440f320002000000000b02000000000a00740000",
        containers: Some(20),
        length: Some(16),
        line: "packet utvlv ttl=50 dst=02:00:00:00:00:0b src=02:00:00:00:00:0a tvlv=116\n",
    },
];

/// The bytes of a hex text.
fn bytes_of(alloc: Global, text: &str) -> Result<Vec<u8>, Fail> {
    Ok(hex::decode(alloc, text)?)
}

/// The bytes of a packet, with a container of each type where its kind has some.
fn packet_bytes(alloc: Global, packet: Packet) -> Result<Vec<u8>, Fail> {
    let mut bytes = bytes_of(alloc, packet.hex)?;
    if packet.containers.is_some() {
        bytes.extend_from_slice(bytes_of(alloc, CONTAINERS)?.as_slice())?;
    }
    Ok(bytes)
}

/// The text of a packet.
fn packet_text(alloc: Global, packet: Packet) -> Result<String, Fail> {
    let mut text = String::from_str(alloc, packet.line)?;
    if packet.containers.is_some() {
        text.push_str(CONTAINER_LINES)?;
    }
    Ok(text)
}

/// What is decoded of bytes.
fn decoded(alloc: Global, bytes: &[u8]) -> Result<Vec<u8>, NoMemory> {
    let mut out = Vec::new(alloc);
    decode_text(&mut out, bytes)?;
    Ok(out)
}

/// Whether a text is of whole lines, of which none stands behind one that tells what is bad.
fn ends_at_a_bad_line(text: &[u8]) -> bool {
    let Some(lines) = text.strip_suffix(b"\n") else {
        return false;
    };
    let mut is_bad = false;
    for line in lines.split(|byte| *byte == b'\n') {
        if is_bad {
            return false;
        }
        is_bad = line.starts_with(b"bad");
    }
    true
}

/// The bytes with another length of 2 bytes at a place.
fn with_length(alloc: Global, bytes: &[u8], place: usize, length: u16) -> Result<Vec<u8>, Fail> {
    let mut changed = Vec::new(alloc);
    changed.extend_from_slice(bytes.get(..place).unwrap_or(bytes))?;
    changed.extend_from_slice(&length.to_be_bytes())?;
    changed.extend_from_slice(bytes.get(place.saturating_add(2)..).unwrap_or(&[]))?;
    Ok(changed)
}

#[test]
fn a_packet_of_each_kind_has_its_text(rt: HostRuntime) -> Result<(), Fail> {
    for packet in PACKETS {
        let bytes = packet_bytes(rt.alloc(), packet)?;
        let text = packet_text(rt.alloc(), packet)?;
        let told = decoded(rt.alloc(), bytes.as_slice())?;
        assert_eq!(rt; told.as_slice(), text.as_bytes());
    }
    Ok(())
}

#[test]
fn each_front_of_a_packet_is_told_in_whole_lines(rt: HostRuntime) -> Result<(), Fail> {
    for packet in PACKETS {
        let bytes = packet_bytes(rt.alloc(), packet)?;
        for end in 0..bytes.len() {
            let told = decoded(rt.alloc(), &bytes.as_slice()[..end])?;
            assert!(rt;
                ends_at_a_bad_line(told.as_slice()),
                "{} up to {end}",
                packet.hex
            );
        }
    }
    Ok(())
}

#[test]
fn each_wrong_length_is_told_in_whole_lines(rt: HostRuntime) -> Result<(), Fail> {
    for packet in PACKETS {
        let bytes = packet_bytes(rt.alloc(), packet)?;
        let mut places = Vec::new(rt.alloc());
        if let Some(place) = packet.length {
            places.push(place)?;
        }
        if let Some(begin) = packet.containers {
            for place in CONTAINER_LENGTHS {
                places.push(begin.saturating_add(place))?;
            }
        }
        for place in places.as_slice() {
            for length in [0, 1, u16::MAX] {
                let changed = with_length(rt.alloc(), bytes.as_slice(), *place, length)?;
                let told = decoded(rt.alloc(), changed.as_slice())?;
                assert!(rt;
                    ends_at_a_bad_line(told.as_slice()),
                    "{} with {length} at {place}",
                    packet.hex
                );
            }
        }
    }
    Ok(())
}
