//! Bytes and what `decode` prints of them, computed from the definitions alone.

ghost use Rattle.std.specs.Prelude.{[], ◌∷◌, ◌++◌, codes};
ghost use Rattle.mesh_rows.specs.DecodeRows.{Prints};

/// An originator message without containers.
pub fn an_originator_message_is_one_line()
    ensures { Prints (codes "000f32000000000102000000000a02000000000a00ff0000")
        ((codes "packet iv_ogm ttl=50 flags=00 seq=1 orig=02:00:00:00:00:0a "
        ++ codes "prev=02:00:00:00:00:0a tq=255 tvlv=0")
        ∷ []) }
{}

/// The same without its last byte.
pub fn a_header_that_is_not_whole_is_short()
    ensures { Prints (codes "000f32000000000102000000000a02000000000a00ff00")
        (codes "bad short have=23 need=24" ∷ []) }
{}

/// The same with twelve bytes told that aren't there.
pub fn a_length_past_the_end_is_bad()
    ensures { Prints (codes "000f32000000000102000000000a02000000000a00ff000c")
        (codes "bad length told=12 left=0" ∷ []) }
{}

/// The same with another version.
pub fn another_version_is_bad()
    ensures { Prints (codes "000e32000000000102000000000a02000000000a00ff0000")
        (codes "bad version 14" ∷ []) }
{}

/// An originator message with the containers of the ARP table and of a translation table.
pub fn containers_have_their_lines()
    ensures { Prints
        (codes "000f32000000000102000000000a02000000000a00ff000c"
        ++ codes "020100000401000401000000")
        ((codes "packet iv_ogm ttl=50 flags=00 seq=1 orig=02:00:00:00:00:0a "
        ++ codes "prev=02:00:00:00:00:0a tq=255 tvlv=12")
        ∷ codes "tvlv 2 version=1 len=0"
        ∷ codes "tvlv 4 version=1 len=4 flags=01 ttvn=0 vlans=0 changes=0" ∷ []) }
{}

/// Two originator messages in one frame, and then other bytes.
pub fn further_originator_messages_follow()
    ensures { Prints
        (codes "000f32000000000102000000000a02000000000a00ff0000"
        ++ codes "000f31050102030402000000000b02000000000a00fe0000" ++ codes "040f")
        ((codes "packet iv_ogm ttl=50 flags=00 seq=1 orig=02:00:00:00:00:0a "
        ++ codes "prev=02:00:00:00:00:0a tq=255 tvlv=0")
        ∷ (codes "packet iv_ogm ttl=49 flags=05 seq=16909060 orig=02:00:00:00:00:0b "
        ++ codes "prev=02:00:00:00:00:0a tq=254 tvlv=0")
        ∷ codes "rest 2" ∷ []) }
{}

/// A unicast packet of each kind of container, a type that isn't known, another version, and a
/// container that is cut.
pub fn each_container_has_its_line()
    ensures { Prints
        (codes "440f320002000000000b02000000000a005c0000"
        ++ codes "010100080000006400000100" ++ codes "03010002abcd"
        ++ codes "0401002b14070003010203040000000000000000800000000000002a0005ffff"
        ++ codes "230000000200000001018007aabbcc"
        ++ codes "050100080200000001010000" ++ codes "0602000403000000" ++ codes "04030000"
        ++ codes "020100")
        (codes "packet utvlv ttl=50 dst=02:00:00:00:00:0b src=02:00:00:00:00:0a tvlv=92"
        ∷ codes "tvlv 1 version=1 len=8 down=100 up=256"
        ∷ codes "tvlv 3 version=1 len=2"
        ∷ codes "tvlv 4 version=1 len=43 flags=14 ttvn=7 vlans=3 changes=1"
        ∷ codes "vlan - sum=01020304"
        ∷ codes "vlan 0 sum=00000000"
        ∷ codes "vlan raw:5 sum=0000002a"
        ∷ codes "change 23 02:00:00:00:01:01 7"
        ∷ codes "tvlv 5 version=1 len=8 mac=02:00:00:00:01:01 vid=-"
        ∷ codes "tvlv 6 version=2 len=4 flags=03"
        ∷ codes "tvlv 4 version=3 len=0"
        ∷ codes "bad cut place=89" ∷ []) }
{}

/// A container that is too short for its type has one line, and nothing follows it.
pub fn a_short_container_ends_the_text()
    ensures { Prints
        (codes "000f32000000000102000000000a02000000000a00ff000f"
        ++ codes "0101000700000000000000" ++ codes "02010000ffff")
        ((codes "packet iv_ogm ttl=50 flags=00 seq=1 orig=02:00:00:00:00:0a "
        ++ codes "prev=02:00:00:00:00:0a tq=255 tvlv=15")
        ∷ codes "bad badlength kind=1 len=7" ∷ []) }
{}

/// An ELP packet has no tail: bytes behind it are the rest.
pub fn bytes_behind_a_packet_are_the_rest()
    ensures { Prints (codes "030f02000000000a00000009000001f4" ++ codes "00010203")
        (codes "packet elp orig=02:00:00:00:00:0a seq=9 interval=500" ∷ codes "rest 4" ∷ []) }
{}

/// Each other kind of packet has its line, the tail as `data` or `tvlv`, or none.
pub fn each_kind_has_its_line()
    ensures bcast { Prints (codes "010f32000000000702000000000b" ++ codes "6869")
        (codes "packet bcast ttl=50 seq=7 orig=02:00:00:00:00:0b data=2" ∷ []) }
    ensures ogm2 { Prints
        (codes "040f32800000010202000000000b0004000186a0" ++ codes "02010000")
        ((codes "packet ogm2 ttl=50 flags=80 seq=258 orig=02:00:00:00:00:0b tvlv=4 tp=100000")
        ∷ codes "tvlv 2 version=1 len=0" ∷ []) }
    ensures unicast { Prints (codes "400f310302000000000b" ++ codes "aabbcc")
        (codes "packet unicast ttl=49 ttvn=3 dst=02:00:00:00:00:0b data=3" ∷ []) }
    ensures frag { Prints (codes "410f322a02000000000b02000000000a00030578" ++ codes "ff")
        ((codes "packet frag ttl=50 no=2 prio=5 dst=02:00:00:00:00:0b "
        ++ codes "orig=02:00:00:00:00:0a seq=3 total=1400 data=1") ∷ []) }
    ensures unicast4 { Prints (codes "420f320002000000000b02000000000a0200" ++ codes "aabb")
        ((codes "packet unicast4 ttl=50 ttvn=0 dst=02:00:00:00:00:0b "
        ++ codes "src=02:00:00:00:00:0a sub=2 data=2") ∷ []) }
    ensures icmp { Prints (codes "430f320802000000000b02000000000a01000201")
        ((codes "packet icmp ttl=50 msg=8 dst=02:00:00:00:00:0b "
        ++ codes "orig=02:00:00:00:00:0a uid=1 seq=513") ∷ []) }
{}
