/// Why a line of a scenario or of routes is refused, each by the words that are printed.
#[derive(Clone, Copy, Debug, PartialEq, Eq)]
pub enum Refusal {
    /// `bad utf-8`: a line isn't UTF-8.
    BadUtf8,
    /// `unknown command`: the first word of a line is no command word.
    UnknownCommand,
    /// `missing word`: a form wants a further word.
    MissingWord,
    /// `bad name`: a word isn't a name where one is wanted.
    BadName,
    /// `bad mac`: a word isn't a hardware address where one is wanted.
    BadMac,
    /// `bad number`: a word isn't the number, VLAN, IP address, hex bytes, pattern or option that
    /// is wanted.
    BadNumber,
    /// `out of range`: a number is outside its range, an address or a text is of the wrong kind or
    /// length, or a word isn't one of those that are listed.
    OutOfRange,
    /// `extra word`: a word stands behind the last one of a form.
    ExtraWord,
    /// `unknown name`: a name that no earlier line gave.
    UnknownName,
    /// `wrong kind`: a LAN is named where a node is needed, or the other way round.
    WrongKind,
    /// `name taken`: an earlier line gave the name.
    NameTaken,
    /// `address taken`: an earlier line gave the address.
    AddressTaken,
    /// `same node`: a link, a ping or a traceroute leads from a node to itself.
    SameNode,
    /// `link taken`: an earlier line gave the link.
    LinkTaken,
    /// `algo after node`: the algorithm is chosen once a node stands.
    AlgoAfterNode,
    /// `no such frame`: no link frame of this number was sent.
    NoSuchFrame,
    /// `attached`: a node is a gateway already where a line makes it one, or names it as a place.
    Attached,
    /// `bad route`: the first word of a line of routes is `route`, and the words behind it are none.
    BadRoute,
    /// `time back`: a line of routes is of an earlier moment than the one before it.
    TimeBack,
}

/// A quantity with a limit, by the name that is printed.
#[derive(Clone, Copy, Debug, PartialEq, Eq)]
pub enum LimitName {
    /// `line`: 4,096 bytes before a line's newline.
    Line,
    /// `input`: 67,108,864 bytes of input.
    Input,
    /// `nodes`: 64 nodes.
    Nodes,
    /// `links`: 512 links.
    Links,
    /// `lans`: 16 LANs.
    Lans,
    /// `clients`: 4,096 clients present at a node, joined groups included.
    Clients,
    /// `vlans`: 16 VLANs with clients present at a node.
    Vlans,
    /// `cuts`: 65,535 packets that a node cut.
    Cuts,
    /// `frames`: 4,194,304 frames sent.
    Frames,
    /// `frame-bytes`: 536,870,912 bytes of frames sent.
    FrameBytes,
    /// `clock`: a moment of 1,099,511,627,776 milliseconds.
    Clock,
    /// `pairs`: 65,536 different pairs of a node and an originator in lines of routes.
    Pairs,
}

/// What ends a run before the end of its input.
#[derive(Clone, Copy, Debug, PartialEq, Eq)]
pub enum Stop {
    /// A line is refused.
    Refused(Refusal),
    /// A quantity would pass its limit.
    Limit(LimitName),
}
