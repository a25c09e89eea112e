ghost use Rattle.std.specs.Prelude.{◌≡◌};
ghost use Rattle.mesh_model.specs.Text.Events.{shows, shows_lan, is_shown};

use mesh_base::Event;
use mesh_model::FrameChoice;

/// The type bytes of packets that carry client frames: bcast, unicast, frag and unicast4.
const CLIENT_TYPES: [u8; 4] = [0x01, 0x40, 0x41, 0x42];
/// The type bytes of originator messages, and of ELP between them.
const OGM_TYPES: [u8; 3] = [0x00, 0x03, 0x04];

/// A type byte that no kind of packet has.
const NO_TYPE: u8 = 255;

// Whether a link frame becomes an event.
pub(crate) fn shows(choice: FrameChoice, bytes: &[u8]) -> bool
    ensures { result ≡ shows choice bytes.now }
{
    let kind = bytes.first().copied().unwrap_or(NO_TYPE);
    match choice {
        FrameChoice::Hidden | FrameChoice::Route => false,
        FrameChoice::All => true,
        FrameChoice::Client => CLIENT_TYPES.contains(&kind),
        FrameChoice::Ogm => OGM_TYPES.contains(&kind),
    }
}

// Whether LAN frames become events.
pub(crate) fn shows_lan(choice: FrameChoice) -> bool
    ensures { result ≡ shows_lan choice }
{
    match choice {
        FrameChoice::All => true,
        FrameChoice::Hidden | FrameChoice::Client | FrameChoice::Ogm | FrameChoice::Route => false,
    }
}

// Whether an event is told.
pub(crate) fn is_shown(choice: FrameChoice, event: &Event) -> bool
    ensures { result ≡ is_shown choice event.now }
{
    match event {
        Event::FrameSent { bytes, .. } => shows(choice, bytes.as_slice()),
        Event::LanSent { .. } => shows_lan(choice),
        Event::Received { .. }
        | Event::Bridged { .. }
        | Event::Lost { .. }
        | Event::Alias { .. }
        | Event::Pinged { .. }
        | Event::Traced { .. }
        | Event::Arp { .. }
        | Event::Alfred { .. }
        | Event::Route { .. } => true,
    }
}
