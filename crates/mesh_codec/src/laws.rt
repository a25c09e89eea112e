//! Laws of packets and of client frames, each proved as the contract of a function that does
//! nothing.

ghost use Rattle.std.specs.Prelude.{◌≡◌};
ghost use Rattle.mesh_model.specs.Packets.Numbers.{destination_unreachable, echo_reply, echo_request, ttl_exceeded};
ghost use Rattle.mesh_codec.specs.Laws.{HasOneReading, HasOneSpelling, IsReadBeforeMore, IsReadAlone, CanBeWritten, HasShapeSize};
ghost use Rattle.mesh_codec.specs.Payloads.{IsFrameReadAgain};

use crate::numbers::{DESTINATION_UNREACHABLE, ECHO_REPLY, ECHO_REQUEST, TTL_EXCEEDED};

/// Bytes begin with one packet at most.
pub fn bytes_begin_with_one_packet()
    ensures { HasOneReading }
{}

/// No two packets have one spelling.
pub fn a_spelling_is_of_one_packet()
    ensures { HasOneSpelling }
{}

/// A written packet whose tail isn't all the rest is read again, whatever follows it.
pub fn a_written_packet_is_read_before_more()
    ensures { IsReadBeforeMore }
{}

/// A written packet that stands alone is read again.
pub fn a_written_packet_is_read_alone()
    ensures { IsReadAlone }
{}

/// A packet that was read can be written, also where it is a fragment.
pub fn a_read_packet_can_be_written()
    ensures { CanBeWritten }
{}

/// Each header is as long as its shape says.
pub fn a_header_has_its_size()
    ensures { HasShapeSize }
{}

/// A client frame that was written is read again.
pub fn a_written_client_frame_is_read_again()
    ensures { IsFrameReadAgain }
{}

/// The message types of ping and traceroute are those of the definitions.
pub fn message_types_are_those_of_the_definitions()
    ensures reply { ECHO_REPLY ≡ echo_reply }
    ensures unreachable { DESTINATION_UNREACHABLE ≡ destination_unreachable }
    ensures request { ECHO_REQUEST ≡ echo_request }
    ensures exceeded { TTL_EXCEEDED ≡ ttl_exceeded }
{}
