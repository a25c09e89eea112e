//! Laws of messages, each proved as the contract of a function that does nothing.

ghost use Rattle.std.specs.Prelude.{◌≡◌};
ghost use Rattle.mesh_model.specs.Packets.ArpMessages.{arp_reply, arp_request};
ghost use Rattle.mesh_messages.specs.Laws.{CanBeSentOn, IsArpReadAgain, IsFactMessageReadAgain, IsTransactionReadAgain, IsWholeTransaction, TakesAsManyAsFit};

use crate::arp::{ARP_REPLY, ARP_REQUEST};

/// ARP that was written is read again.
pub fn written_arp_is_read_again()
    ensures { IsArpReadAgain }
{}

/// A message of the fact store that was written is read again.
pub fn a_written_fact_message_is_read_again()
    ensures { IsFactMessageReadAgain }
{}

/// The messages of a transaction are each read again.
pub fn a_written_transaction_is_read_again()
    ensures { IsTransactionReadAgain }
{}

/// A transaction is whole with its facts once its parts and its end came.
pub fn a_transaction_is_whole()
    ensures { IsWholeTransaction }
{}

/// A part takes as many facts as it has room for.
pub fn a_part_takes_as_many_facts_as_fit()
    ensures { TakesAsManyAsFit }
{}

/// A part has room for each fact that was read.
pub fn a_fact_that_was_read_can_be_sent_on()
    ensures { CanBeSentOn }
{}

/// The operations of ARP are those of the definitions.
pub fn operations_are_those_of_the_definitions()
    ensures request { ARP_REQUEST ≡ arp_request }
    ensures reply { ARP_REPLY ≡ arp_reply }
{}
