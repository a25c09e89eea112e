//! Tests of mesh_messages: given bytes of ARP and of messages of the fact store, bytes that are
//! none of them, and facts that are cut into parts.

#![tactic(auto)]

#[cfg(test)]
mod arp;
#[cfg(test)]
mod fact_messages;
#[cfg(test)]
mod malformed;
#[cfg(test)]
mod parts;
