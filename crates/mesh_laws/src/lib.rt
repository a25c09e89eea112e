//! Laws of the definitions of `mesh_model`, each the contract of a function that does nothing: what
//! holds of every plain run, of every packet, of all present clients and of all tables of clients.
//! Crates above rest on their proofs too.

#![tactic(auto)]

pub mod address_laws;
pub mod cut_laws;
pub mod fact_laws;
pub mod happening_laws;
pub mod held_laws;
pub mod known_laws;
pub mod lan_laws;
pub mod line_laws;
pub mod machine_laws;
pub mod mark_laws;
pub mod packet_laws;
pub mod present_laws;
pub mod reboot_laws;
pub mod run_laws;
pub mod service_laws;
pub mod setting_laws;
pub mod sound_laws;
pub mod table_laws;
