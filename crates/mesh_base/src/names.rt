ghost use Rattle.std.specs.Prelude.{◌≡◌, ◌++◌, ◌∷◌, [], position, option_map, OnOk, OnErr};
ghost use Rattle.mesh_base.specs.Names.{NamesGiven, no_names, node_name, is_node_name, is_lan_name, lan_name};

use crate::address::Mac;
use crate::byte_list::Bytes;
use crate::failure::NoMemory;
use std::alloc::Global;
use std::marker::Model;

/// A node's address with its name.
#[derive(Debug, Drop)]
pub struct NodeName {
    pub mac: Mac,
    pub name: Bytes,
}

/// The names of nodes, by their addresses, and of LANs, which have numbers from 1 in the order in
/// which they are added.
#[derive(Debug, Drop)]
pub struct Names {
    alloc: Global,
    nodes: Vec<NodeName>,
    lans: Vec<Bytes>,
}

impl Model for Names {
    ghost use Rattle.mesh_base.specs.Names.{NamesGiven};

    ghost Value = { NamesGiven };

    ghost view = { λ n. record { nodes = n.nodes.items; lans = n.lans.items } };
}

impl Names {
    /// No names.
    pub fn new(alloc: Global) -> Names
        ensures { result ≡ no_names }
    {
        Names {
            alloc,
            nodes: Vec::new(alloc),
            lans: Vec::new(alloc),
        }
    }

    /// Adds the name of the node with this address behind those of the other nodes.
    pub fn add_node(&mut self, mac: Mac, name: &[u8]) -> Result<(), NoMemory>
        ensures nodes { OnOk result (self.new.nodes
            ≡ self.old.nodes ++ record { mac = mac; name = name.now } ∷ []) }
        ensures lans { self.new.lans ≡ self.old.lans }
        ensures err { OnErr result (self.new ≡ self.old) }
    {
        let name = Bytes::from_slice(self.alloc, name)?;
        self.nodes.push(NodeName { mac, name })?;
        Ok(())
    }

    /// Adds the name of a LAN behind those of the other LANs.
    pub fn add_lan(&mut self, name: &[u8]) -> Result<(), NoMemory>
        ensures lans { OnOk result (self.new.lans ≡ self.old.lans ++ name.now ∷ []) }
        ensures nodes { self.new.nodes ≡ self.old.nodes }
        ensures err { OnErr result (self.new ≡ self.old) }
    {
        let name = Bytes::from_slice(self.alloc, name)?;
        self.lans.push(name)?;
        Ok(())
    }

    /// The name of the first node with this address, or `None` where there is none.
    pub fn node_name(&self, mac: Mac) -> Option<&[u8]>
        ensures { option_map (λ name. name.now) result ≡ node_name self.now.nodes mac }
    {
        let node = self.nodes.iter().find(|node| node.mac == mac)?;
        Some(node.name.as_slice())
    }

    /// The place of the first node with this name, from 0, or `None` where there is none.
    pub fn node_place(&self, name: &[u8]) -> Option<usize>
        ensures { result ≡ position (is_node_name name.now) self.now.nodes }
    {
        self.nodes
            .iter()
            .position(|node| node.name.as_slice() == name)
    }

    /// The place of the first LAN with this name, from 0, or `None` where there is none.
    pub fn lan_place(&self, name: &[u8]) -> Option<usize>
        ensures { result ≡ position (is_lan_name name.now) self.now.lans }
    {
        self.lans.iter().position(|lan| lan.as_slice() == name)
    }

    /// The name of the LAN with this number, from 1, or `None` where there is none.
    pub fn lan_name(&self, number: u32) -> Option<&[u8]>
        ensures { option_map (λ name. name.now) result ≡ lan_name self.now.lans number }
    {
        let place = number.checked_sub(1)?;
        let name = self.lans.get(place as usize)?;
        Some(name.as_slice())
    }
}
