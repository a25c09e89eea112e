use mesh_model::InputKind;

/// The fewest nodes that are generated.
pub const LEAST_NODES: u8 = 3;

/// The most nodes that are generated.
pub const MOST_NODES: u8 = 64;

/// From where the lines come.
#[derive(Clone, Copy, Debug, PartialEq, Eq)]
pub enum Source<'a> {
    /// Standard input.
    Input,
    /// The file of this name.
    File(&'a str),
    /// The generator of a mesh of so many nodes.
    Generated(u8),
}

/// What words ask for: what the lines are that are carried out, and from where they come.
#[derive(Clone, Copy, Debug, PartialEq, Eq)]
pub struct Call<'a> {
    pub kind: InputKind,
    pub source: Source<'a>,
}
