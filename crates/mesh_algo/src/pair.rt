use mesh_base::Mac;

/// An originator and a neighbour from which it was heard.
#[derive(Clone, Copy, Debug, PartialEq, Eq, PartialOrd, Ord, Hash)]
pub struct Pair {
    pub orig: Mac,
    pub from: Mac,
}
