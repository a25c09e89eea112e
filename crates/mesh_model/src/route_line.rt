use mesh_base::{Mac, Millis};

/// A line of routes: at a moment a node got a route to an originator over `next`, or lost the one
/// that it had.
#[derive(Clone, Copy, Debug, PartialEq, Eq)]
pub struct RouteLine {
    pub moment: Millis,
    pub node: Mac,
    pub orig: Mac,
    pub next: Option<Mac>,
}

/// An originator and a node, of whose route to it lines tell. Pairs are ordered by the originator,
/// then by the node.
#[derive(Clone, Copy, Debug, PartialEq, Eq, PartialOrd, Ord, Hash)]
pub struct RoutePair {
    pub orig: Mac,
    pub node: Mac,
}

/// What a line of an input of routes says.
#[derive(Clone, Copy, Debug, PartialEq, Eq)]
pub enum RouteReading {
    /// No route: its first word isn't `route`, and the line is passed over.
    Other,
    Route(RouteLine),
    /// Its first word is `route`, and the words behind it are no route.
    Bad,
}
