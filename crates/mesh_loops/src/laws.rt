//! Laws of the lines of routes and of their loops, each proved as the contract of a function that
//! does nothing.

ghost use Rattle.mesh_loops.specs.Laws.{LoopsAreRings, OneLoop, RoutesComeBack};

/// The loops of lines are the rings of different nodes that begin with their least.
pub fn loops_are_rings()
    ensures { LoopsAreRings }
{}

/// No node is in two loops of one originator.
pub fn one_loop_through_a_node()
    ensures { OneLoop }
{}

/// What is printed of a route is read as it.
pub fn a_printed_route_is_read()
    ensures { RoutesComeBack }
{}
