//! Lines of routes as they are printed and read, and the runs of such lines, computed from the
//! definitions alone.

ghost use Rattle.std.specs.Prelude.{◌≡◌, [], ◌∷◌, ◌++◌, codes, replicate, None, Some};
ghost use Rattle.mesh_model.specs.Loops.RouteLines.{route_of_line};
ghost use Rattle.mesh_model.specs.Text.Routes.{route_text};
ghost use Rattle.mesh_model.specs.declared.route_line.RouteReading.TheVariants.{Bad, Other, Route};
ghost use Rattle.mesh_model.specs.declared.ending.LimitName.TheVariants.{Line};
ghost use Rattle.mesh_model.specs.declared.ending.Refusal.TheVariants.{BadRoute, TimeBack};
ghost use Rattle.mesh_model.specs.declared.ending.Stop.TheVariants.{Limit, Refused};
ghost use Rattle.mesh_model.specs.declared.input_kind.InputKind.TheVariants.{Routes};
ghost use Rattle.mesh_model.specs.Run.InputRun.{run_of};
ghost use Rattle.mesh_model.specs.Text.Messages.{halt_text};
ghost use Rattle.mesh_rows.specs.LoopRows.{at, gone_line, lost_line, new_line, node_a, node_b, node_d, route, route_line, Reports, ReportsUpTo};
ghost use Rattle.mesh_rows.specs.Rows.{lines};

/// A route is printed with its moment and its addresses, and `-` where there is none.
pub fn a_route_is_printed()
    ensures there { route_text (route 2001 node_a (Some node_b)) ≡ lines
        (codes "route 2001 02:00:00:00:00:0a 02:00:00:00:00:0d 02:00:00:00:00:0b" ∷ []) }
    ensures lost { route_text (route 0 node_a None) ≡ lines
        (codes "route 0 02:00:00:00:00:0a 02:00:00:00:00:0d -" ∷ []) }
{}

/// It is read as it is printed; blanks may be many, tabs stand for them, and digits may be great.
pub fn a_route_is_read()
    ensures there { route_of_line
        (codes "route 2001 02:00:00:00:00:0a 02:00:00:00:00:0d 02:00:00:00:00:0b")
        ≡ Route (route 2001 node_a (Some node_b)) }
    ensures lost { route_of_line (codes "route 0 02:00:00:00:00:0a 02:00:00:00:00:0d -")
        ≡ Route (route 0 node_a None) }
    ensures blanks { route_of_line (codes "  route 7  02:00:00:00:00:0A 02:00:00:00:00:0D - ")
        ≡ Route (route 7 node_a None) }
    ensures greatest { route_of_line
        (codes "route 1099511627776 02:00:00:00:00:0a 02:00:00:00:00:0d -")
        ≡ Route (route 1099511627776 node_a None) }
{}

/// A line whose first word is another is passed over, whatever it holds.
pub fn other_lines_are_passed_over()
    ensures empty { route_of_line [] ≡ Other }
    ensures comment { route_of_line (codes "# route x") ≡ Other }
    ensures longer { route_of_line (codes "routes 1") ≡ Other }
    ensures command { route_of_line (codes "recv A 5 02:00:00:00:00:0a") ≡ Other }
    ensures broken { route_of_line (255 ∷ codes " route") ≡ Other }
{}

/// Behind `route` stand exactly a moment, two addresses, and an address or `-`.
pub fn other_words_are_no_route()
    ensures none { route_of_line (codes "route") ≡ Bad }
    ensures word { route_of_line (codes "route x") ≡ Bad }
    ensures few { route_of_line (codes "route 1 02:00:00:00:00:0a 02:00:00:00:00:0d") ≡ Bad }
    ensures many { route_of_line
        (codes "route 1 02:00:00:00:00:0a 02:00:00:00:00:0d - -") ≡ Bad }
    ensures late { route_of_line
        (codes "route 1099511627777 02:00:00:00:00:0a 02:00:00:00:00:0d -") ≡ Bad }
    ensures names { route_of_line (codes "route 1 A 02:00:00:00:00:0d -") ≡ Bad }
    ensures originator { route_of_line (codes "route 1 02:00:00:00:00:0a - -") ≡ Bad }
{}

/// A loop is told at the end of its moment, and cleared at the end of the one that breaks it.
pub fn a_loop_comes_and_goes()
    ensures broken { Reports
        (route_line (codes "1") (codes "a") (codes "b")
        ∷ route_line (codes "1") (codes "b") (codes "a")
        ∷ route_line (codes "2") (codes "b") (codes "d") ∷ [])
        (new_line (codes "1") (at (codes "a") ++ at (codes "b"))
        ∷ gone_line (codes "2") (codes "a") ∷ []) }
    ensures one { Reports (route_line (codes "1") (codes "a") (codes "a") ∷ [])
        (new_line (codes "1") (at (codes "a")) ∷ []) }
    ensures unfinished { (run_of Routes (route_line (codes "1") (codes "a") (codes "a"))).text
        ≡ lines (new_line (codes "1") (at (codes "a")) ∷ []) }
    ensures changed { Reports
        (route_line (codes "1") (codes "a") (codes "b")
        ∷ route_line (codes "1") (codes "b") (codes "a")
        ∷ route_line (codes "2") (codes "b") (codes "c")
        ∷ route_line (codes "2") (codes "c") (codes "a") ∷ [])
        (new_line (codes "1") (at (codes "a") ++ at (codes "b"))
        ∷ gone_line (codes "2") (codes "a")
        ∷ new_line (codes "2") (at (codes "a") ++ at (codes "b") ++ at (codes "c")) ∷ []) }
{}

/// A loop that comes and goes within one moment isn't told, and lines of other words are passed
/// over.
pub fn a_moment_is_told_as_a_whole()
    ensures within { Reports
        (route_line (codes "1") (codes "a") (codes "a")
        ∷ lost_line (codes "1") (codes "a") ∷ []) [] }
    ensures others { Reports
        (codes "# a comment" ∷ route_line (codes "1") (codes "a") (codes "a")
        ∷ codes "recv 1 A" ∷ (255 ∷ []) ∷ [] ∷ [])
        (new_line (codes "1") (at (codes "a")) ∷ []) }
    ensures none { Reports [] [] }
{}

/// A line that is refused, or at which a limit is reached, ends no moment.
pub fn a_refused_line_ends_no_moment()
    ensures back { ReportsUpTo
        (route_line (codes "5") (codes "a") (codes "b") ∷ lost_line (codes "4") (codes "a") ∷ [])
        [] 2 (Refused TimeBack) }
    ensures told { halt_text (record { line = 2; stop = Refused TimeBack })
        ≡ lines (codes "batmesh: line 2: time back" ∷ []) }
    ensures bad { ReportsUpTo
        (route_line (codes "5") (codes "a") (codes "a") ∷ codes "route x" ∷ [])
        [] 2 (Refused BadRoute) }
    ensures later { ReportsUpTo
        (route_line (codes "5") (codes "a") (codes "a")
        ∷ lost_line (codes "6") (codes "a") ∷ lost_line (codes "5") (codes "b") ∷ [])
        (new_line (codes "5") (at (codes "a")) ∷ []) 3 (Refused TimeBack) }
    ensures long { ReportsUpTo
        (route_line (codes "5") (codes "a") (codes "a") ∷ replicate 4097 35 ∷ [])
        [] 2 (Limit Line) }
{}
