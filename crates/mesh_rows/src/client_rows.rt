//! Small scenarios with clients, computed from the definitions alone: what nodes commit, what they
//! know of one another's clients, and where client frames go.

ghost use Rattle.std.specs.Prelude.{[], ◌∷◌, ◌++◌, codes};
ghost use Rattle.mesh_model.specs.declared.frame_choice.FrameChoice.TheVariants.{Client, Hidden};
ghost use Rattle.mesh_rows.specs.NetLines.{duo};
ghost use Rattle.mesh_rows.specs.NetRows.{Prints};

/// A client that is gone before the next tick is never committed.
pub fn a_client_that_is_gone_is_not_committed()
    ensures { Prints Hidden
        (codes "node A 02:00:00:00:00:0a" ∷ codes "run 100"
        ∷ codes "frame A 02:00:00:00:01:01 ff:ff:ff:ff:ff:ff - x"
        ∷ codes "gone A 02:00:00:00:01:01 -" ∷ codes "run 1000" ∷ codes "show A tl" ∷ [])
        (codes "tl A version=0 clients=0" ∷ []) }
{}

/// A client that moves to a wireless device is committed anew.
pub fn flags_are_committed()
    ensures { Prints Hidden
        (codes "node A 02:00:00:00:00:0a" ∷ codes "frame A 02:00:00:00:01:01 ff:ff:ff:ff:ff:ff - x"
        ∷ codes "run 1000" ∷ codes "set A wifi on"
        ∷ codes "frame A 02:00:00:00:01:01 ff:ff:ff:ff:ff:ff - x" ∷ codes "run 1000"
        ∷ codes "show A tl" ∷ [])
        (codes "tl A version=2 clients=1" ∷ codes "vlan - sum=1dfb29b2"
        ∷ codes "c 02:00:00:00:01:01 - w- age=1000" ∷ []) }
{}

/// A node that was told of a table asks for it once it has a route, and takes the answer.
pub fn a_table_is_asked_for_and_taken()
    ensures { Prints Hidden
        (codes "node A 02:00:00:00:00:0a" ∷ codes "node B 02:00:00:00:00:0b"
        ∷ codes "frame A 02:00:00:00:01:01 ff:ff:ff:ff:ff:ff - x"
        ∷ codes "link A B" ∷ codes "link B A" ∷ codes "run 2002" ∷ codes "show B tg"
        ∷ codes "run 1" ∷ codes "show B tg" ∷ [])
        (codes "tg B count=1" ∷ codes "t 02:00:00:00:00:0a held=- told=1 state=none entries=0"
        ∷ codes "tg B count=1" ∷ codes "t 02:00:00:00:00:0a held=1 told=1 state=ok entries=1"
        ∷ codes "e 02:00:00:00:01:01 - --" ∷ []) }
{}

/// A client roams: its frames are sent to its new node by a mark, and by the table once that is
/// told.
pub fn a_client_roams()
    ensures { Prints Client
        (duo ++ codes "frame A 02:00:00:00:01:01 02:00:00:00:01:09 - x" ∷ codes "run 5000"
        ∷ codes "frame B 02:00:00:00:01:01 02:00:00:00:01:09 - x" ∷ codes "run 500"
        ∷ codes "frame A 02:00:00:00:01:02 02:00:00:00:01:01 - hi" ∷ codes "run 1000"
        ∷ codes "frame A 02:00:00:00:01:02 02:00:00:00:01:01 - hi" ∷ codes "run 1" ∷ [])
        (codes "lost 0 A - 02:00:00:00:01:01 02:00:00:00:01:09 unknown"
        ∷ codes "lost 5000 B - 02:00:00:00:01:01 02:00:00:00:01:09 unknown"
        ∷ (codes "f24 5500 A>B unicast by=roam "
        ++ codes "400f320002000000000b02000000010102000000010288b56869")
        ∷ codes "recv 5501 B - 02:00:00:00:01:02 02:00:00:00:01:01 hi"
        ∷ (codes "f29 6500 A>B unicast by=table "
        ++ codes "400f320102000000000b02000000010102000000010288b56869")
        ∷ codes "recv 6501 B - 02:00:00:00:01:02 02:00:00:00:01:01 hi" ∷ []) }
{}

/// A node on the way answers for an originator whose table it holds.
pub fn a_node_on_the_way_answers()
    ensures { Prints Hidden
        (codes "node A 02:00:00:00:00:0a" ∷ codes "node B 02:00:00:00:00:0b"
        ∷ codes "node C 02:00:00:00:00:0c" ∷ codes "link A B" ∷ codes "link B A"
        ∷ codes "link B C pattern=.........................x..x..x..x............."
        ∷ codes "link C B" ∷ codes "run 8500"
        ∷ codes "frame A 02:00:00:00:01:01 02:00:00:00:01:09 - hi" ∷ codes "run 4502"
        ∷ codes "show C tg" ∷ codes "run 2" ∷ codes "show C tg" ∷ [])
        (codes "lost 8500 A - 02:00:00:00:01:01 02:00:00:00:01:09 unknown"
        ∷ codes "tg C count=2" ∷ codes "t 02:00:00:00:00:0a held=0 told=1 state=old entries=0"
        ∷ codes "t 02:00:00:00:00:0b held=0 told=0 state=ok entries=0"
        ∷ codes "tg C count=2" ∷ codes "t 02:00:00:00:00:0a held=1 told=1 state=ok entries=1"
        ∷ codes "e 02:00:00:00:01:01 - --"
        ∷ codes "t 02:00:00:00:00:0b held=0 told=0 state=ok entries=0" ∷ []) }
{}
