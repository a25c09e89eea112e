//! Small scenarios, computed from the definitions alone: what each prints, and where it halts.

ghost use Rattle.std.specs.Prelude.{◌≡◌, ℕ, List, [], ◌∷◌, ◌++◌, codes, None, Some, replicate};
ghost use Rattle.mesh_model.specs.Text.Messages.{halt_text};
ghost use Rattle.mesh_model.specs.Scenario.Commands.{hash};
ghost use Rattle.mesh_rows.specs.Rows.{lines, one_client, one_row, HaltsAt, RunsToItsEnd};
ghost use Rattle.mesh_model.specs.declared.ending.LimitName.TheVariants.{Line};
ghost use Rattle.mesh_model.specs.declared.ending.Refusal.TheVariants.{AddressTaken, BadMac, MissingWord, NameTaken, UnknownName};
ghost use Rattle.mesh_model.specs.declared.ending.Stop.TheVariants.{Limit, Refused};

/// A node that saw a client prints it in its local table.
pub fn a_client_is_shown()
    ensures { RunsToItsEnd (lines (one_client ++ codes "show A tl" ∷ [])) (lines one_row) }
{}

/// An input without lines prints nothing.
pub fn an_empty_input_prints_nothing()
    ensures { RunsToItsEnd [] [] }
{}

/// A last line without a newline is carried out.
pub fn a_last_line_needs_no_newline()
    ensures { RunsToItsEnd (lines one_client ++ codes "show A tl") (lines one_row) }
{}

/// Comments and empty lines do nothing; a name that no line gave is refused, and what was printed
/// stays.
pub fn an_unknown_name_is_refused()
    ensures halts { HaltsAt
        (lines (one_client ++ codes "show A tl" ∷ codes "# x" ∷ [] ∷ codes "show A tl"
        ∷ codes "show X tl" ∷ []))
        (lines (one_row ++ one_row)) 7 (Refused UnknownName) }
    ensures told { halt_text (record { line = 7; stop = Refused UnknownName })
        ≡ lines (codes "batmesh: line 7: unknown name" ∷ []) }
{}

/// A line of 4,096 bytes is within the limit.
pub fn a_comment_may_have_4096_bytes()
    ensures { RunsToItsEnd (replicate 4096 hash) [] }
{}

/// A line of 4,097 bytes isn't.
pub fn a_comment_of_4097_bytes_passes_the_limit()
    ensures halts { HaltsAt (replicate 4097 hash) [] 1 (Limit Line) }
    ensures told { halt_text (record { line = 1; stop = Limit Line })
        ≡ lines (codes "batmesh: line 1: limit line" ∷ []) }
{}

/// Each node has a log of its own, and its table is printed under its own name.
pub fn nodes_have_tables_of_their_own()
    ensures { RunsToItsEnd
        (lines (one_client ++ codes "node B 02:00:00:00:00:0b" ∷ codes "show B tl"
        ∷ codes "frame B 02:00:00:00:01:02 ff:ff:ff:ff:ff:ff 7 x" ∷ codes "show B tl"
        ∷ codes "show A tl" ∷ []))
        (lines (codes "tl B version=0 clients=0"
        ∷ codes "tl B version=0 clients=1"
        ∷ codes "c 02:00:00:00:01:02 7 -- age=0" ∷ one_row)) }
{}

/// A name stands for one node.
pub fn a_second_node_of_a_name_is_refused()
    ensures { HaltsAt
        (lines (codes "node A 02:00:00:00:00:0a" ∷ codes "node A 02:00:00:00:00:0a" ∷ []))
        [] 2 (Refused NameTaken) }
{}

/// An address stands for one node.
pub fn a_second_node_of_an_address_is_refused()
    ensures { HaltsAt
        (lines (codes "node A 02:00:00:00:00:0a" ∷ codes "node B 02:00:00:00:00:0A" ∷ []))
        [] 2 (Refused AddressTaken) }
{}

/// A fact is put at a node that an earlier line gave.
pub fn a_fact_of_an_unknown_node_is_refused()
    ensures { HaltsAt (lines (codes "alfred A put 64 1 hi" ∷ [])) [] 1 (Refused UnknownName) }
{}

/// The words of a line are looked at from left to right.
pub fn a_bad_address_is_named()
    ensures { HaltsAt (lines (codes "frame A zz ff:ff:ff:ff:ff:ff - x" ∷ [])) [] 1
        (Refused BadMac) }
{}

/// A form wants all its words.
pub fn a_missing_word_is_named()
    ensures { HaltsAt (lines (codes "show A" ∷ [])) [] 1 (Refused MissingWord) }
{}

/// A carriage return before a newline is dropped, tabs and further spaces separate words, a client
/// that is seen twice is one row, and rows stand in key order: untagged before tagged.
pub fn rows_stand_in_key_order()
    ensures { RunsToItsEnd
        (lines (codes "node A 02:00:00:00:00:0a"
        ∷ codes "frame A 02:00:00:00:01:07 ff:ff:ff:ff:ff:ff 1 t0"
        ∷ codes "frame A 02:00:00:00:01:07 FF:ff:FF:ff:ff:ff - t3"
        ∷ codes "frame A 02:00:00:00:01:01 ff:ff:ff:ff:ff:ff 4094 t5"
        ∷ codes "frame A 02:00:00:00:01:07 ff:ff:ff:ff:ff:ff 001 t6"
        ∷ (codes "  show  A\ttl " ++ 13 ∷ []) ∷ []))
        (lines (codes "tl A version=0 clients=3"
        ∷ codes "c 02:00:00:00:01:01 4094 -- age=0"
        ∷ codes "c 02:00:00:00:01:07 - -- age=0"
        ∷ codes "c 02:00:00:00:01:07 1 -- age=0" ∷ [])) }
{}
