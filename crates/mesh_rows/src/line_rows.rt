//! Single lines, computed from the definitions alone: the command that each gives, or why it is
//! refused.

ghost use Rattle.std.specs.Prelude.{◌≡◌, [], ◌∷◌, ◌++◌, codes, replicate, Err};
ghost use Rattle.mesh_model.specs.Scenario.Commands.{command_of_line, hash};
ghost use Rattle.mesh_model.specs.Scenario.Lines.{carriage_return, newline};
ghost use Rattle.mesh_model.specs.Scenario.Terms.{lost_mark};
ghost use Rattle.mesh_model.specs.Scenario.Words.{space};
ghost use Rattle.mesh_model.specs.declared.ending.LimitName.TheVariants.{Line};
ghost use Rattle.mesh_model.specs.declared.ending.Refusal.TheVariants.{BadNumber, BadUtf8, ExtraWord, MissingWord, OutOfRange};
ghost use Rattle.mesh_model.specs.declared.ending.Stop.TheVariants.{Limit};
ghost use Rattle.mesh_model.specs.declared.line_form.Command.TheVariants.{Arp, Decode, Frag, Frame, Link, Put, Show};
ghost use Rattle.mesh_model.specs.declared.line_form.Table.TheVariants.{Locals};
ghost use Rattle.mesh_rows.specs.LineRows.{Gives, IsRefusedFor, client, everyone, vlan};

/// The numbers of an IP address may have leading zeros, and the first of them stands highest.
pub fn an_ip_address_is_four_numbers()
    ensures { Gives (codes "arp A 02:00:00:00:01:07 10.0.0.1 010.0.0.255 -")
        (Arp (codes "A") client 167772161 167772415 (vlan 0)) }
{}

/// A number past 255, three numbers, five, and an empty one make no IP address.
pub fn another_spelling_is_no_ip_address()
    ensures past { IsRefusedFor (codes "arp A 02:00:00:00:01:07 10.0.0.256 10.0.0.2 -") BadNumber }
    ensures three { IsRefusedFor (codes "arp A 02:00:00:00:01:07 10.0.1 10.0.0.2 -") BadNumber }
    ensures five { IsRefusedFor (codes "arp A 02:00:00:00:01:07 10.0.0.1.2 10.0.0.2 -") BadNumber }
    ensures empty { IsRefusedFor (codes "arp A 02:00:00:00:01:07 10..0.1 10.0.0.2 -") BadNumber }
{}

/// Hex digits are of either case.
pub fn bytes_are_pairs_of_hex_digits()
    ensures { Gives (codes "decode 00fFa0") (Decode (0 ∷ 255 ∷ 160 ∷ [])) }
{}

/// Half a pair, another character, and blanks between pairs.
pub fn another_spelling_is_no_hex()
    ensures half { IsRefusedFor (codes "decode 0") BadNumber }
    ensures other { IsRefusedFor (codes "decode 0g") BadNumber }
    ensures blank { IsRefusedFor (codes "decode 00 ff") ExtraWord }
{}

/// The options of a link stand in any order; one that isn't given has its usual value.
pub fn options_stand_in_any_order()
    ensures all { Gives (codes "link A B tp=7 pattern=.x2h delay=0005")
        (Link (codes "A") (codes "B") 5 (codes ".x2h") 7) }
    ensures usual { Gives (codes "link A B") (Link (codes "A") (codes "B") 1 (codes ".") 10) }
{}

/// An option that is given twice, one outside its range, and a word that is none are bad numbers;
/// behind three options a word is one too many.
pub fn another_word_is_no_option()
    ensures twice { IsRefusedFor (codes "link A B tp=1 tp=1") BadNumber }
    ensures outside { IsRefusedFor (codes "link A B delay=10001") BadNumber }
    ensures none { IsRefusedFor (codes "link A B fast") BadNumber }
    ensures extra { IsRefusedFor (codes "link A B tp=1 delay=2 pattern=x fast") ExtraWord }
{}

/// A text is the rest of its line, with the blanks within it and at its end.
pub fn a_text_is_the_rest_of_its_line()
    ensures { Gives (codes "frame A 02:00:00:00:01:07 ff:ff:ff:ff:ff:ff 4094  hi  there ")
        (Frame (codes "A") client everyone (vlan 36862) (codes "hi  there ")) }
{}

/// The text of a fact has at most 1,000 bytes.
pub fn a_fact_has_at_most_1000_bytes()
    ensures most { Gives (codes "alfred A put 64 255 " ++ replicate 1000 lost_mark)
        (Put (codes "A") 64 255 (replicate 1000 lost_mark)) }
    ensures more { IsRefusedFor (codes "alfred A put 64 255 " ++ replicate 1001 lost_mark)
        OutOfRange }
{}

/// A comment that isn't UTF-8 is refused, and one that is too long first of all.
pub fn a_comment_is_utf8()
    ensures bad { IsRefusedFor (hash ∷ 255 ∷ newline ∷ []) BadUtf8 }
    ensures long { command_of_line (replicate 4097 255) ≡ Err (Limit Line) }
{}

/// A carriage return is dropped before a newline, and stands at the end of a last line without one.
pub fn a_return_is_dropped_before_a_newline()
    ensures dropped { Gives (codes "show A tl" ++ carriage_return ∷ newline ∷ [])
        (Show (codes "A") Locals) }
    ensures stands { IsRefusedFor (codes "show A tl" ++ carriage_return ∷ []) OutOfRange }
{}

/// Packets are cut from 300 bytes on, or not at all.
pub fn a_length_of_fragments_is_0_or_300_at_least()
    ensures off { Gives (codes "set A frag 0") (Frag (codes "A") 0) }
    ensures least { Gives (codes "set A frag 300") (Frag (codes "A") 300) }
    ensures greatest { Gives (codes "set A frag 65535") (Frag (codes "A") 65535) }
    ensures below { IsRefusedFor (codes "set A frag 299") OutOfRange }
    ensures past { IsRefusedFor (codes "set A frag 65536") OutOfRange }
    ensures no_number { IsRefusedFor (codes "set A frag x") BadNumber }
    ensures missing { IsRefusedFor (codes "set A frag") MissingWord }
{}
