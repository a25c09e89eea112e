//! What holds of the distributed ARP table: how long a pair of an IP address and a VLAN is known,
//! which answers are printed as found, and which nodes keep a pair.

ghost use Rattle.mesh_laws.specs.AddressLaws.{AwaitedByLines, AwaitedUntilTold, CandidatesAreAmong, CandidatesAreInOrder, CandidatesAreNearest, CandidatesAreThree, FoundAnswersQuestion, KnownWhileYoung, NoneAwaitedUntilAsked, QuestionFindsNone};

/// A pair is known exactly while what was learned last of it is younger than 300,000 ms.
pub fn a_pair_is_known_while_it_is_young()
    ensures { KnownWhileYoung }
{}

/// What is printed as found answers a question: an answer came with this address, and one was
/// awaited for its pair. A line asked for it, and none is awaited behind it until the pair is asked
/// for again.
pub fn what_is_found_answers_a_question()
    ensures found { FoundAnswersQuestion }
    ensures none { QuestionFindsNone }
    ensures awaited { AwaitedUntilTold }
    ensures lines { AwaitedByLines }
    ensures once { NoneAwaitedUntilAsked }
{}

/// A pair is kept by the three nodes that are the nearest to it, in a tie by those of the smaller
/// addresses.
pub fn a_pair_is_kept_by_the_nearest()
    ensures three { CandidatesAreThree }
    ensures among { CandidatesAreAmong }
    ensures nearest { CandidatesAreNearest }
    ensures order { CandidatesAreInOrder }
{}
