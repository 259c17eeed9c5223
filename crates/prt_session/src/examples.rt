//! Scripts with their replies, computed with the definitions alone.
ghost use Rattle.std.specs.Prelude.{◌≡◌, ◌∷◌, [], ◌++◌, None, Some, codes, flat_map, length, replicate, true};
ghost use Rattle.prt_session.specs.Example.{atomic_on, atomic_replies_to, refusals_of, replies_to, session_on};
ghost use Rattle.prt_session.specs.Desk.{commit_kept, no_memory, publication_fails};
ghost use Rattle.prt_replies.specs.Input.{end_of_input, read_fault};
ghost use Rattle.prt_refusals.specs.declared.on_refusal.OnRefusal.TheVariants.{GoOn, Stop};

/// What comes after a refused line is left unread.
pub fn unread_rest()
    ensures { (session_on Stop (codes "route add 10/8 via 192.0.2.1\nroute add 10/8 via 192.0.2.2\nroute show\n") end_of_input []).unread
        ≡ codes "route show\n" }
{}

/// What a check writes of some lines: a blank one counts, and what a command would be refused for is not seen.
pub fn checked_lines()
    ensures refusals { refusals_of
        (codes "route add 10/8 via 192.0.2.1\n\nroute add 10/8 via 192.0.2.2\nroute add 10/8 mtu 9\n# end\nlink\nrule show") end_of_input
        ≡ codes "4: error 5 UnknownWord\n6: error 3 UnknownObject\n" }
    ensures read_fault { refusals_of (codes "route get\nroute get 1") read_fault ≡ codes "1: error 14 MissingDestination\n2: error 32 ReadFault\n" }
{}

/// A reader that fails, memory that is refused, and a store that fails.
pub fn mishaps()
    ensures read_fault { replies_to GoOn (codes "route get 1\nroute get 2") read_fault [] ≡ codes "answer 0 none\nerror 32 ReadFault\n" }
    ensures no_memory { replies_to GoOn (codes "route get 1\nroute add 0/0 dev a\nroute get 1\n") end_of_input (Some no_memory ∷ (Some no_memory ∷ []))
        ≡ codes "error 26 NoMemory\nerror 26 NoMemory\nanswer 0 none\n" }
    ensures closed { replies_to GoOn (codes "route add 0/0 dev a\nroute add 10/8 dev a\nroute get 1\n") end_of_input (Some commit_kept ∷ [])
        ≡ codes "error 27 StoreFailed\nerror 20 Closed\nanswer 0 none\n" }
    ensures kept { (session_on GoOn (codes "route add 0/0 dev a\n") end_of_input (Some publication_fails ∷ [])).desk.stored.count ≡ 1 }
{}

/// Long lines, and a line without an end.
pub fn line_limits()
    ensures longest { replies_to GoOn (codes "rule show" ++ replicate 1015 32) end_of_input []
        ≡ codes "0:\tfrom all lookup local\n32766:\tfrom all lookup main\n32767:\tfrom all lookup default\nend 3\n" }
    ensures longest_ended { replies_to GoOn (codes "rule show" ++ replicate 1015 32 ++ codes "\n") end_of_input []
        ≡ codes "0:\tfrom all lookup local\n32766:\tfrom all lookup main\n32767:\tfrom all lookup default\nend 3\n" }
    ensures too_long { replies_to GoOn (codes "rule show" ++ replicate 1016 32 ++ codes "\nroute get 1") end_of_input []
        ≡ codes "error 1 LineTooLong\nanswer 0 none\n" }
    ensures endless { replies_to GoOn (replicate 65537 32 ++ codes "\nroute get 1\n") end_of_input [] ≡ codes "error 1 LineTooLong\n" }
    ensures unread { (session_on GoOn (replicate 65537 32 ++ codes "\nroute get 1\n") end_of_input []).unread ≡ codes "\nroute get 1\n" }
{}

/// Atomic files: one that is made, one that the tables refuse, and three that are refused as they are read.
pub fn atomic_files()
    ensures atomic_ok { atomic_replies_to (codes "route add 10/8 dev a1\n# x\nrule add table 7\n") ≡ codes "ok 1\nok 2\n" }
    ensures atomic_refused { atomic_replies_to (codes "route add 10/8 dev a1\nroute add 10/8 dev a2\n") ≡ codes "error 21 Exists\n" }
    ensures none_made { (atomic_on (codes "route add 10/8 dev a1\nroute add 10/8 dev a2\n")).desk.published.count ≡ 0 }
    ensures atomic_first_fault { atomic_replies_to (codes "route add 10/8 dev a1\nroute add 10/8 dev a2\nroute add x\n") ≡ codes "error 9 BadPrefix\n" }
    ensures atomic_query { atomic_replies_to (codes "route add 10/8 dev a1\nrule show\n") ≡ codes "error 4 UnknownVerb\n" }
    ensures atomic_limit { atomic_replies_to (flat_map (λ line. line) (replicate 1001 (codes "rule flush\n"))) ≡ codes "error 19 TooManyCommands\n" }
{}
