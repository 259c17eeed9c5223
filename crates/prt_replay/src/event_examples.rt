//! Lines of replay files with their events, and lines of outcomes, computed with the definitions alone.
ghost use Rattle.std.specs.Prelude.{◌≡◌, [], ◌∷◌, ◌++◌, Err, None, Ok, Some, codes, replicate};
ghost use Rattle.prt_refusals.specs.declared.refusal.Refusal.TheVariants.{BadAddress, BadNumber, BadPrefix, Closed, LineTooLong, MissingDestination};
ghost use Rattle.prt_refusals.specs.declared.refusal.Refusal.TheVariants.{MissingValue, NoNextHop, NotAscii, NotPublished, StoreFailed, TooManyLines};
ghost use Rattle.prt_refusals.specs.declared.refusal.Refusal.TheVariants.{UnknownObject, UnknownVerb, UnknownWord};
ghost use Rattle.prt_refusals.specs.declared.refusal.StoreCall.TheVariants.{Begin, Commit, Count, Write};
ghost use Rattle.prt_command.specs.declared.request.Command.TheVariants.{RouteAdd, RuleFlush};
ghost use Rattle.prt_replay.specs.Example.{default_route, get, no_answer, route_answer};
ghost use Rattle.prt_replay.specs.ReadEvents.{events_of, events_of_lines, line_event};
ghost use Rattle.prt_replay.specs.TraceText.{outcome_text, trace_text};
ghost use Rattle.prt_replay.specs.declared.event.Event.TheVariants as events;
ghost use Rattle.prt_replay.specs.declared.event.Fate.TheVariants.{Kept, Lost};
ghost use Rattle.prt_replay.specs.declared.outcome.Outcome.TheVariants as outcomes;

/// Shows lines with their events.
pub fn event_lines()
    ensures submit { line_event (codes "submit route add default dev eth0") ≡ Ok (Some (events.Submit (RouteAdd default_route))) }
    ensures submit_after_ip { line_event (codes "\tsubmit ip -4 rule flush # all of them") ≡ Ok (Some (events.Submit RuleFlush)) }
    ensures submit_all { line_event (codes "submitall route add default dev eth0 ; rule flush")
        ≡ Ok (Some (events.SubmitAll (RouteAdd default_route ∷ RuleFlush ∷ []))) }
    ensures submit_all_of_one { line_event (codes "submitall ip rule flush # alone") ≡ Ok (Some (events.SubmitAll (RuleFlush ∷ []))) }
    ensures call { line_event (codes "call") ≡ Ok (Some events.Call) }
    ensures fail_kept { line_event (codes "fail kept") ≡ Ok (Some (events.Fail Kept)) }
    ensures fail_lost { line_event (codes "fail lost") ≡ Ok (Some (events.Fail Lost)) }
    ensures publish { line_event (codes "publish") ≡ Ok (Some events.Publish) }
    ensures publishfail { line_event (codes "publishfail") ≡ Ok (Some events.PublishFail) }
    ensures note { line_event (codes "note") ≡ Ok (Some events.Note) }
    ensures ack { line_event (codes "ack\r") ≡ Ok (Some events.Ack) }
    ensures online { line_event (codes "online 0") ≡ Ok (Some (events.Online 0)) }
    ensures last_looker { line_event (codes "online 63") ≡ Ok (Some (events.Online 63)) }
    ensures hexadecimal_looker { line_event (codes "fetch 0x3F") ≡ Ok (Some (events.Fetch 63)) }
    ensures announce { line_event (codes "announce 7") ≡ Ok (Some (events.Announce 7)) }
    ensures offline { line_event (codes "offline 10") ≡ Ok (Some (events.Offline 10)) }
    ensures look { line_event (codes "look 0 route get 10.0.0.1") ≡ Ok (Some (events.Look 0 (get 0x0a000001))) }
    ensures reclaim { line_event (codes "reclaim") ≡ Ok (Some events.Reclaim) }
    ensures stop_kept { line_event (codes "stop kept") ≡ Ok (Some (events.Stop Kept)) }
    ensures stop_lost { line_event (codes "stop lost") ≡ Ok (Some (events.Stop Lost)) }
    ensures reopen { line_event (codes "reopen") ≡ Ok (Some events.Reopen) }
    ensures blank { line_event (codes " \t\r") ≡ Ok None }
    ensures comment { line_event (codes "# reopen" ++ 195 ∷ []) ≡ Ok None }
{}

/// Shows lines that are refused, each for its first fault.
pub fn refused_lines()
    ensures unknown_looker { events_of (codes "online 64") ≡ Err BadNumber }
    ensures no_fate { events_of (codes "fail") ≡ Err MissingValue }
    ensures word_after_the_last { events_of (codes "reclaim now") ≡ Err UnknownWord }
    ensures nothing_submitted { events_of (codes "submit") ≡ Err MissingDestination }
    ensures looks_for_no_packet { events_of (codes "look 0 route show") ≡ Err UnknownVerb }
    ensures unknown_event { line_event (codes "crash") ≡ Err UnknownWord }
    ensures case_matters { line_event (codes "Call") ≡ Err UnknownWord }
    ensures ip_is_no_event { line_event (codes "ip reopen") ≡ Err UnknownWord }
    ensures misspelt_fate { line_event (codes "stop keep") ≡ Err UnknownWord }
    ensures no_stop_fate { line_event (codes "stop # kept") ≡ Err MissingValue }
    ensures word_after_fate { line_event (codes "fail kept now") ≡ Err UnknownWord }
    ensures no_looker { line_event (codes "online") ≡ Err MissingValue }
    ensures no_number { line_event (codes "offline first") ≡ Err BadNumber }
    ensures leading_zero { line_event (codes "announce 07") ≡ Err BadNumber }
    ensures bad_looker_before_more { line_event (codes "fetch 64 0") ≡ Err BadNumber }
    ensures word_after_looker { line_event (codes "fetch 0 1") ≡ Err UnknownWord }
    ensures blank_look { line_event (codes "look 0") ≡ Err MissingDestination }
    ensures look_of_none { line_event (codes "look") ≡ Err MissingValue }
    ensures look_of_bad_looker { line_event (codes "look 64") ≡ Err BadNumber }
    ensures look_of_a_command { line_event (codes "look 0 rule flush") ≡ Err UnknownVerb }
    ensures look_of_bad_address { line_event (codes "look 0 route get default") ≡ Err BadAddress }
    ensures query_submitted { line_event (codes "submit route get 10.0.0.1") ≡ Err UnknownVerb }
    ensures listing_submitted { line_event (codes "submit rule") ≡ Err UnknownVerb }
    ensures no_object_submitted { line_event (codes "submit ip") ≡ Err UnknownObject }
    ensures bad_line_submitted { line_event (codes "submit route add 10/33") ≡ Err BadPrefix }
    ensures no_next_hop_submitted { line_event (codes "submit route add 10/8") ≡ Err NoNextHop }
    ensures none_of_all { line_event (codes "submitall") ≡ Err MissingDestination }
    ensures blank_before_the_first { line_event (codes "submitall ; rule flush") ≡ Err MissingDestination }
    ensures blank_between { line_event (codes "submitall rule flush ; ; rule flush") ≡ Err MissingDestination }
    ensures blank_after_the_last { line_event (codes "submitall rule flush ; # rule flush") ≡ Err MissingDestination }
    ensures query_among_all { line_event (codes "submitall rule flush ; rule") ≡ Err UnknownVerb }
    ensures first_fault_of_all { line_event (codes "submitall route add 10/8 ; rule") ≡ Err NoNextHop }
    ensures semicolon_in_a_word { line_event (codes "submitall rule flush; rule flush") ≡ Err UnknownVerb }
    ensures two_to_submit { line_event (codes "submit rule flush ; rule flush") ≡ Err UnknownWord }
    ensures not_ascii { line_event (codes "call" ++ 195 ∷ []) ≡ Err NotAscii }
    ensures too_long { line_event (codes "call" ++ replicate 1021 32) ≡ Err LineTooLong }
    ensures first_of_two_lines { events_of (codes "call\n\nfail\nonline 64\n") ≡ Err MissingValue }
    ensures a_line_too_many { events_of_lines 1 2 (codes "call" ∷ [] ∷ []) ≡ Err TooManyLines }
    ensures an_event_too_many { events_of_lines 4 1 (codes "call" ∷ [] ∷ codes "call" ∷ codes "fail" ∷ []) ≡ Err TooManyLines }
    ensures own_refusal_of_one_too_many { events_of_lines 4 1 (codes "call" ∷ codes "fail" ∷ []) ≡ Err MissingValue }
{}

/// Shows the lines of outcomes.
pub fn outcome_lines()
    ensures none { outcome_text outcomes.Nothing ≡ codes "none" }
    ensures prepared { outcome_text (outcomes.Prepared 1) ≡ codes "prepared 1" }
    ensures refused { outcome_text (outcomes.Refused (StoreFailed Commit)) ≡ codes "error 27 StoreFailed" }
    ensures closed { outcome_text (outcomes.Refused Closed) ≡ codes "error 20 Closed" }
    ensures not_published { outcome_text (outcomes.Refused NotPublished) ≡ codes "error 28 NotPublished" }
    ensures begin { outcome_text (outcomes.Called Begin) ≡ codes "begin" }
    ensures write { outcome_text (outcomes.Called Write) ≡ codes "write" }
    ensures count { outcome_text (outcomes.Called Count) ≡ codes "count" }
    ensures commit { outcome_text (outcomes.Called Commit) ≡ codes "commit" }
    ensures published { outcome_text (outcomes.Published 10) ≡ codes "published 10" }
    ensures noted { outcome_text (outcomes.Noted 1) ≡ codes "noted 1" }
    ensures acknowledged { outcome_text (outcomes.Acknowledged 1) ≡ codes "ok 1" }
    ensures online { outcome_text (outcomes.Online 63 0) ≡ codes "online 63 0" }
    ensures fetched { outcome_text (outcomes.Fetched 0 1) ≡ codes "fetch 0 1" }
    ensures announced { outcome_text (outcomes.Announced 0 1) ≡ codes "announce 0 1" }
    ensures offline { outcome_text (outcomes.Offline 5) ≡ codes "offline 5" }
    ensures no_route { outcome_text (outcomes.Answered no_answer) ≡ codes "answer 0 none" }
    ensures route { outcome_text (outcomes.Answered route_answer) ≡ codes "answer 1 rule 32766 table main default dev eth0 scope link" }
    ensures reclaimed { outcome_text (outcomes.Reclaimed 1) ≡ codes "reclaim 1" }
    ensures stopped { outcome_text outcomes.Stopped ≡ codes "stop" }
    ensures reopened { outcome_text (outcomes.Reopened 1) ≡ codes "reopen 1" }
    ensures in_order { trace_text (outcomes.Stopped ∷ outcomes.Reopened 0 ∷ []) ≡ codes "stop\nreopen 0\n" }
    ensures of_nothing { trace_text [] ≡ [] }
{}
