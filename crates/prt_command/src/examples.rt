//! Lines with what they ask for, computed with the definitions alone.
ghost use Rattle.std.specs.Prelude.{◌≡◌, ◌∷◌, [], ◌++◌, Err, None, Ok, Some, codes, false, replicate, true};
ghost use Rattle.prt_refusals.specs.declared.refusal.Refusal.TheVariants.{BadAddress, BadName, BadNumber, BadPrefix, BadTable, HostBits, LineTooLong};
ghost use Rattle.prt_refusals.specs.declared.refusal.Refusal.TheVariants.{MissingDestination, MissingValue, NextHopNotAllowed, NoNextHop, NotAscii};
ghost use Rattle.prt_refusals.specs.declared.refusal.Refusal.TheVariants.{Repeated, SuppressNotAllowed, TooBroad, UnknownObject, UnknownVerb};
ghost use Rattle.prt_refusals.specs.declared.refusal.Refusal.TheVariants.{UnknownWord};
ghost use Rattle.prt_command.specs.Reading.{reading};
ghost use Rattle.prt_command.specs.declared.request.Command.TheVariants.{RouteAdd, RouteChange, RouteDel, RouteFlush, RouteReplace, RuleAdd, RuleDel};
ghost use Rattle.prt_command.specs.declared.request.Command.TheVariants.{RuleFlush};
ghost use Rattle.prt_command.specs.declared.request.Query.TheVariants.{Get, RouteShow, RuleShow};
ghost use Rattle.prt_command.specs.declared.request.Request.TheVariants as requests;
ghost use Rattle.prt_route.specs.declared.choice.Range.TheVariants as ranges;
ghost use Rattle.prt_route.specs.declared.kind.Kind.TheVariants as kinds;
ghost use Rattle.prt_rule.specs.declared.rule.Action.TheVariants as actions;

/// Refused lines, each with its first fault.
pub fn refused_lines()
    ensures too_long { reading (replicate 1025 32) ≡ Err LineTooLong }
    ensures not_ascii { reading (codes "route get 1" ++ 195 ∷ []) ≡ Err NotAscii }
    ensures no_object { reading (codes "ip -4") ≡ Err UnknownObject }
    ensures unknown_object { reading (codes "link show") ≡ Err UnknownObject }
    ensures skipped_in_order { reading (codes "-4 ip route get 1") ≡ Err UnknownObject }
    ensures unknown_rule_verb { reading (codes "rule get 1") ≡ Err UnknownVerb }
    ensures misspelt_verb { reading (codes "route dele 10/8") ≡ Err UnknownVerb }
    ensures verb_of_routes { reading (codes "rule change table 7") ≡ Err UnknownVerb }
    ensures unknown_verb { reading (codes "route append 10/8 dev eth0") ≡ Err UnknownVerb }
    ensures unknown_word { reading (codes "route add 10/8 dev eth0 onlink") ≡ Err UnknownWord }
    ensures unknown_list_word { reading (codes "route show 10/8 metric 5") ≡ Err UnknownWord }
    ensures rule_flush_takes_nothing { reading (codes "rule flush all") ≡ Err UnknownWord }
    ensures rule_show_takes_nothing { reading (codes "rule show table 7") ≡ Err UnknownWord }
    ensures unknown_type { reading (codes "route show type local") ≡ Err UnknownWord }
    ensures second_range { reading (codes "route show 10/8 11/8") ≡ Err UnknownWord }
    ensures unknown_rule_word { reading (codes "rule add goto 100") ≡ Err UnknownWord }
    ensures no_plain_item { reading (codes "rule add 10/8") ≡ Err UnknownWord }
    ensures interface_of_route { reading (codes "route add 10/8 iif eth0") ≡ Err UnknownWord }
    ensures unknown_kind { reading (codes "route add local 10/8") ≡ Err BadPrefix }
    ensures second_destination { reading (codes "route add 10/8 11/8") ≡ Err UnknownWord }
    ensures missing_value { reading (codes "route add 10/8 dev") ≡ Err MissingValue }
    ensures missing_before_repeated { reading (codes "route add 10/8 dev a dev") ≡ Err MissingValue }
    ensures nothing_after_to { reading (codes "route add 10/8 to") ≡ Err MissingValue }
    ensures nothing_after_kind { reading (codes "route add blackhole") ≡ Err MissingValue }
    ensures nothing_after_both { reading (codes "route add to blackhole") ≡ Err MissingValue }
    ensures nothing_after_match { reading (codes "route show match") ≡ Err MissingValue }
    ensures nothing_after_type { reading (codes "route flush type") ≡ Err MissingValue }
    ensures repeated_range { reading (codes "route show 10/8 exact 11/8") ≡ Err Repeated }
    ensures repeated_protocol { reading (codes "route show proto 2 protocol 3") ≡ Err Repeated }
    ensures repeated { reading (codes "route add 10/8 dev a dev b") ≡ Err Repeated }
    ensures repeated_destination { reading (codes "route add 10/8 to 11/8") ≡ Err Repeated }
    ensures repeated_before_kind { reading (codes "route add 10/8 to blackhole") ≡ Err Repeated }
    ensures repeated_kind { reading (codes "route add blackhole 10/8 throw 11/8") ≡ Err Repeated }
    ensures repeated_action { reading (codes "rule add table 7 prohibit") ≡ Err Repeated }
    ensures repeated_lookup { reading (codes "rule add prohibit lookup 7") ≡ Err Repeated }
    ensures repeated_not { reading (codes "rule add not not") ≡ Err Repeated }
    ensures repeated_interface { reading (codes "rule add iif a dev b") ≡ Err Repeated }
    ensures repeated_priority { reading (codes "rule add pref 1 order 2") ≡ Err Repeated }
    ensures repeated_metric { reading (codes "route add 10/8 dev a metric 1 preference 2") ≡ Err Repeated }
    ensures repeated_before_value { reading (codes "route add via 1 via x 10/8") ≡ Err Repeated }
    ensures bad_gateway { reading (codes "route add 10/8 via 192.0.2.256") ≡ Err BadAddress }
    ensures bad_preferred_source { reading (codes "route add 10/8 dev a src eth0") ≡ Err BadAddress }
    ensures bad_address { reading (codes "route get default") ≡ Err BadAddress }
    ensures bad_source { reading (codes "route get 10.1 from 10/8") ≡ Err BadAddress }
    ensures first_of_two { reading (codes "route add x via y") ≡ Err BadPrefix }
    ensures long_length { reading (codes "route add 10/33 dev eth0") ≡ Err BadPrefix }
    ensures leading_zero { reading (codes "route add 010/8 dev eth0") ≡ Err BadPrefix }
    ensures no_cache { reading (codes "route flush cache") ≡ Err BadPrefix }
    ensures two_range_words { reading (codes "route show root match 10/8") ≡ Err BadPrefix }
    ensures bad_rule_prefix { reading (codes "rule add from 10/33") ≡ Err BadPrefix }
    ensures two_kinds { reading (codes "route add blackhole throw 10/8") ≡ Err BadPrefix }
    ensures host_bits_of_kind { reading (codes "route add prohibit 10.0.0.1/8") ≡ Err HostBits }
    ensures host_bits { reading (codes "route add 10.0.0.1/8 dev eth0") ≡ Err HostBits }
    ensures large_metric { reading (codes "route add 10/8 dev eth0 metric 4294967296") ≡ Err BadNumber }
    ensures bad_protocol { reading (codes "route add 10/8 dev a proto 256") ≡ Err BadNumber }
    ensures bad_scope { reading (codes "route add 10/8 dev a scope universe") ≡ Err BadNumber }
    ensures bad_priority { reading (codes "rule add priority -1") ≡ Err BadNumber }
    ensures bad_mark { reading (codes "rule add fwmark 1/ table 7") ≡ Err BadNumber }
    ensures three_marks { reading (codes "rule add fwmark 1/2/3 table 7") ≡ Err BadNumber }
    ensures mask_in_get { reading (codes "route get 1 mark 1/2") ≡ Err BadNumber }
    ensures table_zero { reading (codes "route add 10/8 dev eth0 table 0") ≡ Err BadTable }
    ensures all_tables { reading (codes "route add 10/8 dev eth0 table all") ≡ Err BadTable }
    ensures all_tables_of_del { reading (codes "route del 10/8 table all") ≡ Err BadTable }
    ensures listed_table_zero { reading (codes "route show table 0") ≡ Err BadTable }
    ensures bad_lookup { reading (codes "rule add lookup 0") ≡ Err BadTable }
    ensures long_name { reading (codes "rule add iif abcdefghijklmnop table 7") ≡ Err BadName }
    ensures bad_name { reading (codes "route add 10/8 dev a/b") ≡ Err BadName }
    ensures no_destination { reading (codes "route add dev eth0") ≡ Err MissingDestination }
    ensures nothing_to_delete { reading (codes "route del dev eth0") ≡ Err MissingDestination }
    ensures nothing_asked { reading (codes "route get") ≡ Err MissingDestination }
    ensures no_next_hop { reading (codes "route add 10/8") ≡ Err NoNextHop }
    ensures no_next_hop_of_unicast { reading (codes "route add unicast 10/8 table 7") ≡ Err NoNextHop }
    ensures source_is_no_next_hop { reading (codes "route replace 10/8 src 192.0.2.1") ≡ Err NoNextHop }
    ensures source_of_kind { reading (codes "route change blackhole 10/8 src 192.0.2.1") ≡ Err NextHopNotAllowed }
    ensures flush_of_all { reading (codes "route flush") ≡ Err TooBroad }
    ensures deletion_of_any_rule { reading (codes "rule del") ≡ Err TooBroad }
    ensures next_hop_of_kind { reading (codes "route add blackhole 10/8 dev eth0") ≡ Err NextHopNotAllowed }
    ensures suppressed_route { reading (codes "route add 10/8 suppress_prefixlength 8") ≡ Err UnknownWord }
    ensures suppressed_destination { reading (codes "route add suppress_prefixlength 8") ≡ Err BadPrefix }
    ensures nothing_after_suppress { reading (codes "rule del suppress_prefixlength") ≡ Err MissingValue }
    ensures repeated_suppress { reading (codes "rule add suppress_prefixlength 8 suppress_prefixlength 33") ≡ Err Repeated }
    ensures long_suppressed { reading (codes "rule add suppress_prefixlength 33") ≡ Err BadNumber }
    ensures zero_before_suppressed { reading (codes "rule add suppress_prefixlength 08") ≡ Err BadNumber }
    ensures negative_suppressed { reading (codes "rule del suppress_prefixlength -1") ≡ Err BadNumber }
    ensures suppressed_word { reading (codes "rule del suppress_prefixlength x") ≡ Err BadNumber }
    ensures suppressed_by_kind { reading (codes "rule add suppress_prefixlength 0 prohibit") ≡ Err SuppressNotAllowed }
    ensures gateway_of_kind { reading (codes "route add via 192.0.2.1 throw 10/8") ≡ Err NextHopNotAllowed }
{}

/// Accepted lines that put routes, each with the command that it asks for.
pub fn accepted_routes()
    ensures add { reading (codes "route add default via 192.0.2.1 dev eth0")
        ≡ Ok (Some (requests.Command (RouteAdd
        (record {
          table = 254;
          prefix = record { bits = 0; len = 0 };
          metric = 0;
          kind = kinds.Unicast;
          via =
              Some (record { 0 = 0xc0000201 });
          dev = Some (codes "eth0");
          src = None;
          proto = 3;
          scope = 0;
        })))) }
    ensures any_order { reading (codes "ip -4 ro a dev eth0 to 10.1/16 # on the link")
        ≡ Ok (Some (requests.Command (RouteAdd
        (record {
          table = 254;
          prefix = record { bits = 0x0a010000; len = 16 };
          metric = 0;
          kind = kinds.Unicast;
          via = None;
          dev =
              Some (codes "eth0");
          src = None;
          proto = 3;
          scope = 253;
        })))) }
    ensures keyword_as_value { reading (codes "r add 10/8 dev via")
        ≡ Ok (Some (requests.Command (RouteAdd
        (record {
          table = 254;
          prefix = record { bits = 0x0a000000; len = 8 };
          metric = 0;
          kind = kinds.Unicast;
          via = None;
          dev =
              Some (codes "via");
          src = None;
          proto = 3;
          scope = 253;
        })))) }
    ensures all_items { reading (codes "route add unicast 10/8 via 192.0.2.1 table local preference 0x20")
        ≡ Ok (Some (requests.Command (RouteAdd
        (record {
          table = 255;
          prefix = record { bits = 0x0a000000; len = 8 };
          metric = 32;
          kind = kinds.Unicast;
          via =
              Some (record { 0 = 0xc0000201 });
          dev = None;
          src = None;
          proto = 3;
          scope = 0;
        })))) }
    ensures kind { reading (codes "r a to blackhole 10/8")
        ≡ Ok (Some (requests.Command (RouteAdd
        (record {
          table = 254;
          prefix = record { bits = 0x0a000000; len = 8 };
          metric = 0;
          kind = kinds.Blackhole;
          via = None;
          dev =
              None;
          src = None;
          proto = 3;
          scope = 0;
        })))) }
    ensures throw { reading (codes "route add table 100 throw default")
        ≡ Ok (Some (requests.Command (RouteAdd
        (record {
          table = 100;
          prefix = record { bits = 0; len = 0 };
          metric = 0;
          kind = kinds.Throw;
          via = None;
          dev = None;
          src =
              None;
          proto = 3;
          scope = 0;
        })))) }
    ensures full_route { reading (codes "route add 192.0.2.0/24 dev eth0 proto kernel scope link src 192.0.2.10 metric 100")
        ≡ Ok (Some (requests.Command (RouteAdd
        (record {
          table = 254;
          prefix = record { bits = 0xc0000200; len = 24 };
          metric = 100;
          kind = kinds.Unicast;
          via = None;
          dev =
              Some (codes "eth0");
          src = Some (record { 0 = 0xc000020a });
          proto = 2;
          scope = 253;
        })))) }
    ensures scope_of_gateway { reading (codes "route chg 10/8 via 192.0.2.1 scope site protocol 186")
        ≡ Ok (Some (requests.Command (RouteChange
        (record {
          table = 254;
          prefix = record { bits = 0x0a000000; len = 8 };
          metric = 0;
          kind = kinds.Unicast;
          via =
              Some (record { 0 = 0xc0000201 });
          dev = None;
          src = None;
          proto = 186;
          scope = 200;
        })))) }
    ensures scope_of_kind { reading (codes "route replace throw 10/8 scope host")
        ≡ Ok (Some (requests.Command (RouteReplace
        (record {
          table = 254;
          prefix = record { bits = 0x0a000000; len = 8 };
          metric = 0;
          kind = kinds.Throw;
          via = None;
          dev = None;
          src =
              None;
          proto = 3;
          scope = 0;
        })))) }
{}

/// Other accepted lines about routes, and lines that ask for nothing.
pub fn accepted_lines()
    ensures get { reading (codes "route get 198.51.100.7")
        ≡ Ok (Some (requests.Query (Get (record { dst = record { 0 = 0xc6336407 }; src = record { 0 = 0 }; iif = codes "lo"; mark = 0 })))) }
    ensures get_to { reading (codes "-4 r get to 10#")
        ≡ Ok (Some (requests.Query (Get (record { dst = record { 0 = 0x0a000000 }; src = record { 0 = 0 }; iif = codes "lo"; mark = 0 })))) }
    ensures get_packet { reading (codes "route get to 10.1.2 iif eth1 mark 0x1F from 192.0.2.9")
        ≡ Ok (Some (requests.Query (Get
        (record { dst = record { 0 = 0x0a010200 }; src = record { 0 = 0xc0000209 }; iif = codes "eth1"; mark = 31 })))) }
    ensures delete { reading (codes "r d 10/8 metric 0")
        ≡ Ok (Some (requests.Command (RouteDel
        (record {
          table = 254;
          prefix = record { bits = 0x0a000000; len = 8 };
          metric = None;
          kind = None;
          via = None;
          dev = None;
          src =
              None;
          proto = None;
          scope = None;
        })))) }
    ensures delete_exactly { reading
        (codes "route delete unicast 10/8 metric 5 via 192.0.2.1 dev a src 10.0.0.1 proto static scope 7 table 100")
        ≡ Ok (Some (requests.Command (RouteDel
        (record {
          table = 100;
          prefix = record { bits = 0x0a000000; len = 8 };
          metric = Some 5;
          kind = Some kinds.Unicast;
          via =
              Some (record { 0 = 0xc0000201 });
          dev = Some (codes "a");
          src = Some (record { 0 = 0x0a000001 });
          proto = Some 4;
          scope = Some 7;
        })))) }
    ensures show { reading (codes "route")
        ≡ Ok (Some (requests.Query (RouteShow
        (record { table = Some 254; range = ranges.All; kind = None; proto = None; scope = None; dev = None })))) }
    ensures show_all { reading (codes "ro ls table all root 10.1.2.3/16 type blackhole dev all")
        ≡ Ok (Some (requests.Query (RouteShow
        (record {
          table = None;
          range = ranges.Root (record { bits = 0x0a010000; len = 16 });
          kind = Some kinds.Blackhole;
          proto =
              None;
          scope = None;
          dev = Some (codes "all");
        })))) }
    ensures flush_matching { reading (codes "route flush proto bgp to match 10.1/16 scope global table 7")
        ≡ Ok (Some (requests.Command (RouteFlush
        (record {
          table = Some 7;
          range = ranges.Covering (record { bits = 0x0a010000; len = 16 });
          kind = None;
          proto = Some 186;
          scope =
              Some 0;
          dev = None;
        })))) }
    ensures flush_table { reading (codes "route flush table main")
        ≡ Ok (Some (requests.Command (RouteFlush
        (record { table = Some 254; range = ranges.All; kind = None; proto = None; scope = None; dev = None })))) }
    ensures exact_is_meant { reading (codes "route lst 10/8") ≡ reading (codes "route list exact 10/8") }
    ensures blank { reading (codes " \t\r") ≡ Ok None }
    ensures comment { reading (codes "# route add" ++ 195 ∷ []) ≡ Ok None }
    ensures longest { reading (replicate 1024 32) ≡ Ok None }
{}

/// Accepted lines about rules, each with what it asks for.
pub fn accepted_rules()
    ensures rule { reading (codes "rule add")
        ≡ Ok (Some (requests.Command (RuleAdd
        (record {
          priority = None;
          inverted = false;
          from = record { bits = 0; len = 0 };
          to = record { bits = 0; len = 0 };
          iif =
              None;
          mark = None;
          action = actions.Lookup 254;
          suppress = None;
        })))) }
    ensures not_marked { reading (codes "ip -4 rule add not fwmark 51820 table 51820")
        ≡ Ok (Some (requests.Command (RuleAdd
        (record {
          priority = None;
          inverted = true;
          from = record { bits = 0; len = 0 };
          to = record { bits = 0; len = 0 };
          iif =
              None;
          mark = Some (record { mark = 51820; mask = 0xffffffff });
          action = actions.Lookup 51820;
          suppress = None;
        })))) }
    ensures from_source { reading (codes "rule add priority 10 from 192.0.2.1/24 blackhole")
        ≡ Ok (Some (requests.Command (RuleAdd
        (record {
          priority = Some 10;
          inverted = false;
          from = record { bits = 0xc0000200; len = 24 };
          to =
              record { bits = 0; len = 0 };
          iif = None;
          mark = None;
          action = actions.Blackhole;
          suppress = None;
        })))) }
    ensures all_rule_items { reading (codes "ru a lookup default order 0 dev eth0 to 10.1 from all fwmark 0xFF/0x0f not")
        ≡ Ok (Some (requests.Command (RuleAdd
        (record {
          priority = Some 0;
          inverted = true;
          from = record { bits = 0; len = 0 };
          to =
              record { bits = 0x0a010000; len = 32 };
          iif = Some (codes "eth0");
          mark = Some (record { mark = 255; mask = 15 });
          action =
              actions.Lookup 253;
          suppress = None;
        })))) }
    ensures rule_delete { reading (codes "rule del not from all priority 5 prohibit")
        ≡ Ok (Some (requests.Command (RuleDel
        (record {
          priority = Some 5;
          inverted = true;
          from = Some (record { bits = 0; len = 0 });
          to = None;
          iif = None;
          mark =
              None;
          action = Some actions.Prohibit;
          suppress = None;
        })))) }
    ensures rule_delete_inverted { reading (codes "ru d not")
        ≡ Ok (Some (requests.Command (RuleDel
        (record { priority = None; inverted = true; from = None; to = None; iif = None; mark = None; action = None; suppress = None })))) }
    ensures suppress { reading (codes "rule add table main suppress_prefixlength 0")
        ≡ Ok (Some (requests.Command (RuleAdd
        (record {
          priority = None;
          inverted = false;
          from = record { bits = 0; len = 0 };
          to = record { bits = 0; len = 0 };
          iif =
              None;
          mark = None;
          action = actions.Lookup 254;
          suppress = Some 0;
        })))) }
    ensures suppress_hexadecimal { reading (codes "rule add suppress_prefixlength 0x20 table 7")
        ≡ Ok (Some (requests.Command (RuleAdd
        (record {
          priority = None;
          inverted = false;
          from = record { bits = 0; len = 0 };
          to = record { bits = 0; len = 0 };
          iif =
              None;
          mark = None;
          action = actions.Lookup 7;
          suppress = Some 32;
        })))) }
    ensures rule_delete_suppressing { reading (codes "rule del suppress_prefixlength 8")
        ≡ Ok (Some (requests.Command (RuleDel
        (record { priority = None; inverted = false; from = None; to = None; iif = None; mark = None; action = None; suppress = Some 8 })))) }
    ensures rule_delete_failing_suppress { reading (codes "rule del blackhole suppress_prefixlength 8")
        ≡ Ok (Some (requests.Command (RuleDel
        (record {
          priority = None;
          inverted = false;
          from = None;
          to = None;
          iif = None;
          mark = None;
          action =
              Some actions.Blackhole;
          suppress = Some 8;
        })))) }
    ensures rule_flush { reading (codes "rule flush") ≡ Ok (Some (requests.Command RuleFlush)) }
    ensures rule_alone { reading (codes "ip rule") ≡ Ok (Some (requests.Query RuleShow)) }
    ensures rule_show { reading (codes "rule show #" ++ 195 ∷ []) ≡ Ok (Some (requests.Query RuleShow)) }
{}
