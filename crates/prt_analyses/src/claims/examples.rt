//! Lines with what they claim, computed with the definitions alone.
ghost use Rattle.std.specs.Prelude.{◌≡◌, [], ◌∷◌, ◌++◌, None, Ok, Some, codes, replicate};
ghost use Rattle.prt_addr.specs.Prefix.{everything};
ghost use Rattle.prt_refusals.specs.declared.refusal.Refusal.TheVariants.{BadAddress, BadName, BadNumber, BadPrefix, BadTable, HostBits, LineTooLong};
ghost use Rattle.prt_refusals.specs.declared.refusal.Refusal.TheVariants.{MissingValue, NotAscii, Repeated, UnknownWord};
ghost use Rattle.prt_route.specs.declared.kind.Kind.TheVariants.{Blackhole, Prohibit};
ghost use Rattle.prt_analyses.specs.Claims.Example.{address, claims, denies, ends_early, every, prefix, refuses};
ghost use Rattle.prt_analyses.specs.Claims.Reading.{reading};
ghost use Rattle.prt_analyses.specs.declared.claims.claim.Expected.TheVariants.{Dev, Kind, NoRoute, Table, Via};

/// Lines that are claims, and what they say.
pub fn good_claims()
    ensures blank { reading (codes "   # nothing") ≡ Ok None }
    ensures every_packet { reading (codes ": none") ≡ claims every (NoRoute ∷ []) }
    ensures one_word_to_colon { reading (codes "to 8.8.8.8: dev wg0") ≡ claims (record every { to = prefix (address 8 8 8 8) 32 }) (Dev (codes "wg0") ∷ []) }
    ensures everything_is_given { reading (codes "to default : kind prohibit") ≡ claims (record every { to = Some everything }) (Kind Prohibit ∷ []) }
    ensures any_order { reading (codes "mark 1 iif lo from 10/8: table 7")
        ≡ claims (record {
          to = None;
          from = prefix (address 10 0 0 0) 8;
          iif = Some (codes "lo");
          mark =
              Some (record { mark = 1; mask = 0xffffffff });
          not_mark = None;
        }) (Table 7 ∷ []) }
    ensures masked_mark { reading (codes "fwmark 0x10/0xf0 : via 192.0.2.1")
        ≡ claims (record every { mark = Some (record { mark = 16; mask = 240 }) }) (Via (record { 0 = address 192 0 2 1 }) ∷ []) }
    ensures other_marks { reading (codes "not mark 51820 mark 0/1 : none")
        ≡ claims (record every {
          mark = Some (record { mark = 0; mask = 1 });
          not_mark =
              Some (record { mark = 51820; mask = 0xffffffff });
        }) (NoRoute ∷ []) }
    ensures several { reading (codes ": dev or or table main or none") ≡ claims every (Dev (codes "or") ∷ Table 254 ∷ NoRoute ∷ []) }
    ensures negated { reading (codes ": not dev eth0 or kind blackhole # or") ≡ denies every (Dev (codes "eth0") ∷ Kind Blackhole ∷ []) }
{}

/// Lines that are no claims, each with its first fault.
pub fn bad_claims()
    ensures too_long { reading (replicate 1025 32) ≡ refuses 0 LineTooLong }
    ensures not_ascii { reading (codes ": none " ++ 195 ∷ []) ≡ refuses 0 NotAscii }
    ensures unknown_word { reading (codes "to 8.8.8.8 dev eth0") ≡ refuses 3 UnknownWord }
    ensures glued_colon { reading (codes ":dev eth0") ≡ refuses 1 UnknownWord }
    ensures second_colon { reading (codes ": dev eth0 :") ≡ refuses 4 UnknownWord }
    ensures second_not { reading (codes ": not not none") ≡ refuses 3 UnknownWord }
    ensures no_or { reading (codes ": dev eth0 none") ≡ refuses 4 UnknownWord }
    ensures unknown_kind { reading (codes ": kind local") ≡ refuses 3 UnknownWord }
    ensures repeated { reading (codes "mark 1 fwmark 2: none") ≡ refuses 3 Repeated }
    ensures repeated_not { reading (codes "not mark 1 not fwmark 2: none") ≡ refuses 5 Repeated }
    ensures not_before_prefix { reading (codes "not to 8.8.8.8: none") ≡ refuses 2 UnknownWord }
    ensures nothing_after_first_not { reading (codes "iif lo not") ≡ refuses 4 MissingValue }
    ensures host_bits { reading (codes "to 10.0.0.1/8: none") ≡ refuses 2 HostBits }
    ensures bad_prefix { reading (codes "from 10/33 : none") ≡ refuses 2 BadPrefix }
    ensures bad_mark { reading (codes "mark 1/ : none") ≡ refuses 2 BadNumber }
    ensures bad_name { reading (codes "iif a/b : none") ≡ refuses 2 BadName }
    ensures bad_address { reading (codes ": via 10/8") ≡ refuses 3 BadAddress }
    ensures bad_table { reading (codes ": table 0") ≡ refuses 3 BadTable }
    ensures first_of_two { reading (codes "to x : dev a/b") ≡ refuses 2 BadPrefix }
    ensures missing_value { reading (codes "to") ≡ refuses 2 MissingValue }
    ensures missing_outcome_value { reading (codes ": dev") ≡ refuses 3 MissingValue }
    ensures no_colon { reading (codes "to 8.8.8.8") ≡ ends_early 3 }
    ensures no_outcome { reading (codes "to 8.8.8.8: # none") ≡ ends_early 3 }
    ensures nothing_after_not { reading (codes ": not") ≡ ends_early 3 }
    ensures nothing_after_or { reading (codes ": dev eth0 or") ≡ ends_early 5 }
{}
