//! Texts of what no worked script shows, computed with the definitions alone.
ghost use Rattle.std.specs.Prelude.{◌≡◌, Some, codes};
ghost use Rattle.prt_addr.specs.Prefix.{everything};
ghost use Rattle.prt_listing.specs.Example.{host, masked, route_of, rule_for_all, through, whole};
ghost use Rattle.prt_listing.specs.RouteText.{route_text};
ghost use Rattle.prt_listing.specs.RuleText.{rule_text};
ghost use Rattle.prt_listing.specs.declared.route.TablePart.TheVariants.{LeftOut, Shown};
ghost use Rattle.prt_route.specs.declared.kind.Kind.TheVariants as kinds;
ghost use Rattle.prt_rule.specs.declared.rule.Action.TheVariants.{Lookup};

/// What is implied, and what has no name (`ip-route(8)`).
pub fn plain_routes()
    ensures of_main { route_text (through 1 254 everything 0) Shown ≡ codes "default via 192.0.2.1" }
    ensures of_default { route_text (route_of 253 everything kinds.Throw) Shown ≡ codes "throw default table default" }
    ensures without_table { route_text (route_of 253 everything kinds.Throw) LeftOut ≡ codes "throw default" }
    ensures with_numbers { route_text
        (record (route_of 254 (host 10 1 2 3) kinds.Unicast) { dev = Some (codes "a"); proto = 99; scope = 1 }) LeftOut
        ≡ codes "10.1.2.3 dev a proto 99 scope 1" }
    ensures of_address_0 { route_text (route_of 254 (host 0 0 0 0) kinds.Prohibit) LeftOut ≡ codes "prohibit 0.0.0.0" }
{}

/// A mark and a mask of 0, and a mark of which every digit is a letter (`ip-rule(8)`).
pub fn marks()
    ensures nothing { rule_text (record (rule_for_all 1 (Lookup 253)) { mark = masked 0 0 }) ≡ codes "1:\tfrom all fwmark 0x0/0x0 lookup default" }
    ensures everything { rule_text (record (rule_for_all 1 (Lookup 254)) { mark = whole 4294967295 }) ≡ codes "1:\tfrom all fwmark 0xffffffff lookup main" }
{}

/// The length up to which a rule suppresses prefixes comes at the end (`ip-rule(8)`).
pub fn suppressed_lengths()
    ensures default_alone { rule_text (record (rule_for_all 1 (Lookup 254)) { suppress = Some 0 }) ≡ codes "1:\tfrom all lookup main suppress_prefixlength 0" }
    ensures all { rule_text (record (rule_for_all 1 (Lookup 7)) { suppress = Some 32 }) ≡ codes "1:\tfrom all lookup 7 suppress_prefixlength 32" }
{}
