//! Short ways to write addresses, routes and rules.
ghost use Rattle.std.specs.Prelude.{◌≡◌, ◌≤◌};

use prt_addr::{Addr, Prefix};
use prt_route::{BOOT_PROTOCOL, Dev, GLOBAL_SCOPE, Kind, MAIN_TABLE, Route};
use prt_rule::{Action, Mark, Packet, Rule};

/// 192.0.2.1, the gateway and the source of what is made here.
pub const GATEWAY: Addr = Addr(0xc000_0201);

/// Makes the prefix of this length that begins with the octets 10 and 1.
pub fn ten_one(len: u8) -> Prefix
    requires { len ≤ 32 }
{
    Prefix::masked(0x0a01_0000, len)
}

/// Makes a unicast route of table main through the gateway.
pub fn route(prefix: Prefix, metric: u32) -> Route {
    Route {
        table: MAIN_TABLE,
        prefix,
        metric,
        kind: Kind::Unicast,
        via: Some(GATEWAY),
        dev: None,
        src: None,
        proto: BOOT_PROTOCOL,
        scope: GLOBAL_SCOPE,
    }
}

/// Makes a rule for all packets that looks up table main.
pub fn rule(id: u64, priority: u32) -> Rule
    ensures id { result.id ≡ id }
    ensures priority { result.priority ≡ priority }
{
    Rule {
        id,
        priority,
        inverted: false,
        from: Prefix::masked(0, 0),
        to: Prefix::masked(0, 0),
        iif: None,
        mark: None,
        action: Action::Lookup(MAIN_TABLE),
        suppress: None,
    }
}

/// Makes the rule for packets from and to these prefixes.
pub fn between(from: Prefix, to: Prefix, iif: Option<Dev>) -> Rule {
    Rule {
        from,
        to,
        iif,
        ..rule(4, 10)
    }
}

/// Makes the rule for packets with this mark.
pub fn marked(mark: u32, mask: u32) -> Rule {
    Rule {
        mark: Some(Mark { mark, mask }),
        ..rule(4, 10)
    }
}

/// Makes a packet from 192.0.2.1 to 10.1.2.3 that came in by `lo`.
pub fn packet(mark: u32) -> Packet {
    Packet {
        dst: Addr(0x0a01_0203),
        src: GATEWAY,
        iif: Dev::loopback(),
        mark,
    }
}
