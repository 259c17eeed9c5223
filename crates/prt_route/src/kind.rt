ghost use Rattle.std.specs.Prelude.{◌≡◌};
ghost use Rattle.prt_route.specs.Kind.{kind_name};

/// What a route does with a packet that it matches (`ip-route(8)`).
#[derive(Clone, Copy, Debug, PartialEq, Eq)]
pub enum Kind {
    /// Send it on, through a gateway or an interface.
    Unicast,
    /// Drop it silently.
    Blackhole,
    /// Drop it; the host is unreachable.
    Unreachable,
    /// Drop it; it is administratively forbidden.
    Prohibit,
    /// End the lookup in this table as if no route were found.
    Throw,
}

impl Kind {
    /// Returns the word for the kind (`ip-route(8)`).
    pub fn name(self) -> &'static str
        ensures { result.now ≡ kind_name self }
    {
        match self {
            Kind::Unicast => "unicast",
            Kind::Blackhole => "blackhole",
            Kind::Unreachable => "unreachable",
            Kind::Prohibit => "prohibit",
            Kind::Throw => "throw",
        }
    }
}
