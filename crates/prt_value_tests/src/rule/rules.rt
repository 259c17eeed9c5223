use super::values::{between, marked, packet, rule, ten_one};
use prt_addr::Prefix;
use prt_route::Dev;
use prt_rule::{Action, Mark, Rule, RuleChoice, auto_priority, is_before, matches, same};

#[test]
fn matches_packets(rt: HostRuntime) {
    let (any, ten, eleven) = (
        Prefix::masked(0, 0),
        ten_one(8),
        Prefix::masked(0x0b00_0000, 8),
    );
    for (rule, mark, matched) in [
        (rule(4, 10), 7, true),
        (marked(0, u32::MAX), 0, true),
        (marked(0, u32::MAX), 1, false),
        (marked(0x10, 0xf0), 0x1f, true),
        (marked(0x10, 0xf0), 0x2f, false),
        (between(any, ten, Some(Dev::loopback())), 0, true),
        (between(ten, any, None), 0, false),
        (between(any, eleven, None), 0, false),
    ] {
        let inverted = Rule {
            inverted: true,
            ..rule
        };
        assert_eq!(rt; matches(&rule, &packet(mark)), matched);
        assert_eq!(rt; matches(&inverted, &packet(mark)), !matched);
    }
}

#[test]
fn compares_rules(rt: HostRuntime) {
    let one = marked(0x10, 0xf0);
    for (other, equal) in [
        (Rule { id: 5, ..one }, true),
        (
            Rule {
                priority: 11,
                ..one
            },
            false,
        ),
        (
            Rule {
                iif: Some(Dev::loopback()),
                ..one
            },
            false,
        ),
        (marked(0x10, 0xff), false),
        (
            Rule {
                action: Action::Prohibit,
                ..one
            },
            false,
        ),
        (
            Rule {
                suppress: Some(0),
                ..one
            },
            false,
        ),
    ] {
        assert_eq!(rt; same(&one, &other), equal);
    }
}

#[test]
fn orders_rules(rt: HostRuntime) {
    assert!(rt; is_before(&rule(9, 1), &rule(4, 2)) && is_before(&rule(4, 1), &rule(9, 1)));
    let opening = [rule(1, 0), rule(2, 32766), rule(3, 32767)];
    assert_eq!(rt;
        (auto_priority(&opening), auto_priority(&opening[..1])),
        (32765, 0)
    );
}

/// Chooses each rule.
const ANY: RuleChoice = RuleChoice {
    priority: None,
    inverted: false,
    from: None,
    to: None,
    iif: None,
    mark: None,
    action: None,
    suppress: None,
};

/// Chooses a rule by its sources and its mark.
fn from_marked(from: Prefix, mark: u32, mask: u32) -> RuleChoice {
    RuleChoice {
        from: Some(from),
        mark: Some(Mark { mark, mask }),
        ..ANY
    }
}

/// Chooses a rule by its action.
fn of_action(action: Action) -> RuleChoice {
    RuleChoice {
        action: Some(action),
        ..ANY
    }
}

#[test]
fn chooses_rules(rt: HostRuntime) {
    let any = Prefix::masked(0, 0);
    let of_priority = RuleChoice {
        priority: Some(11),
        ..ANY
    };
    let inverted = RuleChoice {
        inverted: true,
        ..ANY
    };
    let suppressing = RuleChoice {
        suppress: Some(0),
        ..ANY
    };
    for (choice, agreed) in [
        (ANY, true),
        (of_priority, false),
        (suppressing, false),
        (inverted, false),
        (from_marked(any, 0x10, 0xf0), true),
        (from_marked(any, 0x10, 0xff), false),
        (of_action(Action::Lookup(255)), false),
    ] {
        assert_eq!(rt; choice.agrees(&marked(0x10, 0xf0)), agreed);
    }
}
