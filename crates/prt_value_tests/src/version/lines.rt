use prt_command::{
    Addr, Command, Dev, Kind, Packet, Prefix, Query, Refusal, Request, Route, read_line,
};

/// Finds the first of these lines that is not refused with the refusal beside it.
fn misread_line() -> Option<&'static [u8]> {
    for (line, refusal) in [
        (b"rule show\xc3".as_slice(), Refusal::NotAscii),
        (
            b"route add 10/8 dev a dev".as_slice(),
            Refusal::MissingValue,
        ),
        (b"route add 10/8".as_slice(), Refusal::NoNextHop),
    ] {
        if read_line(line) != Err(refusal) {
            return Some(line);
        }
    }
    None
}

#[test]
fn reads_lines(rt: HostRuntime) {
    let route = Route {
        table: 254,
        prefix: Prefix::masked(0, 0),
        metric: 0,
        kind: Kind::Unicast,
        via: Some(Addr(0xc000_0201)),
        dev: Some(Dev::loopback()),
        src: None,
        proto: 3,
        scope: 0,
    };
    let add = Request::Command(Command::RouteAdd(route));
    assert!(rt; read_line(b"ip -4 ro a dev lo via 192.0.2.1 0/0") == Ok(Some(add)));
    let packet = Packet {
        dst: Addr(0x0a01_0000),
        src: Addr(0),
        iif: Dev::loopback(),
        mark: 0,
    };
    let get = Request::Query(Query::Get(packet));
    assert!(rt; read_line(b"\troute get to 10.1 # where") == Ok(Some(get)));
    assert!(rt; read_line(b"# route get 10.1") == Ok(None));
    assert!(rt; read_line(&[b' '; 1025]) == Err(Refusal::LineTooLong));
    assert!(rt; misread_line().is_none());
}
