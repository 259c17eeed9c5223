use prt_addr::{
    Addr, Prefix, addr_text, prefix_text, read_addr, read_net, read_number, read_prefix,
};
use prt_refusals::{Refusal, StoreCall};

/// Finds the first of these words that is read as an address other than the one that it expresses.
fn misread_address() -> Option<&'static str> {
    for (word, addr) in [
        ("192.0.2.1", Ok(Addr(0xc000_0201))),
        ("10.1", Ok(Addr(0x0a01_0000))),
        ("10.256", Err(Refusal::BadAddress)),
        ("1.2.3.4.5", Err(Refusal::BadAddress)),
    ] {
        if read_addr(word.as_bytes()) != addr {
            return Some(word);
        }
    }
    None
}

/// Finds the first of these words that is read as a prefix other than the one that it expresses.
fn misread_prefix() -> Option<&'static str> {
    for (word, prefix) in [
        ("any", Ok(Prefix::masked(0, 0))),
        ("10.1/16", Ok(Prefix::masked(0x0a01_0000, 16))),
        ("192.0.2.1", Ok(Prefix::masked(0xc000_0201, 32))),
        ("10/08", Err(Refusal::BadPrefix)),
        ("10.0.0.1/8", Err(Refusal::HostBits)),
    ] {
        if read_prefix(word.as_bytes()) != prefix {
            return Some(word);
        }
    }
    None
}

/// Finds the first of these words that is read as a number other than the one that it expresses.
fn misread_number() -> Option<&'static str> {
    for (word, number) in [
        ("4294967295", Ok(u32::MAX)),
        ("0X1f", Ok(31)),
        ("01", Err(Refusal::BadNumber)),
        ("0x100000000", Err(Refusal::BadNumber)),
    ] {
        if read_number(word.as_bytes()) != number {
            return Some(word);
        }
    }
    None
}

#[test]
fn reads_words(rt: HostRuntime) {
    assert_eq!(rt; misread_address(), None);
    assert_eq!(rt; misread_prefix(), None);
    assert_eq!(rt; misread_number(), None);
    assert!(rt; read_net(b"10.0.0.1/8") == Ok(Prefix::masked(0x0a00_0000, 8)));
}

/// Finds the first of these texts that its prefix is not shown by.
fn misshown_prefix() -> Option<&'static str> {
    for (bits, len, text) in [
        (0x0a00_0000, 8, "10.0.0.0/8"),
        (0, 0, "0.0.0.0/0"),
        (0xc000_0201, 32, "192.0.2.1"),
    ] {
        if prefix_text(&Prefix::masked(bits, len)).as_str() != text {
            return Some(text);
        }
    }
    None
}

#[test]
fn shows_values(rt: HostRuntime) {
    assert_eq!(rt; misshown_prefix(), None);
    let ten = Prefix::masked(0x0a00_0001, 8);
    assert!(rt; Prefix::new(ten.bits(), ten.len()) == Some(ten));
    assert!(rt; Prefix::new(0x0a01_0000, 8).is_none());
    assert!(rt; ten.contains(Addr(0x0aff_ffff)) && !ten.contains(Addr(0x0b00_0000)));
    assert!(rt; ten.within(&Prefix::masked(0, 0)) && !Prefix::masked(0, 0).within(&ten));
    assert!(rt; addr_text(Addr(0x0a01_0203)).as_str() == "10.1.2.3");
    let failed = Refusal::StoreFailed(StoreCall::Commit);
    assert!(rt; failed.code() == 27 && failed.name() == "StoreFailed");
    let shown = format!(in rt.alloc();
        "{} {} {}",
        Addr(1),
        Prefix::masked(0, 1),
        Refusal::Full
    ).expect(&rt, "memory");
    assert!(rt; shown.as_str() == "0.0.0.1 0.0.0.0/1 error 23 Full");
}
