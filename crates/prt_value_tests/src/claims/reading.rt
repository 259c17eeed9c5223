use prt_addr::{Addr, read_prefix};
use prt_analyses::claims::{BadClaim, ClaimFault, Expected, bad_word, read_claim};
use prt_command::{Mark, Refusal};
use prt_route::{Kind, read_dev};
use std::test::Fail;

#[test]
fn reads_what_a_line_claims(rt: HostRuntime) -> Result<(), Fail> {
    let line =
        b"iif eth0 to 10/8 not fwmark 0xca6c mark 1/1: not via 192.0.2.1 or kind prohibit # all";
    let Ok(Some(claim)) = read_claim(rt.alloc(), line) else {
        return Err(Refusal::UnknownWord.into());
    };
    assert!(rt; claim.selector.to == Some(read_prefix(b"10.0.0.0/8")?));
    assert!(rt; claim.selector.from.is_none());
    assert!(rt; claim.selector.iif == Some(read_dev(b"eth0")?));
    assert!(rt; claim.selector.mark == Some(Mark { mark: 1, mask: 1 }));
    let tunnel = Mark {
        mark: 51_820,
        mask: u32::MAX,
    };
    assert!(rt; claim.selector.not_mark == Some(tunnel));
    assert!(rt; claim.is_negated);
    assert_eq!(rt; claim.outcomes.len(), 2);
    assert!(rt; claim.outcomes[0] == Expected::Via(Addr(0xc000_0201)));
    assert!(rt; claim.outcomes[1] == Expected::Kind(Kind::Prohibit));
    Ok(())
}

#[test]
fn a_comment_claims_nothing(rt: HostRuntime) -> Result<(), Fail> {
    assert!(rt; matches!(read_claim(rt.alloc(), b" # to 8.8.8.8: none"), Ok(None)));
    Ok(())
}

/// Checks whether the line has this fault at this word.
fn is_refused(line: &[u8], bad: BadClaim, word: usize, fault: ClaimFault, text: &[u8]) -> bool {
    let has_word = match bad_word(line, &bad) {
        Some(found) => found == text,
        None => text.is_empty(),
    };
    bad.word == word && bad.fault == fault && has_word
}

#[test]
fn names_the_word_that_is_wrong(rt: HostRuntime) -> Result<(), Fail> {
    let lines: [(&[u8], usize, ClaimFault, &[u8]); 4] = [
        (
            b"to 10.0.0.1/8: dev wg0",
            2,
            ClaimFault::Refused(Refusal::HostBits),
            b"10.0.0.1/8:",
        ),
        (
            b"from 10/8 from 11/8 : none",
            3,
            ClaimFault::Refused(Refusal::Repeated),
            b"from",
        ),
        (b"iif lo", 3, ClaimFault::NoOutcome, b""),
        (b": \xff", 0, ClaimFault::Refused(Refusal::NotAscii), b""),
    ];
    for (line, word, fault, text) in &lines {
        let Err(bad) = read_claim(rt.alloc(), line) else {
            return Err(Refusal::UnknownWord.into());
        };
        assert!(rt; is_refused(line, bad, *word, *fault, text));
    }
    Ok(())
}
