//! The scenario `value-readers`; `.ci/bytes` gives each reader of values more texts, and that of locks its own, by the
//! words of the built program.
use hotel_asks::{AskFault, ValueFault, ValueName};
use hotel_nights::{Day, Guest, GuestFault};
use keycard_rules::{CardNo, Chain, Code, Link, Turned};
use std::alloc::Global;
use std::error::Error;
use std::process::Abort;
use std::test::Fail;

const NO_CODES: &[&[u8]] = &[b"", b"1234567890123", b"xyz"];

const SIXTY_ONE: &str = "abcdefghijklmnopqrstuvwxyzabcdefghijklmnopqrstuvwxyzabcdefghi";

/// Codes are read and printed.
fn codes_read<A: Abort>(rt: &A) {
    let read = Code::read(b"ABC").expect(rt, "hexadecimal digits");
    assert!(rt; read.print() == *b"000000000abc");
    for text in NO_CODES {
        assert!(rt; Code::read(text).is_none());
    }
}

#[test]
fn value_readers(rt: HostRuntime) {
    codes_read(&rt);
    let greatest = CardNo::new(9_999_999).expect(&rt, "a number in range");
    assert!(rt; greatest.next().is_none());
    assert!(rt; Day::read(b"2001-02-29").is_none());
    assert!(rt; Guest::read(rt.alloc(), SIXTY_ONE) == Err(GuestFault::Unread));
}

#[test]
fn value_readers_of_a_chain(rt: HostRuntime) -> Result<(), Fail> {
    let old_code = Code::new(0xa0).expect(&rt, "a code");
    let new_code = Code::new(0xa1).expect(&rt, "a code");
    let mut chain = Chain::install(rt.alloc(), old_code)?;
    assert!(rt; !chain.holds(new_code));
    let link = chain.issue(new_code)?;
    assert!(rt; link == Link { old_code, new_code });
    let turned = Turned {
        before: old_code,
        after: new_code,
    };
    assert!(rt; chain.enter(&link) == Some(turned));
    Ok(())
}

fn prints<E: Error>(alloc: Global, fault: &E, text: &str) -> Result<bool, Fail> {
    Ok(fault.to_string(alloc)?.as_str() == text)
}

/// Faults of values print what the program says of them, without a line feed.
#[test]
fn faults_of_values_printed(rt: HostRuntime) -> Result<(), Fail> {
    let alloc = rt.alloc();
    let unread = ValueFault::Value(ValueName::Nights);
    assert!(rt; prints(alloc, &unread, "unread NIGHTS")?);
    assert!(rt; prints(alloc, &ValueFault::Number, "too few or too many values")?);
    assert!(rt; prints(alloc, &AskFault::Values(unread), "unread NIGHTS")?);
    assert!(rt; prints(alloc, &AskFault::Memory, "memory")?);
    Ok(())
}
