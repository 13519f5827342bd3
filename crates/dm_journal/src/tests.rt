use crate::{Front, front_of};

/// A record whose text has three bytes, and the front of another behind it.
const RECORDS: &[u8] = b"-- dm 0000000003\nabc-- dm";

/// Bytes that are no front of a record, a line each.
const OTHERS: &str = "\
--  dm 0000000003
-- dm 0000000003 abc
-- dm 00000000a3
-- dm 000000003 abc
- dm
hello
";

#[test]
fn no_bytes_are_the_end(rt: HostRuntime) {
    assert_eq!(rt; front_of(b""), Front::End);
}

#[test]
fn each_part_of_a_record_is_torn(rt: HostRuntime) {
    for end in 1..20 {
        assert_eq!(rt; front_of(&RECORDS[..end]), Front::Torn);
    }
}

#[test]
fn a_record_is_whole_whatever_is_behind_it(rt: HostRuntime) {
    for end in 20..RECORDS.len() + 1 {
        assert_eq!(rt; front_of(&RECORDS[..end]), Front::Whole { size: 3 });
    }
}

#[test]
fn a_record_may_have_no_text(rt: HostRuntime) {
    assert_eq!(rt; front_of(b"-- dm 0000000000\n"), Front::Whole { size: 0 });
}

#[test]
fn all_ten_digits_count(rt: HostRuntime) {
    assert_eq!(rt; front_of(b"-- dm 9000000000\nabc"), Front::Torn);
}

#[test]
fn other_bytes_are_no_record(rt: HostRuntime) {
    for line in OTHERS.lines() {
        assert_eq!(rt; front_of(line.as_bytes()), Front::Other);
    }
}
