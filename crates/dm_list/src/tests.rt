use crate::{Bytes, Copied, Items, Places, Sequence};
use std::alloc::{AllocError, Global};
use std::cmp::Ordering;
use std::test::Fail;

fn copied<T: Copied>(alloc: Global, value: &T) -> Result<T, AllocError> {
    value.copy(alloc)
}

fn compared<T: Ord>(left: &T, right: &T) -> Ordering {
    left.cmp(right)
}

fn partly_compared<T: PartialOrd>(left: &T, right: &T) -> Option<Ordering> {
    left.partial_cmp(right)
}

fn equal<T: PartialEq>(left: &T, right: &T) -> bool {
    left == right
}

fn bytes(alloc: Global, text: &[u8]) -> Result<Bytes, AllocError> {
    Ok(Bytes::new(text.to_vec(alloc)?))
}

#[test]
fn reads_a_sequence(rt: HostRuntime) -> Result<(), Fail> {
    let alloc = rt.alloc();
    let items = Items::new([7, 0, u64::MAX].to_vec(alloc)?);
    assert_eq!(rt; items.len(), 3);
    assert!(rt; !items.is_empty());
    assert_eq!(rt; items.as_slice(), [7, 0, u64::MAX].as_slice());
    for (place, want) in [(0, Some(7)), (1, Some(0)), (2, Some(u64::MAX)), (3, None)] {
        assert_eq!(rt; items.get(place).copied(), want, "at {place}");
    }
    assert_eq!(rt; items.into_vec().as_slice(), [7, 0, u64::MAX].as_slice());

    let none = Places::new(Vec::new(alloc));
    assert_eq!(rt; none.len(), 0);
    assert!(rt; none.is_empty());
    assert_eq!(rt; none.get(0).copied(), None);
    assert_eq!(rt; none.get(u64::MAX).copied(), None);
    Ok(())
}

#[test]
fn copies_what_it_has(rt: HostRuntime) -> Result<(), Fail> {
    let alloc = rt.alloc();
    assert_eq!(rt; copied(alloc, &255_u8)?, 255);
    assert_eq!(rt; copied(alloc, &4_000_000_000_u32)?, 4_000_000_000);
    assert_eq!(rt; copied(alloc, &u64::MAX)?, u64::MAX);
    let words = vec![in alloc;
        bytes(alloc, b"ab")?,
        bytes(alloc, b"")?,
        bytes(alloc, b"c")?,
    ]?;
    let copy = copied(alloc, &Sequence::new(words))?.into_vec();
    assert_eq!(rt; copy.len(), 3);
    assert_eq!(rt; copy[0].as_slice(), b"ab".as_slice());
    assert_eq!(rt; copy[1].as_slice(), b"".as_slice());
    assert_eq!(rt; copy[2].as_slice(), b"c".as_slice());
    Ok(())
}

#[test]
fn orders_as_a_dictionary_does(rt: HostRuntime) -> Result<(), Fail> {
    let alloc = rt.alloc();
    for (left, right, want) in [
        ("", "", Ordering::Equal),
        ("", "a", Ordering::Less),
        ("ab", "ab", Ordering::Equal),
        ("ab", "abc", Ordering::Less),
        ("b", "abc", Ordering::Greater),
        ("z", "\u{e9}", Ordering::Less),
        ("a\0", "a", Ordering::Greater),
    ] {
        let left = bytes(alloc, left.as_bytes())?;
        let right = bytes(alloc, right.as_bytes())?;
        assert_eq!(rt; compared(&left, &right), want, "at {left:?} and {right:?}");
        assert_eq!(rt; compared(&right, &left), want.reverse());
        assert_eq!(rt; partly_compared(&left, &right), Some(want));
        assert_eq!(rt; equal(&left, &right), want == Ordering::Equal);
    }
    Ok(())
}
