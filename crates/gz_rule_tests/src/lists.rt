//! Lists of elements: how they are made, read and changed.
use gz_core::Items;
use std::alloc::{AllocError, Global};

/// Each change leaves its own mark: 9 is pushed, 8 inserted, 7 set, 6 put in place of an element, which is returned, and
/// no 3 kept.
fn change(items: &mut Items<u8>) -> Result<Option<u8>, AllocError> {
    items.push(9)?;
    if !items.is_empty() {
        items.insert(1, 8)?;
    }
    if !items.is_empty() {
        items.set(0, 7);
    }
    items.retain(|item| *item != 3);
    if items.len() < 3 {
        return Ok(None);
    }
    Ok(Some(items.replace(2, 6)))
}

/// What a list of the elements 1, 2 and 3 becomes, and the element that was replaced.
fn changed(alloc: Global) -> Option<(Option<u8>, Vec<u8>)> {
    let mut items = Items::from_slice(alloc, &[1, 2, 3]).ok()?;
    let was = change(&mut items).ok()?;
    let items = Items::from_vec(items.into_vec());
    Some((was, items.into_vec()))
}

/// Whether the list came out as it was to.
fn is_changed(alloc: Global) -> bool {
    match changed(alloc) {
        Some((Some(2), items)) => items.as_slice() == [7, 8, 6, 9].as_slice(),
        _ => false,
    }
}

/// What a list shows: its length, whether there is no element, and the elements at places 1 and 3, where there are any,
/// and at place 2, if there are three.
type Shown = (usize, bool, [Option<u8>; 3]);

fn shown(items: &Items<u8>) -> Shown {
    let third = if items.len() == 3 {
        Some(*items.at(2))
    } else {
        None
    };
    let second = items.get(1).copied();
    let fourth = items.get(3).copied();
    (items.len(), items.is_empty(), [second, third, fourth])
}

/// What a list of these elements shows.
fn shown_of(alloc: Global, items: &[u8]) -> Option<Shown> {
    Some(shown(&Items::from_slice(alloc, items).ok()?))
}

#[test]
fn lists_made_changed_and_read(rt: HostRuntime) {
    assert!(rt; is_changed(rt.alloc()));
    assert!(rt; shown(&Items::new(rt.alloc())) == (0, true, [None, None, None]));
    assert!(rt; shown_of(rt.alloc(), &[4, 5, 6]) == Some((3, false, [Some(5), Some(6), None])));
}

/// Whether a copy of the first list is the second, and whether the first stands below the second.
fn compared(alloc: Global, a: &[u8], b: &[u8]) -> Option<[bool; 2]> {
    let a = Items::from_slice(alloc, a).ok()?;
    let b = Items::from_slice(alloc, b).ok()?;
    Some([a.clone().ok()? == b, a < b])
}

const ORDERS: &[(&[u8], &[u8], [bool; 2])] = &[
    (&[1, 2], &[1, 2], [true, false]),
    (&[1, 2], &[1, 2, 0], [false, true]),
    (&[1, 2, 0], &[2], [false, true]),
    (&[2], &[1, 2], [false, false]),
];

#[test]
fn lists_compared(rt: HostRuntime) {
    for (a, b, wanted) in ORDERS {
        assert!(rt; compared(rt.alloc(), a, b) == Some(*wanted));
    }
}
