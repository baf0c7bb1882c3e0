use sc_base::Word;
use sc_rooms::{Named, Places, RoomyQueue};
use std::alloc::Global;
use std::test::Fail;

/// Two items, named `a` and `b`.
fn named(alloc: Global) -> Result<Named<u64>, Fail> {
    let mut named = Named::new(alloc);
    named.reserve(2)?;
    for (name, item) in [(b"a", 10), (b"b", 20)] {
        let name = Word::of(alloc, name)?;
        if named.place_of(&name).is_none() {
            named.reserve(1)?;
            named.add(name, item);
        }
    }
    Ok(named)
}

#[test]
fn an_item_is_found_by_its_name(rt: HostRuntime) -> Result<(), Fail> {
    let named = named(rt.alloc())?;
    for (name, place) in [(b"a", Some(0)), (b"b", Some(1)), (b"c", None)] {
        assert_eq!(rt; named.place_of(&Word::of(rt.alloc(), name)?), place);
    }
    let items = [
        named.get(0).copied(),
        named.get(1).copied(),
        named.get(2).copied(),
    ];
    assert_eq!(rt; items, [Some(10), Some(20), None]);
    assert_eq!(rt;
        named.name(0).map(|name| name.bytes()),
        Some(b"a".as_slice())
    );
    Ok(())
}

#[test]
fn places_are_found_in_ascending_order(rt: HostRuntime) -> Result<(), Fail> {
    let mut places = Places::new(rt.alloc());
    places.reserve(3)?;
    places.insert(5);
    places.insert(2);
    places.insert(9);
    places.remove(5);
    let found = [
        places.next(0),
        places.next(2),
        places.next(3),
        places.next(10),
    ];
    assert_eq!(rt; found, [Some(2), Some(2), Some(9), None]);
    assert_eq!(rt; [places.has(5), places.has(9)], [false, true]);
    Ok(())
}

#[test]
fn the_front_of_a_queue_comes_out_first(rt: HostRuntime) -> Result<(), Fail> {
    let mut queue = RoomyQueue::new(rt.alloc());
    queue.reserve(2)?;
    queue.push(7);
    queue.push(8);
    let found = [
        queue.front().copied(),
        queue.get(1).copied(),
        queue.pop_front(),
        queue.pop_front(),
        queue.pop_front(),
    ];
    assert_eq!(rt; found, [Some(7), Some(8), Some(7), Some(8), None]);
    Ok(())
}
