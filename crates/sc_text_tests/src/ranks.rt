use sc_ranks::{Entry, Ranks};
use std::test::Fail;

fn entry(first: u64, number: u64, key: usize) -> Entry {
    Entry { first, number, key }
}

fn key(ranks: &Ranks, place: usize) -> Option<usize> {
    ranks.get(place).map(|entry| entry.key)
}

#[test]
fn entries_stand_where_they_were_put(rt: HostRuntime) -> Result<(), Fail> {
    let mut ranks = Ranks::new(rt.alloc());
    ranks.reserve(3)?;
    ranks.insert(0, entry(5, 1, 10));
    ranks.insert(0, entry(2, 2, 20));
    ranks.insert(1, entry(2, 3, 30));
    let removed = ranks.remove(0).key;
    let keys = [key(&ranks, 0), key(&ranks, 1), key(&ranks, 2)];
    assert_eq!(rt; removed, 20);
    assert_eq!(rt; keys, [Some(30), Some(10), None]);
    Ok(())
}

#[test]
fn a_rank_has_a_place(rt: HostRuntime) -> Result<(), Fail> {
    let mut ranks = Ranks::new(rt.alloc());
    ranks.reserve(1)?;
    ranks.insert(0, entry(5, 1, 10));
    assert_eq!(rt; [ranks.place_of(5, 1), ranks.place_of(5, 2)], [0, 1]);
    Ok(())
}
