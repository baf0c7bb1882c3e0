use sc_bits::Row;
use std::test::Fail;

#[test]
fn a_row_gives_its_members_in_order(rt: HostRuntime) -> Result<(), Fail> {
    let mut row = Row::new(rt.alloc(), 70)?;
    row.add(3);
    row.add(69);
    let copy = row.copy(rt.alloc())?;
    let found = [copy.next(0), copy.next(4), copy.next(70)];
    assert_eq!(rt; found, [Some(3), Some(69), None]);
    assert_eq!(rt; [copy.has(3), copy.has(68)], [true, false]);
    Ok(())
}

#[test]
fn rows_are_joined_met_and_parted(rt: HostRuntime) -> Result<(), Fail> {
    let mut a = Row::new(rt.alloc(), 130)?;
    let mut b = Row::new(rt.alloc(), 130)?;
    a.add(0);
    a.add(64);
    b.add(64);
    b.add(129);
    let mut c = a.copy(rt.alloc())?;
    c.join(&b);
    let joined = c.next(65);
    c.minus(&b);
    let parted = c.next(1);
    c.copy_from(&a);
    c.meet(&b);
    let met = c.next(0);
    c.take(64);
    assert_eq!(rt;
        [joined, parted, met, c.next(0)],
        [Some(129), None, Some(64), None]
    );
    a.clear();
    assert_eq!(rt; a.meets(&b), false);
    Ok(())
}
