use sc_base::{SharedBytes, Word};
use sc_family::{Family, Link};
use std::alloc::Global;
use std::test::Fail;

fn link(alloc: Global, child: &[u8]) -> Result<Link, Fail> {
    Ok(Link {
        child: Word::of(alloc, child)?,
        invoker: Word::of(alloc, b"p")?,
        invokeid: SharedBytes::from_slice(alloc, b"i")?,
        depth: 2,
        cut: false,
    })
}

#[test]
fn a_link_is_cut_once(rt: HostRuntime) -> Result<(), Fail> {
    let mut family = Family::new(rt.alloc());
    family.reserve(1)?;
    let first = link(rt.alloc(), b"p/1")?;
    family.bind(first);
    assert_eq!(rt; family.link_of(b"p/1").map(|link| link.depth), Some(2));
    let found = [
        family.link_of(b"p/2").is_some(),
        family.cut(b"p/2"),
        family.cut(b"p/1"),
        family.cut(b"p/1"),
    ];
    assert_eq!(rt; found, [false, false, true, false]);
    Ok(())
}
