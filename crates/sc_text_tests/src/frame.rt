use sc_frame::{
    get_bytes, get_i64, get_u16, get_u32, get_u64, put_bytes, put_i64, put_u16, put_u32, put_u64,
};
use std::alloc::Global;
use std::test::Fail;

#[test]
fn fields_are_big_endian(rt: HostRuntime) -> Result<(), Fail> {
    let mut out = Vec::new(rt.alloc());
    put_u16(&mut out, 258)?;
    put_i64(&mut out, -2)?;
    put_bytes(&mut out, b"ab")?;
    let want = b"\x01\x02\xff\xff\xff\xff\xff\xff\xff\xfe\x00\x00\x00\x02ab";
    assert_eq!(rt; out.as_slice(), want.as_slice());
    Ok(())
}

/// Fields one behind another: of 2, 4, 8 and 8 bytes, and bytes with their length.
fn fields(alloc: Global) -> Result<Vec<u8>, Fail> {
    let mut out = Vec::new(alloc);
    put_u16(&mut out, 1)?;
    put_u32(&mut out, 70_000)?;
    put_u64(&mut out, 5_000_000_000)?;
    put_i64(&mut out, -9)?;
    put_bytes(&mut out, b"text")?;
    Ok(out)
}

#[test]
fn a_field_is_got_where_it_was_put(rt: HostRuntime) -> Result<(), Fail> {
    let out = fields(rt.alloc())?;
    assert_eq!(rt;
        [get_u16(&out, 0), get_u16(b"\x00", usize::MAX)],
        [Some((1, 2)), None]
    );
    assert_eq!(rt;
        [get_u32(&out, 2), get_u32(b"\x00\x00\x00", 0)],
        [Some((70_000, 6)), None]
    );
    assert_eq!(rt; get_u64(&out, 6), Some((5_000_000_000, 14)));
    assert_eq!(rt; get_i64(&out, 14), Some((-9, 22)));
    assert_eq!(rt; get_bytes(&out, 22), Some((b"text".as_slice(), 30)));
    assert_eq!(rt; get_bytes(b"\x00\x00\x00\x02a", 0), None);
    Ok(())
}
