use sc_base::Failure;
use sc_dev::{Failed, MemSink, MemSource, Sink, Source, read_up_to, write_all};
use std::test::Fail;

#[test]
fn a_source_goes_on_after_a_fault(rt: HostRuntime) -> Result<(), Fail> {
    let mut source = MemSource::new(rt.alloc(), b"abcde", 3, &[2])?;
    let mut into = [0u8; 4];
    assert_eq!(rt; source.read(&mut into), Ok(3));
    assert_eq!(rt; into[..3], b"abc"[..]);
    assert_eq!(rt; source.read(&mut into), Err(Failed));
    assert_eq!(rt; source.read(&mut into), Ok(2));
    assert_eq!(rt; into[..2], b"de"[..]);
    assert_eq!(rt; source.read(&mut into), Ok(0));
    Ok(())
}

#[test]
fn a_sink_goes_on_after_a_fault_until_it_is_full(rt: HostRuntime) -> Result<(), Fail> {
    let mut sink = MemSink::new(rt.alloc(), 4, 3, &[2])?;
    assert_eq!(rt; sink.write(b"abcde"), Ok(3));
    assert_eq!(rt; sink.write(b"de"), Err(Failed));
    assert_eq!(rt; sink.bytes(), b"abc".as_slice());
    assert_eq!(rt; sink.write(b"de"), Ok(1));
    assert_eq!(rt; sink.write(b"e"), Err(Failed));
    assert_eq!(rt; sink.bytes(), b"abcd".as_slice());
    Ok(())
}

#[test]
fn a_source_is_read_to_its_end_or_one_byte_past_the_limit(rt: HostRuntime) -> Result<(), Fail> {
    for (limit, read) in [
        (7, "abcde"),
        (5, "abcde"),
        (4, "abcde"),
        (2, "abc"),
        (0, "a"),
    ] {
        let mut source = MemSource::new(rt.alloc(), b"abcde", 2, &[])?;
        let text = read_up_to(rt.alloc(), &mut source, limit)?;
        assert_eq!(rt; text.as_slice(), read.as_bytes(), "limit {limit}");
    }
    let mut source = MemSource::new(rt.alloc(), b"abcde", 2, &[2])?;
    let failed = read_up_to(rt.alloc(), &mut source, 9).err();
    assert_eq!(rt; failed, Some(Failure::Fault(Failed)));
    Ok(())
}

#[test]
fn a_text_is_written_whole_or_up_to_a_fault(rt: HostRuntime) -> Result<(), Fail> {
    for (failing, result, taken) in [
        (4, Ok(()), "abcde"),
        (3, Err(Failed), "abcd"),
        (1, Err(Failed), ""),
    ] {
        let mut sink = MemSink::new(rt.alloc(), 9, 2, &[failing])?;
        assert_eq!(rt;
            write_all(&mut sink, b"abcde"),
            result,
            "fault at {failing}"
        );
        assert_eq!(rt; sink.bytes(), taken.as_bytes(), "fault at {failing}");
    }
    Ok(())
}
