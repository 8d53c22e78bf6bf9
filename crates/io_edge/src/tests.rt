//! Worked examples of the sources and the sinks in memory.
use super::*;
use std::test::Fail;

#[test]
fn a_source_gives_its_pieces(rt: HostRuntime) -> Result<(), Fail> {
    let bytes = b"abcde".to_vec(rt.alloc())?;
    let mut source = MemorySource::new(bytes, 2, vec![in rt.alloc()]?);
    let mut buf = [0; 10];
    assert_eq!(rt; source.read(&mut buf), Ok(2));
    assert_eq!(rt; &buf[..2], b"ab".as_slice());
    assert_eq!(rt; source.read(&mut buf), Ok(2));
    assert_eq!(rt; &buf[..2], b"cd".as_slice());
    assert_eq!(rt; source.read(&mut buf), Ok(1));
    assert_eq!(rt; &buf[..1], b"e".as_slice());
    assert_eq!(rt; source.read(&mut buf), Ok(0));
    assert_eq!(rt; source.fault_count(), 0);
    Ok(())
}

#[test]
fn a_source_fails_at_its_first_read(rt: HostRuntime) -> Result<(), Fail> {
    let bytes = b"abc".to_vec(rt.alloc())?;
    let mut source = MemorySource::new(bytes, 9, vec![in rt.alloc(); 1]?);
    let mut buf = [0; 4];
    assert_eq!(rt; source.read(&mut buf), Err(Failed));
    assert_eq!(rt; source.fault_count(), 1);
    assert_eq!(rt; source.read(&mut buf), Ok(3));
    assert_eq!(rt; buf.as_slice(), b"abc\0".as_slice());
    Ok(())
}

#[test]
fn a_sink_fails_at_its_second_write(rt: HostRuntime) -> Result<(), Fail> {
    let mut sink = MemorySink::new(rt.alloc(), 7, vec![in rt.alloc(); 2]?);
    sink.reserve(10)?;
    assert_eq!(rt; sink.write(b"0123456789"), Ok(7));
    assert_eq!(rt; sink.write(b"789"), Err(Failed));
    assert_eq!(rt; sink.bytes(), b"0123456".as_slice());
    assert_eq!(rt; sink.fault_count(), 1);
    Ok(())
}

#[test]
fn a_sink_fails_at_its_finish(rt: HostRuntime) -> Result<(), Fail> {
    let mut sink = MemorySink::new(rt.alloc(), 7, vec![in rt.alloc(); 2]?);
    sink.reserve(3)?;
    assert_eq!(rt; sink.write(b"abc"), Ok(3));
    assert_eq!(rt; sink.finish(), Err(Failed));
    assert!(rt; !sink.is_finished());
    assert_eq!(rt; sink.finish(), Ok(()));
    assert!(rt; sink.is_finished());
    assert_eq!(rt; sink.bytes(), b"abc".as_slice());
    Ok(())
}

#[test]
fn a_sink_has_no_room_left(rt: HostRuntime) -> Result<(), Fail> {
    let mut sink = MemorySink::new(rt.alloc(), 7, vec![in rt.alloc()]?);
    sink.reserve(3)?;
    assert_eq!(rt; sink.write(b"abcde"), Ok(3));
    assert_eq!(rt; sink.write(b"de"), Err(Failed));
    assert_eq!(rt; sink.write(b""), Ok(0));
    assert_eq!(rt; sink.bytes(), b"abc".as_slice());
    assert_eq!(rt; sink.fault_count(), 1);
    Ok(())
}

#[test]
fn sure_ones_never_fail(rt: HostRuntime) -> Result<(), Fail> {
    let bytes = b"abc".to_vec(rt.alloc())?;
    let mut source = SureSource::new(bytes, 2);
    let mut buf = [0; 3];
    assert_eq!(rt; source.read(&mut buf), Ok(2));
    assert_eq!(rt; source.read(&mut buf), Ok(1));
    assert_eq!(rt; &buf[..1], b"c".as_slice());
    assert_eq!(rt; source.read(&mut buf), Ok(0));
    let mut sink = SureSink::new();
    assert_eq!(rt; sink.write(b"abc"), Ok(3));
    assert!(rt; !sink.is_finished());
    assert_eq!(rt; sink.finish(), Ok(()));
    assert!(rt; sink.is_finished());
    Ok(())
}
