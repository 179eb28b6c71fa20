//! That each call succeeds, what std's own readers and writers do through the adapters, which calls of the
//! failing sources and sinks fail, and which texts are no number.

use kr_text::*;
use std::test::Fail;

#[test]
fn an_input_is_read_whole(rt: HostRuntime) -> Result<(), Fail> {
    let alloc = rt.alloc();
    let long = vec![in alloc; 7u8; 10_000]?;
    let mut source = NoFaultSource::new(long.clone()?);
    let bytes = read_all(alloc, &mut source, 10_000)?;
    assert_eq!(rt; bytes.as_slice(), long.as_slice());

    let mut source = NoFaultSource::new(long.clone()?);
    assert_eq!(rt;
        read_all(alloc, &mut source, 9_999).err(),
        Some(ReadStop::TooLong)
    );

    let mut source = FailingSource::new(long, [2u64].to_vec(alloc)?);
    assert_eq!(rt;
        read_all(alloc, &mut source, 10_000).err(),
        Some(ReadStop::Fault)
    );
    Ok(())
}

#[test]
fn a_text_is_written_whole(rt: HostRuntime) -> Result<(), Fail> {
    let alloc = rt.alloc();
    let text = b"done\n".as_slice();
    let mut sink = FailingSink::new(alloc, text.len(), Vec::new(alloc))?;
    write_all(&mut sink, text)?;
    assert_eq!(rt; sink.bytes(), text);

    let mut sink = FailingSink::new(alloc, 3, Vec::new(alloc))?;
    assert_eq!(rt; write_all(&mut sink, text), Err(WriteStop::Fault));
    assert_eq!(rt; sink.bytes(), b"don".as_slice());

    let mut sink = NoFaultSink::new();
    write_all(&mut sink, text)?;
    Ok(())
}

#[test]
fn readers_and_writers_of_std_pass_bytes_through(rt: HostRuntime) -> Result<(), Fail> {
    let alloc = rt.alloc();
    let text = b"show 1\n".as_slice();
    let mut source = StdSource::new(text);
    let bytes = read_all(alloc, &mut source, 100)?;
    assert_eq!(rt; bytes.as_slice(), text);

    let mut written = Vec::<u8>::new(alloc);
    let mut sink = StdSink::new(&mut written);
    write_all(&mut sink, text)?;
    drop(sink);
    assert_eq!(rt; written.as_slice(), text);

    // A slice that is full takes nothing, which is a fault.
    let mut room = [0u8; 3];
    let mut sink = StdSink::new(room.as_mut_slice());
    assert_eq!(rt; write_all(&mut sink, text), Err(WriteStop::Fault));
    drop(sink);
    assert_eq!(rt; room.as_slice(), b"sho".as_slice());
    Ok(())
}

#[test]
fn the_calls_with_given_numbers_fail(rt: HostRuntime) -> Result<(), Fail> {
    let alloc = rt.alloc();
    let fails = [2u64, 3];
    let mut source = FailingSource::new([1u8, 2, 3].to_vec(alloc)?, fails.to_vec(alloc)?);
    let mut sink = FailingSink::new(alloc, 2, fails.to_vec(alloc)?)?;
    let one = [9u8];
    for (call, read, write) in [
        (1, Ok(1), Ok(1)),
        (2, Err(Failed), Err(Failed)),
        (3, Err(Failed), Err(Failed)),
        (4, Ok(1), Ok(1)),
        (5, Ok(1), Err(Failed)),
        (6, Ok(0), Err(Failed)),
    ] {
        let mut buf = [0u8; 1];
        assert_eq!(rt; source.read(&mut buf), read, "read {call}");
        assert_eq!(rt; sink.write(&one), write, "write {call}");
    }
    assert_eq!(rt; sink.bytes(), [9u8, 9].as_slice());
    Ok(())
}

#[test]
fn numbers_are_read_as_they_are_written(rt: HostRuntime) -> Result<(), Fail> {
    for n in [0, 7, 10, 65_535, u64::MAX] {
        let mut text = Vec::new(rt.alloc());
        put_number(&mut text, n)?;
        assert_eq!(rt; read_number(&text, u64::MAX), Some(n), "{n}");
    }
    assert_eq!(rt;
        read_number(b"18446744073709551615", u64::MAX),
        Some(u64::MAX)
    );
    assert_eq!(rt; read_number(b"40", 40), Some(40));
    Ok(())
}

#[test]
fn other_texts_are_no_numbers(rt: HostRuntime) {
    for text in [
        b"".as_slice(),
        b"00",
        b"07",
        b"+7",
        b"-7",
        b"7 ",
        b"1a",
        b"\xff",
        b"41",
        b"18446744073709551616",
    ] {
        assert_eq!(rt; read_number(text, 40), None, "{text:?}");
    }
}
