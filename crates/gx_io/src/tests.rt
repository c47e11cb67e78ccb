use super::*;
use std::alloc::Global;
use std::io;
use std::io::{Error, ErrorKind, Read, Write};
use std::test::Fail;

// A device of std that is interrupted so often, and then takes and gives bytes until it breaks.
#[derive(Drop)]
struct Device {
    interruptions: u32,
    moves: u32,
}

fn step(device: &mut Device) -> io::Result<()> {
    if device.interruptions > 0 {
        device.interruptions -= 1;
        return Err(Error::new(ErrorKind::Interrupted, "interrupted"));
    }
    if device.moves == 0 {
        return Err(Error::new(ErrorKind::Other, "broken"));
    }
    device.moves -= 1;
    Ok(())
}

impl Read for Device {
    fn read(&mut self, buf: &mut [u8]) -> io::Result<usize> {
        step(self)?;
        Ok(buf.len().min(1))
    }
}

impl Write for Device {
    fn write(&mut self, buf: &[u8]) -> io::Result<usize> {
        step(self)?;
        Ok(buf.len().min(1))
    }

    fn flush(&mut self) -> io::Result<()> {
        step(self)
    }
}

#[test]
fn interruptions_are_tried_again_and_other_errors_are_faults(rt: HostRuntime) {
    let mut buf = [0u8; 4];
    // interruptions, moves, what a read and a write answer
    let cases = [
        (0, 2, Ok(1), Ok(1)),
        (64, 2, Ok(1), Ok(1)),
        (65, 2, Err(Failed), Err(Failed)),
        (0, 1, Ok(1), Err(Failed)),
        (3, 0, Err(Failed), Err(Failed)),
    ];
    for (interruptions, moves, read, write) in cases {
        let mut source = StdSource::new(Device {
            interruptions,
            moves,
        });
        assert_eq!(rt; source.read(&mut buf), read, "read {interruptions} {moves}");
        let mut sink = StdSink::new(Device {
            interruptions,
            moves,
        });
        assert_eq!(rt; sink.write(b"abc"), write, "write {interruptions} {moves}");
    }
}

// What a source gives in ten reads.
fn drained<S: Source>(alloc: Global, source: &mut S) -> Result<Vec<u8>, Fail> {
    let mut buffer = [0u8; 1000];
    let mut bytes = Vec::new(alloc);
    for _ in 0..10 {
        let n = source.read(&mut buffer)?;
        bytes.extend_from_slice(&buffer[..n])?;
    }
    Ok(bytes)
}

#[test]
fn std_readers_and_writers_pass_the_bytes_on(rt: HostRuntime) -> Result<(), Fail> {
    let alloc = rt.alloc();
    let text: &[u8] = b"a line\n";
    let mut source = StdSource::new(text);
    let read = drained(alloc, &mut source)?;
    assert_eq!(rt; read.as_slice(), text);
    let mut written = Vec::new(alloc);
    write_all(&mut StdSink::new(&mut written), text)?;
    assert_eq!(rt; written.as_slice(), text);
    Ok(())
}

#[test]
fn memory_gives_and_takes_at_most_so_many_and_fails_where_told(
    rt: HostRuntime,
) -> Result<(), Fail> {
    let alloc = rt.alloc();
    let mut buf = [0u8; 3];
    let mut source = MemSource::new(b"abcd".to_vec(alloc)?, 2, [2, 4].to_vec(alloc)?);
    let answers = [Ok(2), Err(Failed), Ok(2), Err(Failed), Ok(0)];
    for want in answers {
        assert_eq!(rt; source.read(&mut buf), want);
    }
    assert_eq!(rt; buf, [b'c', b'd', 0]);
    let mut sink = MemSink::new(alloc, 5, 2, [2].to_vec(alloc)?)?;
    let answers = [Ok(2), Err(Failed), Ok(2), Ok(1), Err(Failed)];
    for want in answers {
        assert_eq!(rt; sink.write(b"xyz"), want);
    }
    assert_eq!(rt; sink.written(), b"xyxyx".as_slice());
    Ok(())
}

#[test]
fn whole_texts_are_written_and_read(rt: HostRuntime) -> Result<(), Fail> {
    let alloc = rt.alloc();
    let long = [b'x'; 700];
    let mut sink = MemSink::new(alloc, 2000, 300, Vec::new(alloc))?;
    write_all(&mut sink, &long)?;
    write_all(&mut sink, b"a")?;
    write_all(&mut sink, b"")?;
    write_all(&mut sink, &long)?;
    write_all(&mut sink, b"z")?;
    assert_eq!(rt; sink.written().len(), 1402);
    assert_eq!(rt; sink.written().iter().filter(|b| **b == b'x').count(), 1400);
    assert_eq!(rt; sink.written().last(), Some(&b'z'));
    let mut source = MemSource::new(sink.written().to_vec(alloc)?, 300, Vec::new(alloc));
    let text = drained(alloc, &mut source)?;
    assert_eq!(rt; text.as_slice(), sink.written());
    Ok(())
}

#[test]
fn a_buffer_hands_on_in_large_pieces(rt: HostRuntime) -> Result<(), Fail> {
    let alloc = rt.alloc();
    // the lengths of two texts, the write that fails, the answer, and how much the sink has
    let cases = [
        (0, 0, 1, Ok(()), 0),
        (40_000, 20_000, 2, Ok(()), 60_000),
        (100_000, 50_000, 4, Ok(()), 150_000),
        (100_000, 50_000, 3, Err(Failed), 131_072),
        (65_536, 65_536, 2, Err(Failed), 65_536),
        (0, 65_537, 2, Err(Failed), 65_536),
    ];
    for (first, second, fails, answer, written) in cases {
        let sink = MemSink::new(alloc, 200_000, 100_000, [fails].to_vec(alloc)?)?;
        let mut buffered = BufferedSink::new(Buffer::new(alloc)?, sink);
        write_all(&mut buffered, &vec![in alloc; b'x'; first]?)?;
        let second = write_all(&mut buffered, &vec![in alloc; b'y'; second]?);
        let flushed = if second.is_ok() {
            buffered.flush()
        } else {
            second
        };
        assert_eq!(rt; flushed, answer, "{first} {written}");
        let sink = buffered.into_inner();
        assert_eq!(rt; sink.written().len(), written, "{first} {written}");
        assert_eq!(rt;
            sink.written().iter().filter(|b| **b == b'x').count(),
            first.min(written)
        );
    }
    Ok(())
}

#[test]
fn messages(rt: HostRuntime) -> Result<(), Fail> {
    let alloc = rt.alloc();
    for (error, text) in [(IoError::Failed, "Failed"), (IoError::NoMemory, "NoMemory")] {
        assert_eq!(rt; format!(in alloc; "{error}")?.as_str(), text);
    }
    Ok(())
}
