//! A caller that knows its source and its sink by the traits alone, run at each kind of them.

ghost use Rattle.std.specs.Prelude.{◌≡◌, ◌*◌, ◌≤◌, ◌^◌, ◌⊎◌, List, ℕ, length, IsTrue, OnOk, OnErr, IfOk};
ghost use Rattle.byte_io.specs.Faults.{Rose, HasCause};
ghost use Rattle.byte_io.specs.Source.{Took};
ghost use Rattle.byte_io.specs.Sink.{HasRoom, Wrote, WrotePart};

use super::*;
use std::io;
use std::io::{ErrorKind, Read, Write};
use std::test::Fail;

// Copies a source to a sink, in at most `turns` pieces. Answers whether the end was met.
fn copy<S: Source, K: Sink>(source: &mut S, sink: &mut K, turns: u32) -> Result<bool, Failed>
    requires count { S.count source.old ≤ 2 ^ 62 }
    requires room { HasRoom (K.room sink.old) (4 * turns) }
    ensures whole { OnOk result ((bytes : List ℕ)
        × (Took (S.count source.old) (S.count source.new) (S.taken source.old) (S.taken source.new)
        (S.left source.old) (S.left source.new) bytes)
        × (Wrote (K.written sink.old) (K.written sink.new) (K.room sink.old) (K.room sink.new) bytes)) }
    ensures end { IfOk result (λ is_end. IsTrue is_end → IsTrue (S.ended source.new)) }
    ensures cause { OnErr result (Rose (S.faults source.old) (S.faults source.new)
        ⊎ Rose (K.faults sink.old) (K.faults sink.new)) }
{
    let mut piece = [0u8; 4];
    'pieces: for _ in 0..turns {
        let count = source.read(&mut piece)?;
        if count == 0 {
            return Ok(true);
        }
        write_all(sink, &piece[..count])?;
    }
    Ok(false)
}

// Offers a source no room.
fn read_nothing<S: Source>(source: &mut S) -> Result<usize, Failed>
    requires { S.count source.old ≤ 2 ^ 62 }
    ensures none { IfOk result (λ count. count ≡ 0) }
    ensures count { S.count source.new ≡ S.count source.old }
    ensures end { S.ended source.new ≡ S.ended source.old }
{
    source.read(&mut [])
}

#[test]
fn copies_between_sure_objects(rt: HostRuntime) -> Result<(), Fail> {
    let mut source = SureSource::new(b"given X 5 std 1\n".to_vec(rt.alloc())?);
    let mut sink = SureSink::new(rt.alloc(), 20)?;
    assert_eq!(rt; copy(&mut source, &mut sink, 5), Ok(true));
    assert_eq!(rt; sink.written(), b"given X 5 std 1\n".as_slice());
    Ok(())
}

#[test]
fn stops_at_a_failing_read(rt: HostRuntime) -> Result<(), Fail> {
    let bytes = b"value Y\n".to_vec(rt.alloc())?;
    let fails = [3].to_vec(rt.alloc())?;
    let mut source = MemorySource::new(bytes, fails, [1, 1, 1].to_vec(rt.alloc())?);
    let mut sink = SureSink::new(rt.alloc(), 40)?;
    assert_eq!(rt; copy(&mut source, &mut sink, 10), Err(Failed));
    assert_eq!(rt; sink.written(), b"va".as_slice());

    // The reads after the failing one go on where it stood: by one more byte, and then by all that fit.
    let mut piece = [0u8; 4];
    assert_eq!(rt; source.read(&mut piece), Ok(1));
    assert_eq!(rt; piece[0], b'l');
    assert_eq!(rt; source.read(&mut piece), Ok(4));
    assert_eq!(rt; piece, *b"ue Y");
    assert_eq!(rt; source.read(&mut piece), Ok(1));
    assert_eq!(rt; source.read(&mut piece), Ok(0));
    Ok(())
}

#[test]
fn stops_at_a_failing_write(rt: HostRuntime) -> Result<(), Fail> {
    let mut source = SureSource::new(b"value Y\n".to_vec(rt.alloc())?);
    let mut sink = MemorySink::new(rt.alloc(), 40, [2].to_vec(rt.alloc())?)?;
    assert_eq!(rt; copy(&mut source, &mut sink, 10), Err(Failed));
    assert_eq!(rt; sink.written(), b"valu".as_slice());
    Ok(())
}

// A reader that gives a byte, fails, and then is at its end.
#[derive(Drop)]
struct FaultyReader {
    calls: u32,
}

impl Read for FaultyReader {
    fn read(&mut self, buf: &mut [u8]) -> io::Result<usize> {
        self.calls = self.calls.saturating_add(1);
        match self.calls {
            1 if !buf.is_empty() => {
                buf[0] = b'x';
                Ok(1)
            }
            2 => Err(ErrorKind::Interrupted.into()),
            _ => Ok(0),
        }
    }
}

// A writer that takes at most three bytes of each piece.
#[derive(Drop)]
struct ShortWriter<'a> {
    bytes: &'a mut Vec<u8>,
}

impl Write for ShortWriter<'_> {
    fn write(&mut self, buf: &[u8]) -> io::Result<usize> {
        let count = buf.len().min(3);
        self.bytes.extend_from_slice(&buf[..count])?;
        Ok(count)
    }

    fn flush(&mut self) -> io::Result<()> {
        Ok(())
    }
}

// A writer that takes nothing, fails, and then takes all.
#[derive(Drop)]
struct FaultyWriter {
    calls: u32,
}

impl Write for FaultyWriter {
    fn write(&mut self, buf: &[u8]) -> io::Result<usize> {
        self.calls = self.calls.saturating_add(1);
        match self.calls {
            1 => Ok(0),
            2 => Err(ErrorKind::Interrupted.into()),
            _ => Ok(buf.len()),
        }
    }

    fn flush(&mut self) -> io::Result<()> {
        Ok(())
    }
}

#[test]
fn counts_the_faults_of_a_reader(rt: HostRuntime) {
    let mut source = StdSource::new(FaultyReader { calls: 0 });
    let mut sink = StdSink::new(FaultyWriter { calls: 2 });
    assert_eq!(rt; copy(&mut source, &mut sink, 3), Err(Failed));
    let mut sink = StdSink::new(FaultyWriter { calls: 2 });
    let mut source = StdSource::new(FaultyReader { calls: 2 });
    assert_eq!(rt; copy(&mut source, &mut sink, 3), Ok(true));
}

#[test]
fn counts_the_faults_of_a_writer(rt: HostRuntime) {
    let mut sink = StdSink::new(FaultyWriter { calls: 0 });
    assert_eq!(rt; sink.write(b"ok\n"), Err(Failed));
    assert_eq!(rt; sink.write(b"ok\n"), Err(Failed));
    assert_eq!(rt; sink.write(b"ok\n"), Ok(3));
    assert_eq!(rt; sink.write(b""), Ok(0));
}

#[test]
fn copies_from_a_reader_to_a_writer(rt: HostRuntime) -> Result<(), Fail> {
    let mut out = Vec::new(rt.alloc());
    {
        let mut source = StdSource::new(b"value Y\n".as_slice());
        let mut sink = StdSink::new(&mut out);
        assert_eq!(rt; copy(&mut source, &mut sink, 3), Ok(true));
    }
    assert_eq!(rt; out.as_slice(), b"value Y\n".as_slice());
    Ok(())
}

#[test]
fn tells_how_much_a_writer_took(rt: HostRuntime) -> Result<(), Fail> {
    let mut out = Vec::new(rt.alloc());
    {
        let mut sink = StdSink::new(ShortWriter { bytes: &mut out });
        assert_eq!(rt; sink.write(b"value"), Ok(3));
        assert_eq!(rt; write_all(&mut sink, b"ue Y\n"), Ok(()));
    }
    assert_eq!(rt; out.as_slice(), b"value Y\n".as_slice());
    Ok(())
}

#[test]
fn gives_nothing_to_an_empty_piece(rt: HostRuntime) -> Result<(), Fail> {
    let mut sure = SureSource::new(b"Y".to_vec(rt.alloc())?);
    assert_eq!(rt; read_nothing(&mut sure), Ok(0));
    let mut memory = MemorySource::new(
        b"Y".to_vec(rt.alloc())?,
        [2].to_vec(rt.alloc())?,
        Vec::new(rt.alloc()),
    );
    assert_eq!(rt; read_nothing(&mut memory), Ok(0));
    assert_eq!(rt; read_nothing(&mut memory), Err(Failed));
    let mut reader = StdSource::new(b"Y".as_slice());
    assert_eq!(rt; read_nothing(&mut reader), Ok(0));

    let mut piece = [0u8; 4];
    assert_eq!(rt; sure.read(&mut piece), Ok(1));
    assert_eq!(rt; memory.read(&mut piece), Ok(1));
    assert_eq!(rt; reader.read(&mut piece), Ok(1));
    Ok(())
}
