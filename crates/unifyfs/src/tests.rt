use super::*;
use fs_dev::{ReadFailed, Sink, Source, WriteFailed};
use std::io;
use std::io::{Read, Write};
use std::test::Fail;

// A stream of the system whose calls fail.
#[derive(Drop)]
struct BrokenStream;

impl Read for BrokenStream {
    fn read(&mut self, _buf: &mut [u8]) -> io::Result<usize> {
        Err(io::Error::from(ErrorKind::IsADirectory))
    }
}

impl Write for BrokenStream {
    fn write(&mut self, _buf: &[u8]) -> io::Result<usize> {
        Err(io::Error::from(ErrorKind::StorageFull))
    }

    fn flush(&mut self) -> io::Result<()> {
        Ok(())
    }
}

#[test]
fn input_gives_what_its_stream_gives(rt: HostRuntime) -> Result<(), Fail> {
    let mut input = StandardInput::new(b"six by".as_slice());
    let mut buffer = [0; 4];
    assert_eq!(rt; input.read(&mut buffer)?, 4);
    assert_eq!(rt; buffer.as_slice(), b"six ".as_slice());
    assert_eq!(rt; input.read(&mut buffer)?, 2);
    assert_eq!(rt; buffer.as_slice(), b"byx ".as_slice());
    assert_eq!(rt; input.read(&mut buffer)?, 0);
    let mut broken = StandardInput::new(BrokenStream);
    assert_eq!(rt; broken.read(&mut buffer), Err(ReadFailed));
    Ok(())
}

#[test]
fn output_takes_what_its_stream_takes(rt: HostRuntime) -> Result<(), Fail> {
    let mut room = [0; 4];
    let mut output = StandardOutput::new(room.as_mut_slice());
    assert_eq!(rt; output.write(b"six by")?, 4);
    assert_eq!(rt; output.write(b"by"), Err(WriteFailed));
    assert_eq!(rt; output.write(b"")?, 0);
    assert_eq!(rt; room.as_slice(), b"six ".as_slice());
    let mut broken = StandardOutput::new(BrokenStream);
    assert_eq!(rt; broken.write(b"by"), Err(WriteFailed));
    Ok(())
}
