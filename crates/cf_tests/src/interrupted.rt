//! An interrupted call of a reader or of a writer is tried again, and is no fault.
ghost use Rattle.std.specs.Prelude.{◌≤◌, length};

use cf_io::{Failed, ReadSource, Sink, Source, WriteSink};
use std::io::{Error, ErrorKind, Read, Result as IoResult, Write};
use std::test::Fail;

/// Its first calls are interrupted. Then it gives one byte, or takes all.
#[derive(Drop)]
struct Interrupted {
    times: u64,
}

impl Read for Interrupted {
    fn read(&mut self, buf: &mut [u8]) -> IoResult<usize> {
        if self.times > 0 {
            self.times -= 1;
            return Err(Error::from(ErrorKind::Interrupted));
        }
        Ok(buf.len().min(1))
    }
}

impl Write for Interrupted {
    fn write(&mut self, buf: &[u8]) -> IoResult<usize> {
        if self.times > 0 {
            self.times -= 1;
            return Err(Error::from(ErrorKind::Interrupted));
        }
        Ok(buf.len())
    }

    fn flush(&mut self) -> IoResult<()> {
        Ok(())
    }
}

#[test]
fn an_interrupted_call_is_tried_again(rt: HostRuntime) -> Result<(), Fail> {
    let mut into = [0u8; 4];
    let mut source = ReadSource::new(Interrupted { times: 3 });
    assert_eq!(rt; source.read(&mut into), Ok(1));
    let mut sink = WriteSink::new(Interrupted { times: 3 });
    assert_eq!(rt; sink.write(b"abc"), Ok(3));
    Ok(())
}

#[test]
fn a_call_that_is_interrupted_for_ever_failed(rt: HostRuntime) -> Result<(), Fail> {
    let mut into = [0u8; 4];
    let mut source = ReadSource::new(Interrupted { times: u64::MAX });
    assert_eq!(rt; source.read(&mut into), Err(Failed));
    Ok(())
}
