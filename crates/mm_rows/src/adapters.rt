// The adapters over the system's streams, which tell no content: what they pass on, and which calls they count as faults.

use mm_base::os::{OsSink, OsSource};
use mm_base::outside::{PutEnd, Sink, Source, TakeEnd};
use std::io::{self, ErrorKind, Read, Write};
use std::test::Fail;

// A stream of one byte a call, of which the second call fails and the third takes nothing.
#[derive(Drop)]
struct Flaky {
    calls: u32,
}

impl Read for Flaky {
    fn read(&mut self, buffer: &mut [u8]) -> io::Result<usize> {
        self.calls = self.calls.saturating_add(1);
        if self.calls == 2 {
            return Err(io::Error::from(ErrorKind::Other));
        }
        if self.calls == 3 || buffer.is_empty() {
            return Ok(0);
        }
        buffer[0] = b'x';
        Ok(1)
    }
}

impl Write for Flaky {
    fn write(&mut self, piece: &[u8]) -> io::Result<usize> {
        self.calls = self.calls.saturating_add(1);
        if self.calls == 2 {
            return Err(io::Error::from(ErrorKind::Other));
        }
        if self.calls == 3 || piece.is_empty() {
            return Ok(0);
        }
        Ok(1)
    }

    fn flush(&mut self) -> io::Result<()> {
        Ok(())
    }
}

#[test]
fn a_source_passes_on_what_its_reader_gives(rt: HostRuntime) -> Result<(), Fail> {
    let mut source = OsSource::new(Flaky { calls: 0 });
    let mut taken = [0u8; 4];
    assert_eq!(rt; source.take(&mut taken), TakeEnd::Took(1));
    assert_eq!(rt; taken[0], b'x');
    assert_eq!(rt; source.take(&mut taken), TakeEnd::Failed);
    assert_eq!(rt; source.take(&mut taken), TakeEnd::Took(0));
    Ok(())
}

#[test]
fn a_write_that_takes_nothing_is_a_fault(rt: HostRuntime) -> Result<(), Fail> {
    let mut sink = OsSink::new(Flaky { calls: 0 });
    assert_eq!(rt; sink.put(b"abc"), PutEnd::Took(1));
    assert_eq!(rt; sink.put(b"bc"), PutEnd::Failed);
    assert_eq!(rt; sink.put(b"bc"), PutEnd::Failed);
    assert_eq!(rt; sink.put(b"bc"), PutEnd::Took(1));
    Ok(())
}
