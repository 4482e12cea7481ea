use super::*;
use std::test::Fail;

/// Three bytes at a time, and so often; then it fails.
#[derive(Drop)]
struct Breaking<T> {
    inner: T,
    left: usize,
}

impl<T> Breaking<T> {
    fn turn(&mut self, len: usize) -> io::Result<usize> {
        if self.left == 0 {
            return Err(io::Error::from(io::ErrorKind::WouldBlock));
        }
        self.left -= 1;
        Ok(len.min(3))
    }
}

impl<T: Read> Read for Breaking<T> {
    fn read(&mut self, buf: &mut [u8]) -> io::Result<usize> {
        let len = self.turn(buf.len())?.min(buf.len());
        self.inner.read(&mut buf[..len])
    }
}

impl<T: Write> Write for Breaking<T> {
    fn write(&mut self, buf: &[u8]) -> io::Result<usize> {
        let len = self.turn(buf.len())?.min(buf.len());
        self.inner.write(&buf[..len])
    }

    fn flush(&mut self) -> io::Result<()> {
        Ok(())
    }
}

/// An interrupted read before each piece of three bytes.
#[derive(Drop)]
struct Interrupted<T> {
    inner: T,
    is_next: bool,
}

impl<T: Read> Read for Interrupted<T> {
    fn read(&mut self, buf: &mut [u8]) -> io::Result<usize> {
        self.is_next = !self.is_next;
        if !self.is_next {
            return Err(io::Error::from(io::ErrorKind::Interrupted));
        }
        let len = buf.len().min(3);
        self.inner.read(&mut buf[..len])
    }
}

/// The text and a full stop, where that has room.
fn with_a_stop(text: &[u8], buffer: &mut [u8]) -> usize {
    for (slot, byte) in buffer.iter_mut().zip(text.iter().chain(b".")) {
        *slot = *byte;
    }
    buffer.len().min(text.len() + 1)
}

#[test]
fn answers_what_was_read(rt: HostRuntime) -> Result<(), Fail> {
    let mut written = Vec::new(rt.alloc());
    let mut reader = b"abcdefg".as_slice();
    answered_into(&mut reader, &mut written, &mut [0; 20], with_a_stop)?;
    assert_eq!(rt; written.as_slice(), b"abcdefg.".as_slice());
    ended(&rt, "replay", "the report", Ok(()))?;
    Ok(())
}

#[test]
fn writes_nothing_after_a_failed_read(rt: HostRuntime) {
    let mut written = Vec::new(rt.alloc());
    let mut reader = Breaking {
        inner: b"abcdefg".as_slice(),
        left: 2,
    };
    let end = answered_into(&mut reader, &mut written, &mut [0; 20], with_a_stop);
    assert!(rt; matches!(end, Err(Failure::Unread(_))));
    assert!(rt; written.is_empty());
}

#[test]
fn tells_a_failed_write(rt: HostRuntime) {
    let mut reader = b"abcdefg".as_slice();
    let mut writer = Breaking {
        inner: Vec::new(rt.alloc()),
        left: 2,
    };
    let end = answered_into(&mut reader, &mut writer, &mut [0; 20], with_a_stop);
    assert!(rt; matches!(end, Err(Failure::Unwritten(_))));
    assert_eq!(rt; writer.inner.as_slice(), b"abcdef".as_slice());
    assert!(rt; ended(&rt, "replay", "the report", end).is_err());
}

#[test]
fn keeps_what_was_put(rt: HostRuntime) -> Result<(), Fail> {
    let mut kept = Vec::new(rt.alloc());
    answered_into(&mut b"a".as_slice(), &mut kept, &mut [0; 4], with_a_stop)?;
    assert_eq!(rt; kept.as_slice(), b"a.".as_slice());
    Ok(())
}

#[test]
fn keeps_lines_on_the_heap(rt: HostRuntime) -> Result<(), Fail> {
    let kept = lines(rt.alloc(), b"a", 4, with_a_stop)?;
    assert_eq!(rt; kept.as_slice(), b"a.".as_slice());
    Ok(())
}

#[test]
fn answers_with_lines_on_the_heap(rt: HostRuntime) -> Result<(), Fail> {
    let mut written = Vec::new(rt.alloc());
    let mut reader = b"abcdefg".as_slice();
    answered(rt.alloc(), &mut reader, &mut written, 20, with_a_stop)?;
    assert_eq!(rt; written.as_slice(), b"abcdefg.".as_slice());
    Ok(())
}

#[test]
fn reads_on_after_an_interruption(rt: HostRuntime) -> Result<(), Fail> {
    let mut written = Vec::new(rt.alloc());
    let mut reader = Interrupted {
        inner: b"abcdefg".as_slice(),
        is_next: true,
    };
    answered(rt.alloc(), &mut reader, &mut written, 20, with_a_stop)?;
    assert_eq!(rt; written.as_slice(), b"abcdefg.".as_slice());
    Ok(())
}

#[test]
fn an_interruption_ends_a_program(rt: HostRuntime) {
    let mut written = Vec::new(rt.alloc());
    let mut reader = Interrupted {
        inner: b"abcdefg".as_slice(),
        is_next: true,
    };
    let end = answered_into(&mut reader, &mut written, &mut [0; 20], with_a_stop);
    assert!(rt; matches!(end, Err(Failure::Unread(_))));
    assert!(rt; written.is_empty());
}

#[test]
fn writes_nothing_on_the_heap_after_a_failed_read(rt: HostRuntime) {
    let mut written = Vec::new(rt.alloc());
    let mut reader = Breaking {
        inner: b"abcdefg".as_slice(),
        left: 2,
    };
    let end = answered(rt.alloc(), &mut reader, &mut written, 20, with_a_stop);
    assert!(rt; matches!(end, Err(Failure::Unread(_))));
    assert!(rt; written.is_empty());
}

#[test]
fn tells_a_failed_write_of_lines_on_the_heap(rt: HostRuntime) {
    let mut reader = b"abcdefg".as_slice();
    let mut writer = Breaking {
        inner: Vec::new(rt.alloc()),
        left: 2,
    };
    let end = answered(rt.alloc(), &mut reader, &mut writer, 20, with_a_stop);
    assert!(rt; matches!(end, Err(Failure::Unwritten(_))));
    assert_eq!(rt; writer.inner.as_slice(), b"abcdef".as_slice());
}

#[test]
fn tells_no_memory_as_unread(rt: HostRuntime) {
    let mut written = Vec::new(rt.alloc());
    let mut reader = b"abcdefg".as_slice();
    let end = answered(
        rt.alloc(),
        &mut reader,
        &mut written,
        usize::MAX,
        with_a_stop,
    );
    assert!(rt;
        matches!(&end, Err(Failure::Unread(error)) if error.kind() == io::ErrorKind::OutOfMemory)
    );
    assert!(rt; written.is_empty());
    assert!(rt; ended(&rt, "replay", "the report", end).is_err());
}
