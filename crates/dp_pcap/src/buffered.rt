//! A buffer in front of a writer.
ghost use Rattle.std.specs.Prelude.{◌≡◌, ◌+◌, ◌≤◌, [], ◌++◌, length, take, IfOk, OnErr, OnOk};
ghost use Rattle.std.specs.Io.{WritesAtMost};
ghost use Rattle.std.specs.Io.KnownBytes.{Appends, Keeps, WriteAppends};
ghost use Rattle.dp_pcap.specs.Buffers.{writer_buffer, writer_capacity, writer_contents, writer_inner};

use crate::pending::Pending;
use std::alloc::Global;
use std::io::{self, Error, ErrorKind, Write};

/// A writer with a buffer in front, as std's `BufWriter` is one. Bytes that fit into the buffer are one copy and one sum. What is still in the
/// buffer when it is dropped is written then.
pub struct Buffered<W: Write + Drop> {
    inner: W,
    pending: Pending,
}

impl<W: Write + Drop> Buffered<W> {
    /// Puts a buffer of this size in front of a writer, or drops the writer if there is no memory.
    ///
    /// # Errors
    ///
    /// Out of memory.
    pub fn with_capacity(alloc: Global, capacity: usize, inner: W) -> io::Result<Buffered<W>>
        ensures inner { IfOk result (λ w. writer_inner w ≡ inner) }
        ensures empty { IfOk result (λ w. writer_buffer w ≡ []) }
        ensures capacity { IfOk result (λ w. writer_capacity w ≡ capacity) }
    {
        let pending = Pending::with_capacity(alloc, capacity)?;
        Ok(Buffered { inner, pending })
    }

    /// The size of the buffer.
    #[inline(always)]
    pub fn capacity(&self) -> usize
        ensures { result ≡ writer_capacity self.now }
    {
        self.pending.capacity()
    }

    // How many bytes the buffer has room for.
    #[inline(always)]
    pub(crate) fn room(&self) -> usize
        ensures { result + length (writer_buffer self.now) ≡ writer_capacity self.now }
    {
        self.pending.room()
    }

    /// The writer.
    pub fn get_ref(&self) -> &W
        ensures { result.now ≡ writer_inner self.now }
    {
        &self.inner
    }

    /// The bytes that are still to be written.
    #[inline(always)]
    pub fn buffer(&self) -> &[u8]
        ensures { result.now ≡ writer_buffer self.now }
    {
        self.pending.bytes()
    }

    // Takes two pieces for which the buffer has room.
    #[inline(always)]
    pub(crate) fn take_both(&mut self, first: &[u8], second: &[u8])
        requires { length (writer_buffer self.old) + (length first.now + length second.now) ≤ writer_capacity self.old }
        ensures bytes { writer_buffer self.new ≡ writer_buffer self.old ++ (first.now ++ second.now) }
        ensures capacity { writer_capacity self.new ≡ writer_capacity self.old }
        ensures inner { writer_inner self.new ≡ writer_inner self.old }
    {
        self.pending.append_both(first, second);
    }

    // Writes the buffer out. What a failure leaves unwritten stays in it.
    fn write_out(&mut self) -> io::Result<()>
        ensures empty { OnOk result (writer_buffer self.new ≡ []) }
        ensures capacity { writer_capacity self.new ≡ writer_capacity self.old }
        ensures bytes { Keeps (writer_contents W.contents self.old) (writer_contents W.contents self.new) }
    {
        let (written, result) = write_front(self.pending.bytes(), &mut self.inner);
        self.pending.remove_front(written);
        result
    }

    // Takes bytes of which the buffer has places for all, after it is written out if they do not fit beside what it holds.
    fn hold(&mut self, bytes: &[u8]) -> io::Result<()>
        requires { length bytes.now ≤ writer_capacity self.old }
        ensures ok { OnOk result (Appends (writer_contents W.contents self.old) (writer_contents W.contents self.new) bytes.now) }
        ensures err { OnErr result (Keeps (writer_contents W.contents self.old) (writer_contents W.contents self.new)) }
    {
        if bytes.len() > self.pending.room() {
            self.write_out()?;
        }
        self.pending.append(bytes);
        Ok(())
    }

    // Takes bytes for which the buffer has no room left. It stands apart, so that the test for room is inlined.
    #[cold]
    #[inline(never)]
    fn write_past(&mut self, bytes: &[u8]) -> io::Result<usize>
        ensures bound { WritesAtMost result bytes.now }
        ensures bytes { WriteAppends (writer_contents W.contents self.old) (writer_contents W.contents self.new) result bytes.now }
    {
        if bytes.len() >= self.pending.capacity() {
            self.write_out()?;
            return self.inner.write(bytes);
        }
        self.hold(bytes)?;
        Ok(bytes.len())
    }
}

impl<W: Write + Drop> Write for Buffered<W> {
    ghost contents = { writer_contents W.contents };

    #[inline(always)]
    fn write(&mut self, buf: &[u8]) -> io::Result<usize> {
        if buf.len() < self.pending.room() {
            self.pending.append(buf);
            return Ok(buf.len());
        }
        self.write_past(buf)
    }

    fn flush(&mut self) -> io::Result<()>
        ensures bytes { Keeps (writer_contents W.contents self.old) (writer_contents W.contents self.new) }
        ensures ok { OnOk result (writer_buffer self.new ≡ []) }
    {
        self.write_out()?;
        self.inner.flush()
    }
}

impl<W: Write + Drop> Drop for Buffered<W> {
    fn drop(mut self) {
        let _ = self.write_out();
        let Buffered {
            inner: _inner,
            pending: _,
        } = self;
    }
}

// Writes until all is written or a write fails, and returns how many bytes were written.
fn write_front<W: Write>(bytes: &[u8], to: &mut W) -> (usize, io::Result<()>)
    ensures bound { result.0 ≤ length bytes.now }
    ensures all { OnOk result.1 (result.0 ≡ length bytes.now) }
    ensures bytes { Appends (W.contents to.old) (W.contents to.new) (take result.0 bytes.now) }
{
    let mut written = 0;
    while written < bytes.len() {
        match write_again(&bytes[written..], to) {
            Ok(0) => {
                let message = "failed to write the buffered data";
                return (written, Err(Error::new(ErrorKind::WriteZero, message)));
            }
            Ok(n) => written += n,
            Err(error) => return (written, Err(error)),
        }
    }
    (written, Ok(()))
}

// One write, made again where a signal interrupts it.
fn write_again<W: Write>(bytes: &[u8], to: &mut W) -> io::Result<usize>
    ensures bound { WritesAtMost result bytes.now }
    ensures ok { IfOk result (λ n. Appends (W.contents to.old) (W.contents to.new) (take n bytes.now)) }
    ensures err { OnErr result (Keeps (W.contents to.old) (W.contents to.new)) }
{
    for _ in 0..u64::MAX {
        match to.write(bytes) {
            Ok(n) => return Ok(n),
            Err(error) => {
                if error.kind() != ErrorKind::Interrupted {
                    return Err(error);
                }
            }
        }
    }
    Err(ErrorKind::Interrupted.into())
}
