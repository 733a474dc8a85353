//! The smallest caller of `dp_pcap` that is proved about whole files.

ghost use Rattle.std.specs.Prelude.{◌≡◌, ◌+◌, ◌≤◌, ◌↔◌, length, false, IsOk, IsErrOf, IsTrue};
ghost use Rattle.dp_pcap.specs.Source.{failed_pulls};
ghost use Rattle.dp_pcap.specs.Text.{failed_pushes};
ghost use Rattle.layers_tests.specs.Copied.{Copied};

use dp_pcap::{
    Feed, MAX_RECORD, Next, PcapError, Sink, next_record, put_header, put_record, read_header,
};

/// Copies a capture from any reader to any writer; returns the byte at which it is cut, if it is.
///
/// It writes the records that were read in the one spelling, in the unit of the capture. `buf`
/// holds a record's bytes in between; it must have at least 262,144.
///
/// # Errors
///
/// Those of [`read_header`] and [`next_record`], and the failures of the two devices. The records
/// before the error are written all the same; at [`PcapError::Write`] a front of their spelling is.
pub fn copy<R: Feed, W: Sink>(
    r: &mut R,
    w: &mut W,
    buf: &mut [u8],
) -> Result<Option<u64>, PcapError>
    requires { MAX_RECORD ≤ length buf.old }
    ensures copied { Copied (R.remaining r.old) (R.remaining r.new)
        (W.contents w.old) (W.contents w.new) result }
    ensures reader { IsErrOf result PcapError.Read ↔ IsTrue (R.is_broken r.new) }
    ensures writer { IsErrOf result PcapError.Write → IsTrue (W.is_broken w.new) }
    ensures sound { IsOk result → W.is_broken w.new ≡ false }
    ensures pulls { R.failures r.new ≡ R.failures r.old + failed_pulls result }
    ensures pushes { W.failures w.new ≡ W.failures w.old + failed_pushes result }
{
    let mut source = read_header(r)?;
    let unit = source.unit();
    put_header(w, unit)?;
    loop {
        match next_record(r, &mut source, buf)? {
            Next::Record(time, len) => put_record(w, unit, time, &buf[..len])?,
            Next::End => return Ok(None),
            Next::Cut(byte) => return Ok(Some(byte)),
        }
    }
}
