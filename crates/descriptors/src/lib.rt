// Reads and writes of a file descriptor: one that a signal interrupts is tried again, one that would block is waited for, and a read that failed
// is not the end of the input.

#![tactic(auto)]

ghost use Rattle.std.specs.Prelude.{◌≤◌, ◌<◌, length, take, IfOk, OnOk};
ghost use Rattle.std.specs.Io.{ReadsAtMost};
ghost use Rattle.std.specs.Io.KnownBytes.{ReadConsumes, Consumes, Appends, IsAtEnd};

use std::io;
use std::io::{Cursor, Error, ErrorKind, Read, Write};
use std::time::Clock;

// Whether a read or a write that failed is to be tried again: a signal interrupted it, or the descriptor would block, which is waited for.
fn is_to_be_tried_again(clock: &impl Clock, why: &Error) -> bool {
    match why.kind() {
        ErrorKind::Interrupted => true,
        ErrorKind::WouldBlock => {
            sleeper::pause(clock);
            true
        }
        _ => false,
    }
}

// One read: the number of bytes read, 0 at the input's end. A proved loop has to end, so this one has a number of turns that no run uses up.
pub fn read_some<R: Read>(
    clock: &impl Clock,
    source: &mut R,
    buffer: &mut [u8],
) -> io::Result<usize>
    ensures bound { ReadsAtMost result buffer.new }
    ensures bytes { ReadConsumes (R.remaining source.old) (R.remaining source.new) result buffer.new }
{
    for _ in 1..u64::MAX {
        match source.read(buffer) {
            Err(why) if is_to_be_tried_again(clock, &why) => {}
            answer => return answer,
        }
    }
    source.read(buffer)
}

// Reads until the input ends or the buffer is full. Where a read fails, what came before does not count.
pub fn read_whole<R: Read>(
    clock: &impl Clock,
    source: &mut R,
    buffer: &mut [u8],
) -> io::Result<usize>
    ensures bound { IfOk result (λ n. n ≤ length buffer.new) }
    ensures bytes { IfOk result (λ n. Consumes (R.remaining source.old) (R.remaining source.new) (take n buffer.new)) }
    ensures end { IfOk result (λ n. n < length buffer.new → IsAtEnd (R.remaining source.new)) }
{
    let mut done = 0;
    while done < buffer.len() {
        let n = read_some(clock, source, &mut buffer[done..])?;
        if n == 0 {
            break;
        }
        done += n;
    }
    Ok(done)
}

// Writes all bytes. A write that takes none fails with the last failure that was tried again, if there was one.
pub fn write_whole<W: Write>(clock: &impl Clock, target: &mut W, bytes: &[u8]) -> io::Result<()>
    ensures { OnOk result (Appends (W.contents target.old) (W.contents target.new) bytes.now) }
{
    let mut rest = bytes;
    let mut last = Error::from_raw_os_error(0);
    for _ in 0..u64::MAX {
        if rest.is_empty() {
            return Ok(());
        }
        match target.write(rest) {
            Ok(0) => return Err(last),
            Ok(n) => rest = &rest[n..],
            Err(why) if is_to_be_tried_again(clock, &why) => last = why,
            Err(why) => return Err(why),
        }
    }
    Err(last)
}

// How long an error's text is without the number that std puts behind it: 14 of "Is a directory (os error 21)".
fn text_length(text: &[u8]) -> usize
    ensures { result ≤ length text.now }
{
    match text.iter().rposition(|&b| b == b'(') {
        Some(at) if at > 0 => at - 1,
        _ => text.len(),
    }
}

// Writes a line to standard error: what failed, as the caller names it, a colon and why. A line that cannot be written is lost.
pub fn fail(errors: &mut impl Write, what: &[u8], why: &Error) {
    let mut cursor = Cursor::new([0u8; 128]);
    let _ = write!(cursor, "{why}");
    let size = cursor.position().min(128) as usize;
    let text = cursor.into_inner();
    let length = text_length(&text[..size]);
    let _ = errors.write_all(what);
    let _ = errors.write_all(b": ");
    let _ = errors.write_all(&text[..length]);
    let _ = errors.write_all(b"\n");
}
