// Bytes taken from standard input, and given to standard output. A read that failed is told from the end of the input, so that
// nobody takes the front of a design for the whole of it.
#![tactic(auto)]

ghost use Rattle.std.specs.Prelude.{◌≤◌, length, IfOk, IfErr};

use std::io;
use std::io::{ErrorKind, Read};

// Why the input could not be read to its end, and what was read of it before.
#[derive(Clone, Copy)]
pub struct Unread<'a> {
    pub front: &'a [u8],
    pub why: io::Error,
}

// Reads some bytes to the front of the buffer, and gives their number: none at the end of the input. A read that a signal broke off
// is tried again.
// stays: (a) a proved loop has to end and `forever` needs a Wait, so the turns are counted, to a number that no run reaches.
pub fn take_some<R: Read>(reader: &mut R, buffer: &mut [u8]) -> io::Result<usize>
    ensures { IfOk result (λ n. n ≤ length buffer.new) }
{
    for _ in 0..usize::MAX {
        match reader.read(buffer) {
            Err(why) if why.kind() == ErrorKind::Interrupted => {}
            taken => return taken,
        }
    }
    Err(io::Error::from(ErrorKind::Interrupted))
}

// Reads until the buffer is full or the input ends, and lends what came.
// stays: (a) `read_exact` doesn't say how much came, `read_to_end` needs a heap, `io::copy` 8 KiB of stack to copy through.
pub fn take_all<'a, R: Read>(reader: &mut R, buffer: &'a mut [u8]) -> Result<&'a [u8], Unread<'a>>
    ensures ok { IfOk result (λ read. length read.now ≤ length buffer.old) }
    ensures err { IfErr result (λ unread. length unread.front.now ≤ length buffer.old) }
{
    let mut count = 0;
    while count < buffer.len() {
        match take_some(reader, &mut buffer[count..]) {
            Ok(0) => break,
            Ok(more) => count += more,
            Err(why) => {
                return Err(Unread {
                    front: &buffer[..count],
                    why,
                });
            }
        }
    }
    Ok(&buffer[..count])
}

// Says on standard error, in the system's words, why the input could not be read. Where that can't be written either, nobody
// is left to be told.
pub fn say_unread(rt: &impl Eprint, why: io::Error) {
    let _ = eprintln!(rt; "standard input: {why}");
}

// The same of the output.
pub fn say_unwritten(rt: &impl Eprint, why: io::Error) {
    let _ = eprintln!(rt; "standard output: {why}");
}

// Reads until the buffer is full or the input ends, and lends what came; or says why the input could not be read, and the error
// is what came before.
pub fn take_or_say<'a>(
    rt: &(impl Input + Eprint),
    buffer: &'a mut [u8],
) -> Result<&'a [u8], &'a [u8]>
    ensures ok { IfOk result (λ read. length read.now ≤ length buffer.old) }
    ensures err { IfErr result (λ front. length front.now ≤ length buffer.old) }
{
    let taken = take_all(&mut rt.reader(), buffer);
    taken.map_err(|unread| {
        say_unread(rt, unread.why);
        unread.front
    })
}

// Writes all of the bytes, or says why they can't be written.
pub fn write_or_say(rt: &(impl Print + Eprint), bytes: &[u8]) -> io::Result<()> {
    rt.write_all(bytes)
        .inspect_err(|why| say_unwritten(rt, *why))
}
