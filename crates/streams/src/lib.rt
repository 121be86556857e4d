// What the programs do with their streams, of any reader and any writer.
#![tactic(auto)]

ghost use Rattle.std.specs.Prelude.{◌≡◌, ◌⊎◌, ◌≤◌, ◌<◌, IfOk, OnOk, IfErr, length, take};
ghost use Rattle.std.specs.Io.KnownBytes.{Consumes, IsAtEnd};
ghost use Rattle.streams.specs.Tracing.{TracesOnto, KeepsWhereUnread};
ghost use Rattle.streams.specs.declared.Failure.TheVariants.{Input, Output};

use std::io::{Read, Write};
use std::{fmt, io};
use tables::words::filled;
use traces::{LONGEST_INPUT, LONGEST_OUTPUT};

// One byte more than an input may have, so that a longer one can be told.
const INPUT_ROOM: usize = LONGEST_INPUT + 1;

// Which of the two streams failed, and how.
#[derive(Drop)]
pub enum Failure {
    Input(io::Error),
    Output(io::Error),
}

impl fmt::Display for Failure {
    fn fmt<W: fmt::Write>(&self, f: &mut fmt::Formatter<W>) -> fmt::Result {
        f.write_str(match self {
            Failure::Input(_) => "the input cannot be read",
            Failure::Output(_) => "the output cannot be written",
        })
    }
}

impl From<Failure> for io::Error {
    ghost from_gives = { λ f e. (f ≡ Input e) ⊎ (f ≡ Output e) };

    fn from(failure: Failure) -> io::Error {
        match failure {
            Failure::Input(error) | Failure::Output(error) => error,
        }
    }
}

// Reads until the buffer is full or the reader at its end, and returns how many bytes that were.
pub fn read_full<R: Read>(reader: &mut R, buffer: &mut [u8]) -> io::Result<usize>
    ensures within { IfOk result (λ n. n ≤ length buffer.new) }
    ensures bytes { IfOk result (λ n. Consumes (R.remaining reader.old) (R.remaining reader.new) (take n buffer.new)) }
    ensures end { IfOk result (λ n. n < length buffer.new → IsAtEnd (R.remaining reader.new)) }
{
    let mut at = 0;
    // A read takes what comes, so that how far each goes is known only after it, and no `for` counts the reads.
    while at < buffer.len() {
        let n = reader.read(&mut buffer[at..])?;
        if n == 0 {
            return Ok(at);
        }
        at += n;
    }
    Ok(at)
}

// Reads an input whole, and writes its trace.
pub fn trace_all<R: Read, W: Write>(reader: &mut R, writer: &mut W) -> Result<(), Failure>
    ensures traced { OnOk result (TracesOnto (R.remaining reader.old) (R.remaining reader.new) (W.contents writer.old) (W.contents writer.new)) }
    ensures unread { IfErr result (λ f. KeepsWhereUnread f (W.contents writer.old) (W.contents writer.new)) }
{
    // Two buffers of the longest lengths, with the lengths that are used beside: fixed memory, and no heap.
    let mut input = filled::<u8, INPUT_ROOM>(0);
    let n = read_full(reader, &mut input).map_err(|e| Failure::Input(e))?;
    let mut out = filled::<u8, LONGEST_OUTPUT>(0);
    let told = traces::trace(&input[..n], &mut out);
    let m = told.length;
    writer.write_all(&out[..m]).map_err(|e| Failure::Output(e))
}
