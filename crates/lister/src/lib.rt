// The whole axis listing of an input, in a lent buffer; and what reads an input and writes its listing.
#![tactic(auto)]

ghost use Rattle.std.specs.Prelude.{◌≡◌, ◌+◌, ◌<◌, ◌≤◌, ◌++◌, length, take, drop, IfOk, IfSome, OnOk};
ghost use Rattle.std.specs.Io.{ReadsAtMost};
ghost use Rattle.std.specs.Io.KnownBytes.{Appends, Consumes, IsAtEnd};
ghost use Rattle.arrayvec.specs.ArrayVec.{array_vec_len};
ghost use Rattle.axes.specs.FvarAnswers.{header};
ghost use Rattle.lister.specs.Listing.{axis_text, table_text, listing, over, Leads};

use axes::fvar::Fvar;
use listing::{Axis, Line, ROOM as LINE_ROOM};
use std::io;
use std::io::{Read, Write};

// An input of more bytes is too long. One byte more is read, to know.
const MOST: usize = 65_536;

const LOOK: usize = MOST + 1;

// Room for any listing: the counts and 65,535 axes, at most 64 bytes each. An array and a position, and no `ArrayVec`: handed over by
// value, one of this size overran a stack of 8 MiB (tried).
pub const ROOM: usize = 4_194_304;

// Puts a line from a position on and answers the position behind it.
fn append(out: &mut [u8], at: usize, line: &Line) -> usize
    requires { at + LINE_ROOM ≤ length out.old }
    ensures position { result ≡ at + length line.now.items }
    ensures after { out.new ≡ take at out.old ++ line.now.items ++ drop result out.old }
    ensures bound { result ≤ at + LINE_ROOM }
{
    let end = at + line.len();
    out[at..end].copy_from_slice(line.as_slice());
    end
}

fn line_of(table: &[u8], fvar: Fvar, index: u16) -> Line
    ensures { result.items ≡ axis_text table.now (header fvar) index }
{
    match fvar.get_axis(table, index) {
        Ok(a) => listing::axis_line(Axis {
            index,
            tag: a.tag,
            min: a.min.0,
            default: a.default.0,
            max: a.max.0,
            flags: a.flags,
            name_id: a.name_id,
        }),
        Err(refusal) => listing::refused_line(index, refusal.into()),
    }
}

fn put_table(out: &mut [u8; ROOM], table: &[u8], fvar: Fvar) -> usize
    ensures { (result ≡ length (table_text table.now (header fvar))) × (out.new ≡ over (table_text table.now (header fvar)) out.old) }
{
    let mut at = append(
        out,
        0,
        &listing::counts_line(fvar.axis_count, fvar.inst_count),
    );
    for index in 0..fvar.axis_count {
        at = append(out, at, &line_of(table, fvar, index));
    }
    at
}

// Puts the listing of an input at the start of a buffer and answers its length; what the buffer holds behind it stays.
pub fn list(input: &[u8], out: &mut [u8; ROOM]) -> usize
    ensures value { (result ≡ length (listing input.now)) × (out.new ≡ over (listing input.now) out.old) }
    ensures leads { Leads result out.new }
{
    if input.len() <= MOST {
        put_table(out, input, Fvar::new(input))
    } else {
        append(out, 0, &listing::too_long_line())
    }
}

// Puts an input's bytes at the start of a buffer, until it is full or the input ends, and answers how many they are. Each read is offered all the
// room that is left: `io::copy` offers 8,192 bytes, and of a longer message the system then drops the rest.
fn read_full<R: Read>(from: &mut R, buf: &mut [u8]) -> io::Result<usize>
    ensures bound { ReadsAtMost result buf.new }
    ensures bytes { IfOk result (λ n. Consumes (R.remaining from.old) (R.remaining from.new) (take n buf.new)) }
    ensures end { IfOk result (λ n. n < length buf.new → IsAtEnd (R.remaining from.new)) }
{
    let mut done: usize = 0;
    while done < buf.len() {
        let n = from.read(&mut buf[done..])?;
        if n == 0 {
            break;
        }
        done += n;
    }
    Ok(done)
}

// Reads an input, as far as it decides the listing, and writes the listing.
fn relay<R: Read, W: Write>(from: &mut R, to: &mut W) -> io::Result<()>
    ensures { OnOk result (IfSome (R.remaining from.old) (λ input. Appends (W.contents to.old) (W.contents to.new) (listing input))) }
{
    let mut input = [0u8; LOOK];
    let n = read_full(from, &mut input)?;
    let mut out = [0u8; ROOM];
    let end = list(&input[..n], &mut out);
    to.write_all(&out[..end])
}

// What every program over this library does: `relay` from standard input to standard output. Which bytes the system gives and takes no
// contract can say, so the programs are run.
pub fn run(rt: &HostRuntime) -> io::Result<()>
    ensures { IfOk result (λ done. done ≡ tt) }
{
    relay(&mut rt.reader(), &mut io::writer(rt))
}
