// The program: a table on standard input, and on standard output the preferred conflict and the preferred
// relaxation, a line each, or one line with the table's refusal (document 01, "The program prints"). Where the input
// cannot be read it prints nothing, and says so on standard error.
#![tactic(auto)]

ghost use Rattle.std.specs.Prelude.{◌≤◌, length};

use explain::answers::Method;
use hainscope::calls::report;
use std::io::{Print, Read};
use std::{fmt, io};
use table::limits::{MOST_BYTES, MOST_REQUESTS};

const LONGEST_REPORT: usize = 12 + 2 * MOST_REQUESTS;

// A report as the program prints it, in one line: the name, status, count, k and the k request numbers. The count
// stands as a u32 in the report; it is at most 130, so that its upper half is 0 and not written.
#[derive(Clone, Copy)]
struct Line<'a> {
    name: &'a str,
    report: &'a [u8; LONGEST_REPORT],
}

impl fmt::Display for Line<'_> {
    fn fmt<W: fmt::Write>(&self, f: &mut fmt::Formatter<W>) -> fmt::Result {
        let report = self.report;
        let (words, _) = report.as_chunks::<2>();
        let status = u16::from_le_bytes(words[2]);
        let count = u16::from_le_bytes(words[3]);
        let k = u16::from_le_bytes(words[5]);
        write!(f, "{} {status} {count} {k}", self.name)?;
        for number in words[6..].iter().take(usize::from(k)) {
            write!(f, " {}", u16::from_le_bytes(*number))?;
        }
        Ok(())
    }
}

// Prints what is to be said of a table.
fn explain(rt: &impl Print, table: &[u8]) -> io::Result<()> {
    for (name, method) in [
        ("conflict", Method::ConflictByHalving),
        ("relax", Method::RelaxationByHalving),
    ] {
        let mut bytes = [0u8; LONGEST_REPORT];
        if let Err(refused) = report(method, table, &mut bytes, 0) {
            return rt.println(refused);
        }
        rt.println(Line {
            name,
            report: &bytes,
        })?;
    }
    Ok(())
}

// Reads until the bytes are full or no more come, and returns how many came.
// Kept: `read_to_end` needs a list on the heap, and `read_exact` refuses an input that is shorter.
fn read_full<R: Read>(reader: &mut R, bytes: &mut [u8]) -> usize
    ensures { result ≤ length bytes.old }
{
    let mut came = 0;
    while came < bytes.len() {
        match reader.read(&mut bytes[came..]) {
            Ok(0) | Err(_) => return came,
            Ok(more) => came += more,
        }
    }
    came
}

// Whether the input has ended, and did not fail: a further read gives nothing.
fn has_ended<R: Read>(reader: &mut R) -> bool {
    matches!(reader.read(&mut [0u8; 1]), Ok(0))
}

// A table of more bytes than any may have is refused as one byte too long; an input that cannot be read is no
// table, and gets no answer.
fn main(rt: HostRuntime) -> io::Result<()> {
    let mut input = [0u8; MOST_BYTES + 1];
    let mut reader = rt.reader();
    let came = read_full(&mut reader, &mut input);
    if MOST_BYTES < came || has_ended(&mut reader) {
        explain(&rt, &input[..came])
    } else {
        rt.stderr()
            .write_all(b"hainscope: the input cannot be read\n")
    }
}
