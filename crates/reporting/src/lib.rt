// What the bench program writes, as a function of what it reads.
#![tactic(auto)]

ghost use Rattle.std.specs.Prelude.{[], ◌≤◌, length};
ghost use Rattle.standard.specs.Utf8.{bytes};
ghost use Rattle.reporting.specs.Report.{line, source_report, source_errors, for_source, Reports};
ghost use Rattle.reporting.specs.Lines.{Roomy, Fills};

mod lines;

use lines::{put_read, put_refused};
use standard::Context;

// As many bytes of an input tell its report: one more than it may have.
pub const INPUT_ROOM: usize = 4099;

// The room for a report, and for the numbers of errors.
pub const REPORT_ROOM: usize = 32784;

pub const NUMBERS_ROOM: usize = 8200;

// The answers that a source is read with, which are numbers as in document 01.
const DONE: u32 = 0;

const CONTEXT_END: u32 = 7;

// Writes the report of a source that is not too long.
fn write_source(context: Context, s: &[u8], out: &mut [u8], errors: &mut [u32]) -> usize
    requires short { length s.now ≤ 4096 }
    requires rooms { Roomy out.old errors.old }
    ensures { Fills (source_report context s.now) (source_errors context s.now)
        out.old errors.old result out.new errors.new }
{
    let decoded = decoder::decode_whole(context, s, out, errors);
    let text = decoded.text as usize;
    let count = 2 * decoded.errors as usize;
    match decoded.answer {
        DONE => put_read(out, text, &errors[..count], b"end ", s.len() as u32),
        CONTEXT_END => put_read(out, text, &errors[..count], b"left ", decoded.place),
        _ => put_refused(out, 0, decoded.answer, decoded.place),
    }
}

// Writes the report of a source that may be too long: so long that with its start it fills the room for an input.
fn report_source(context: Context, s: &[u8], out: &mut [u8], errors: &mut [u32]) -> usize
    requires { Roomy out.old errors.old }
    ensures { Fills (for_source (line (bytes "too long")) source_report context s.now)
        (for_source [] source_errors context s.now) out.old errors.old result out.new errors.new }
{
    if INPUT_ROOM - 2 <= s.len() {
        return rooms::copy(b"too long\n", out, 0);
    }
    write_source(context, s, out, errors)
}

// Writes the report of an input: all that the bench program writes. Into rooms that are too small it writes nothing, and answers 0.
pub fn report(input: &[u8], out: &mut [u8], errors: &mut [u32]) -> usize
    ensures { Reports input.now out.old errors.old result out.new errors.new }
{
    if out.len() < REPORT_ROOM || errors.len() < NUMBERS_ROOM {
        return 0;
    }
    if let Some(source) = input.strip_prefix(b"T\n") {
        return report_source(Context::Text, source, out, errors);
    }
    if let Some(source) = input.strip_prefix(b"A\n") {
        return report_source(Context::Attribute, source, out, errors);
    }
    rooms::copy(b"bad context\n", out, 0)
}
