// Inputs of the bench program: a line with the length of the report, and the report. tests/replay_bench.py has their form.
use crate::lent::Rooms;
use crate::numbers::split_within;
use reporting::report;
use std::io;
use std::io::Write;

// An input's report, in the rooms that its record asks for. The kind has no use here: there is one kind of input.
pub(crate) fn replay_report<W: Write>(
    output: &mut W,
    input: &[u8],
    rooms: &mut Rooms,
) -> io::Result<()> {
    let written = report(input, &mut *rooms.text, &mut *rooms.errors);
    let (text, _) = split_within(&*rooms.text, written);
    writeln!(output, "{}", text.len())?;
    output.write_all(text)
}
