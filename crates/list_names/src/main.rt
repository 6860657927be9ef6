// Writes each built-in name as the lookup finds it: the name and its characters in hexadecimal, one line each.
#![tactic(auto)]

use standard::names::{CharRef, longest_name};
use standard::records::Records;
use standard::table::builtin_names;
use std::io;
use std::io::Write;

// A name, and a space before each of its characters.
fn write_line<W: Write>(output: &mut W, word: &[u8], reference: CharRef) -> io::Result<()> {
    output.write_all(word)?;
    for c in reference
        .chars
        .iter()
        .take(usize::from(reference.num_chars))
    {
        write!(output, " {c:x}")?;
    }
    writeln!(output)
}

// The names of a table, each looked up in it.
fn write_names<W: Write>(output: &mut W, table: &[u8]) -> io::Result<()> {
    for record in Records::of(table) {
        let found = longest_name(table, record.word);
        let reference = found.map_or(CharRef::EMPTY, |found| found.reference);
        write_line(output, record.word, reference)?;
    }
    Ok(())
}

fn main(rt: HostRuntime) -> io::Result<()> {
    write_names(&mut io::writer(&rt), &builtin_names())
}
