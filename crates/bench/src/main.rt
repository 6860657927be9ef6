// The bench program: reads standard input, and writes what `reporting` makes of it.
#![tactic(auto)]

use input::read_full;
use reporting::{INPUT_ROOM, NUMBERS_ROOM, REPORT_ROOM};
use std::io;
use std::io::Write;

fn main(rt: HostRuntime) -> io::Result<()> {
    let mut input = [0u8; INPUT_ROOM];
    let mut text = [0u8; REPORT_ROOM];
    let mut errors = [0u32; NUMBERS_ROOM];
    let length = read_full(&mut rt.stdin(), &mut input)?;
    let written = reporting::report(&input[..length], &mut text, &mut errors);
    io::writer(&rt).write_all(&text[..written])
}
