// Records: a head, then bytes that say more of the call, and then the source's own bytes.
use crate::List;
use crate::lent::Rooms;
use crate::numbers::{number_at, short_at, split_within};
use crate::reports::replay_report;
use crate::rust::replay_rust;
use crate::sources::make_source;
use crate::stream::replay_stream;
use crate::whole::replay_whole;
use std::io;
use std::io::Write;

// The length of a head.
pub(crate) const HEAD: usize = 17;

// What is replayed, the rooms that its calls are lent, how many bytes follow the head, how many of them stand before the source's own, and how many
// the source has with those that fill it up.
#[derive(Clone, Copy)]
pub(crate) struct Head {
    kind: u8,
    text: usize,
    errors: usize,
    pub rest: usize,
    before: usize,
    size: usize,
}

impl Head {
    // Its bytes are the kind; the two rooms and how many bytes fill the source up, each as four; and how many bytes the source has of its own and how
    // many stand before these, each as two.
    pub(crate) fn read(s: &[u8; HEAD]) -> Head {
        let fill = number_at(s, 9) as usize;
        let own = usize::from(short_at(s, 13));
        let before = usize::from(short_at(s, 15));
        Head {
            kind: s[0],
            text: number_at(s, 1) as usize,
            errors: number_at(s, 5) as usize,
            rest: before + own,
            before,
            size: own + fill,
        }
    }
}

// A record with just the rooms that its head asks for, and what follows the head.
// Three rooms and no struct of them: parts of all three are lent at once, which the borrow checker does not cover for the fields of one.
pub(crate) fn replay_record<W: Write>(
    output: &mut W,
    list: List,
    head: Head,
    rest: &[u8],
    source: &mut [u8],
    text: &mut [u8],
    errors: &mut [u32],
) -> io::Result<()> {
    let size = head.size.min(source.len());
    let bytes = head.text.min(text.len());
    let numbers = head.errors.min(errors.len());
    let (before, own) = split_within(rest, head.before);
    make_source(&mut source[..size], own);
    let source = &source[..size];
    let mut rooms = Rooms {
        text: &mut text[..bytes],
        errors: &mut errors[..numbers],
    };
    match list {
        List::Whole => replay_whole(output, head.kind, source, before, &mut rooms),
        List::Stream => replay_stream(output, head.kind, source, before, &mut rooms),
        List::Bench => replay_report(output, source, &mut rooms),
        List::Sample => replay_rust(output, head.kind, source, &mut rooms),
    }
}
