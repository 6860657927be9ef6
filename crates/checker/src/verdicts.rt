// The verdict on the rows of a transcript, one after the other.
ghost use Rattle.std.specs.Prelude.{◌≡◌, ◌%◌, length};
ghost use Rattle.standard.specs.Names.{records};
ghost use Rattle.checker.specs.Transcript.{verdict_on, judge};
ghost use Rattle.checker.specs.Meeting.{verdict_of};

use crate::blocks::plain_rows;
use crate::lent::{Places, Source, Transcript, row_at};
use crate::numbers::Numbers;
use crate::rows::{Reason, judge_row};

// A reason, and the row that it is about.
#[derive(Clone, Copy)]
pub(crate) struct Wrong {
    pub reason: Reason,
    pub row: u32,
}

// The verdict on a transcript.
pub(crate) fn judge<N: Numbers>(source: &Source, transcript: &Transcript<N>) -> Result<(), Wrong>
    requires { length (N.list transcript.now.rows) % 3 ≡ 0 }
    ensures { verdict_of result ≡ verdict_on (records source.now.table.now) source.now.context source.now.covered.now
        (N.list transcript.now.rows) transcript.now.text.now (N.list transcript.now.errors) }
{
    let rows = transcript.rows.count() / 3;
    let mut row: usize = 0;
    let mut places = Places {
        source: 0,
        text: 0,
        errors: 0,
    };
    // A `loop` and no `for`: each turn goes on by as many rows as are plain, and by up to 32 more.
    'all: loop {
        let plain = plain_rows(source.covered, transcript, places, 3 * row);
        row += plain;
        places.source += plain;
        places.text += plain;
        if row == rows {
            break 'all;
        }
        // So many rows are judged singly before the next look for blocks, so that no row is looked at in two blocks.
        let until = rows.min(row + 32);
        // A `while` and no `for`: the row is counted on from here to the next block.
        'singly: while row < until {
            match judge_row(source, transcript, places, row_at(transcript.rows, 3 * row)) {
                Ok(end) => places = end,
                Err(reason) => {
                    return Err(Wrong {
                        reason,
                        row: row as u32,
                    });
                }
            }
            row += 1;
        }
    }
    let all = Places {
        source: source.covered.len(),
        text: transcript.text.len(),
        errors: transcript.errors.count(),
    };
    if places != all {
        return Err(Wrong {
            reason: Reason::Remains,
            row: row as u32,
        });
    }
    Ok(())
}
