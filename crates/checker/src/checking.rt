// The check of a transcript.
ghost use Rattle.std.specs.Prelude.{◌≡◌, ◌≤◌};
ghost use Rattle.standard.specs.NameList.{builtin};
ghost use Rattle.checker.specs.Transcript.{verdict, checked, checked_of, checked_bytes};
ghost use Rattle.checker.specs.Meeting.{stop_at};

use crate::lent::{Source, Transcript};
use crate::numbers::Numbers;
use crate::stops::{Fault, find_stop};
use crate::verdicts::judge;
use standard::Context;
use standard::table::builtin_table;

// The answer, by document 01's number; with 0 the verdict, 0 or a reason from 1 to 5 for a to e, and the row; with 1 and 2 the place.
#[derive(Clone, Copy, PartialEq, Eq, Debug)]
pub struct Checked {
    pub answer: u32,
    pub verdict: u32,
    pub row: u32,
    pub place: u32,
}

// An answer that has no verdict.
fn refused(answer: u32, place: u32) -> Checked
    ensures { result ≡ checked answer (verdict 0 0) place }
{
    Checked {
        answer,
        verdict: 0,
        row: 0,
        place,
    }
}

// The answer to a fault.
fn stopped(fault: Fault) -> Checked
    requires { (stop_at fault).place ≤ 65536 }
    ensures { result ≡ checked (stop_at fault).answer (verdict 0 0) (stop_at fault).place }
{
    match fault {
        Fault::IllFormed(place) => refused(1, place as u32),
        Fault::Nul(place) => refused(2, place as u32),
    }
}

// Judges a transcript, however its rows and errors are lent.
fn check_numbers<N: Numbers>(context: Context, source: &[u8], transcript: &Transcript<N>) -> Checked
    ensures { result ≡ checked_of builtin context source.now (N.list transcript.now.rows)
        transcript.now.text.now (N.list transcript.now.errors) }
{
    if 65536 < source.len() {
        return refused(3, 0);
    }
    if transcript.rows.count() % 3 != 0 {
        return refused(10, 0);
    }
    if transcript.errors.count() % 2 != 0 {
        return refused(10, 0);
    }
    let end = match find_stop(context, source) {
        Ok(end) => end,
        Err(fault) => return stopped(fault),
    };
    let covered = Source {
        table: builtin_table(),
        context,
        covered: &source[..end],
    };
    let (verdict, row) = match judge(&covered, transcript) {
        Ok(()) => (0, 0),
        Err(wrong) => (wrong.reason.number(), wrong.row),
    };
    Checked {
        answer: 0,
        verdict,
        row,
        place: 0,
    }
}

// Judges the rows of a transcript: their source bytes, text and errors.
pub fn check(context: Context, source: &[u8], rows: &[u32], text: &[u8], errors: &[u32]) -> Checked
    ensures { result ≡ checked_of builtin context source.now rows.now text.now errors.now }
{
    check_numbers(context, source, &Transcript { rows, text, errors })
}

// The same where rows and errors are bytes, four a number, the lowest first.
pub fn check_bytes(
    context: Context,
    source: &[u8],
    rows: &[u8],
    text: &[u8],
    errors: &[u8],
) -> Checked
    ensures { result ≡ checked_bytes builtin context source.now rows.now text.now errors.now }
{
    if 65536 < source.len() {
        return refused(3, 0);
    }
    if rows.len() % 4 != 0 {
        return refused(10, 0);
    }
    if errors.len() % 4 != 0 {
        return refused(10, 0);
    }
    check_numbers(context, source, &Transcript { rows, text, errors })
}
