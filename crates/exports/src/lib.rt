// The functions for C: each answers 5 to wrong use, and else calls one function and reports what that answers.
#![tactic(auto)]

ghost use Rattle.std.specs.Prelude.{◌≡◌, ◌∷◌, [], length};
ghost use Rattle.std.proofs.lemmas.List.Edits.{sets};
ghost use Rattle.lists.specs.Bytes.{fours};
ghost use Rattle.exports.specs.Exports.{context_of, mode_of, asked, decodes, escapes, checks, Gives};

use escaper::Mode;
use standard::Context;

// A report is four numbers of four bytes.
const REPORT_LENGTH: usize = 16;

// The four numbers of a report, the first of which is the answer.
#[derive(Clone, Copy)]
struct Reported {
    answer: u32,
    text: u32,
    errors: u32,
    place: u32,
}

impl Reported {
    // Written into its room, and answered.
    fn put(self, room: &mut [u8]) -> u32
        requires { length room.old ≡ 16 }
        ensures answered { result ≡ self.answer }
        ensures written { room.new ≡ sets room.old 0 (fours (self.answer ∷ self.text ∷ self.errors ∷ self.place ∷ [])) }
    {
        rooms::put_numbers(&[self.answer, self.text, self.errors, self.place], room, 0);
        self.answer
    }
}

// Decodes a whole source into `text`, and its errors as bytes into `errors`. The report: answer, text bytes, errors, place.
pub fn plankskein_decode(
    context: u32,
    source: &[u8],
    text: &mut [u8],
    errors: &mut [u8],
    report: &mut [u8],
) -> u32
    ensures { Gives (asked report.old (context_of context)
        (decodes source.now text.old errors.old))
        text.old errors.old report.old result text.new errors.new report.new }
{
    if report.len() != REPORT_LENGTH {
        return 5;
    }
    let Ok(context) = Context::try_from(context) else {
        return 5;
    };
    let decoded = decoder::decode_bytes(context, source, text, errors);
    Reported {
        answer: decoded.answer,
        text: decoded.text,
        errors: decoded.errors,
        place: decoded.place,
    }
    .put(report)
}

// Escapes all of `input` into `out`. The report: answer, length of the result, 0, place.
pub fn plankskein_escape(mode: u32, input: &[u8], out: &mut [u8], report: &mut [u8]) -> u32
    ensures { Gives (asked report.old (mode_of mode) (escapes input.now out.old))
        out.old [] report.old result out.new [] report.new }
{
    if report.len() != REPORT_LENGTH {
        return 5;
    }
    let Ok(mode) = Mode::try_from(mode) else {
        return 5;
    };
    let escaped = escaper::escape(mode, input, out);
    Reported {
        answer: escaped.answer,
        text: escaped.text,
        errors: 0,
        place: escaped.place,
    }
    .put(report)
}

// Judges a transcript. The report: answer, verdict, row, place.
pub fn plankskein_check(
    context: u32,
    source: &[u8],
    rows: &[u8],
    text: &[u8],
    errors: &[u8],
    report: &mut [u8],
) -> u32
    ensures { Gives (asked report.old (context_of context)
        (checks source.now rows.now text.now errors.now))
        [] [] report.old result [] [] report.new }
{
    if report.len() != REPORT_LENGTH {
        return 5;
    }
    let Ok(context) = Context::try_from(context) else {
        return 5;
    };
    let checked = checker::check_bytes(context, source, rows, text, errors);
    Reported {
        answer: checked.answer,
        text: checked.verdict,
        errors: checked.row,
        place: checked.place,
    }
    .put(report)
}
