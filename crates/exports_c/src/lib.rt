// The archive for C: each function hands on to that of its name in `exports`, under the same clauses.
#![tactic(auto)]

ghost use Rattle.std.specs.Prelude.{[]};
ghost use Rattle.exports.specs.Exports.{context_of, mode_of, asked, decodes, escapes, checks, Gives};

// Decodes a whole source into `text`, and its errors as bytes into `errors`. The report: answer, text bytes, errors, place.
#[unsafe(no_mangle)]
pub extern "C" fn plankskein_decode(
    context: u32,
    source: &[u8],
    text: &mut [u8],
    errors: &mut [u8],
    report: &mut [u8],
) -> u32
    ensures { Gives (asked report.old (context_of context)
        (decodes source.now text.old errors.old))
        text.old errors.old report.old result text.new errors.new report.new }
{
    exports::plankskein_decode(context, source, text, errors, report)
}

// Escapes all of `input` into `out`. The report: answer, length of the result, 0, place.
#[unsafe(no_mangle)]
pub extern "C" fn plankskein_escape(
    mode: u32,
    input: &[u8],
    out: &mut [u8],
    report: &mut [u8],
) -> u32
    ensures { Gives (asked report.old (mode_of mode) (escapes input.now out.old))
        out.old [] report.old result out.new [] report.new }
{
    exports::plankskein_escape(mode, input, out, report)
}

// Judges a transcript. The report: answer, verdict, row, place.
#[unsafe(no_mangle)]
pub extern "C" fn plankskein_check(
    context: u32,
    source: &[u8],
    rows: &[u8],
    text: &[u8],
    errors: &[u8],
    report: &mut [u8],
) -> u32
    ensures { Gives (asked report.old (context_of context)
        (checks source.now rows.now text.now errors.now))
        [] [] report.old result [] [] report.new }
{
    exports::plankskein_check(context, source, rows, text, errors, report)
}
