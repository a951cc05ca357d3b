// The functions that Rust calls.
// They stay five, one for each operation, since C calls each by its name; what they share is `hand_over`. Their test of the last slice stays an `if` before the
// operation: one function that took the operation as a closure would be lent the slice and the closure, and promise what the closure does: no plainer than three lines.
#![tactic(auto)]

ghost use Rattle.std.specs.Prelude.{◌≡◌};
ghost use Rattle.buffers.specs.Buffers.{buffers};
ghost use Rattle.engine.specs.Calls.{CompileCall, ClassifyCall, EvaluateCall, MarkCall, ConvertCall};

use buffers::LentBuffers;
use closure::classify;
use compiler::compile;
use converter::convert;
use evaluator::evaluate;
use marking::mark;
use refusal::Refusal;
use reports::hand_over;
use sets::ConceptSet;

// The number of a last slice that is too short, which comes before all else.
fn too_short() -> u64
    ensures { result ≡ 2 }
{
    u64::from(Refusal::BufferTooShort)
}

// Compiles a text: returns 0, with lines, rows, numbers and roles at the start of `answer`, or the refusal's number, with its place there.
#[unsafe(no_mangle)]
pub extern "C" fn shelf_compile(text: &[u8], deck: &mut [u64], answer: &mut [u64]) -> u64
    ensures { CompileCall text.now deck.old deck.new answer.old answer.new result }
{
    if answer.len() < ConceptSet::ANSWER {
        return too_short();
    }
    hand_over(answer, compile(text, deck))
}

// Settles a deck: returns 0, with levels, passes and yes at the start of `answer`, or the refusal's number, with its place there.
#[unsafe(no_mangle)]
pub extern "C" fn shelf_classify(
    rows: &[u64],
    numbers: usize,
    roles: usize,
    table: &mut [u64],
    results: &mut [u16],
    order: &mut [u16],
    answer: &mut [u64],
) -> u64
    ensures { ClassifyCall rows.now numbers roles
        (buffers table.old results.old order.old)
        (buffers table.new results.new order.new)
        answer.old answer.new result }
{
    if answer.len() < ConceptSet::ANSWER {
        return too_short();
    }
    let mut lent = LentBuffers {
        table,
        results,
        order,
    };
    hand_over(answer, classify(rows, numbers, roles, &mut lent))
}

// Compiles a text and settles it: returns 0, with compiling's counts and then settling's at the start of `answer`, or the refusal's
// number, with its place there.
#[unsafe(no_mangle)]
pub extern "C" fn shelf_evaluate(
    text: &[u8],
    deck: &mut [u64],
    table: &mut [u64],
    results: &mut [u16],
    order: &mut [u16],
    answer: &mut [u64],
) -> u64
    ensures { EvaluateCall text.now deck.old deck.new
        (buffers table.old results.old order.old)
        (buffers table.new results.new order.new)
        answer.old answer.new result }
{
    if answer.len() < ConceptSet::ANSWER {
        return too_short();
    }
    let mut lent = LentBuffers {
        table,
        results,
        order,
    };
    hand_over(answer, evaluate(text, deck, &mut lent))
}

// Marks a class of score sheets on one text: returns 0, with the totals of right and of wrong at the start of `answer`, or the refusal's
// number, with its place there.
#[unsafe(no_mangle)]
pub extern "C" fn shelf_mark(
    text: &[u8],
    sheets: &[u8],
    deck: &mut [u64],
    table: &mut [u64],
    results: &mut [u16],
    order: &mut [u16],
    report: &mut [u16],
    answer: &mut [u64],
) -> u64
    ensures { MarkCall text.now sheets.now deck.old deck.new
        (buffers table.old results.old order.old)
        (buffers table.new results.new order.new)
        report.old report.new
        answer.old answer.new result }
{
    if answer.len() < ConceptSet::ANSWER {
        return too_short();
    }
    let mut lent = LentBuffers {
        table,
        results,
        order,
    };
    hand_over(answer, mark(text, sheets, deck, &mut lent, report))
}

// Converts a run of axioms to a book: returns 0, with the book's length at the start of `answer`, or the refusal's number, with its place there. It takes 56 KB
// of stack, whatever the input.
#[unsafe(no_mangle)]
pub extern "C" fn shelf_convert(input: &[u8], text: &mut [u8], answer: &mut [u64]) -> u64
    ensures { ConvertCall input.now text.old text.new answer.old answer.new result }
{
    if answer.len() < ConceptSet::ANSWER {
        return too_short();
    }
    hand_over(answer, convert(input, text))
}
