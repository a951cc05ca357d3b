// A sitting: `evaluate` compiles a text and settles the deck that it wrote.
#![tactic(auto)]

ghost use Rattle.buffers.specs.Held.{held, SameLent};
ghost use Rattle.evaluator.specs.Contract.{Evaluated};

use buffers::LentBuffers;
use closure::classify;
use compiler::{Sizes, compile};
use refusal::{Refusal, Refused};
use sets::ConceptSet;
use workspace::Counts;

// What is counted of a text that was compiled and settled.
#[derive(Clone, Copy)]
pub struct EvaluationCounts {
    pub sizes: Sizes,
    pub counts: Counts,
}

// Compiles the text and settles it. The deck and the buffers are lent.
pub fn evaluate(
    text: &[u8],
    deck: &mut [u64],
    lent: &mut LentBuffers,
) -> Result<EvaluationCounts, Refused>
    ensures same { SameLent lent.old lent.new }
    ensures evaluated { Evaluated text.now deck.old deck.new (held lent.old) (held lent.new) result }
{
    if ConceptSet::TEXT < text.len() {
        return Err(Refusal::TextTooLong.at(0));
    }
    if lent.is_short() {
        return Err(Refusal::BufferTooShort.at(0));
    }
    let sizes = compile(text, deck)?;
    let rows = &deck[..sizes.rows];
    // Settling refuses no deck that compiling wrote.
    let counts = classify(rows, sizes.numbers, sizes.roles, lent)?;
    Ok(EvaluationCounts { sizes, counts })
}
