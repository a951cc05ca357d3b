// What a sitting is lent: whether it is long enough, and a copy of it.
ghost use Rattle.std.specs.Prelude.{◌≡◌, length};
ghost use Rattle.buffers.specs.Held.{held, SameLent};
ghost use Rattle.evaluator.specs.Contract.{LongEnough};
ghost use Rattle.marking.specs.Steps.{is_short, AllCopied};

use buffers::LentBuffers;
use copying::copy_first;
use sets::ConceptSet;

// Whether a buffer is shorter than any compiled text may need.
pub fn is_short(deck: &[u64], lent: &LentBuffers) -> bool
    ensures { result ≡ is_short (length deck.now) (length lent.now.table.now) (length lent.now.results.now) (length lent.now.order.now) }
{
    deck.len() < ConceptSet::ROWS || lent.is_short()
}

// As much of each buffer as a sitting may write.
pub fn copy_buffers(rows: &[u64], source: &LentBuffers, deck: &mut [u64], target: &mut LentBuffers)
    requires { LongEnough rows.now (held source.now) × LongEnough deck.old (held target.old) }
    ensures same { SameLent target.old target.new }
    ensures copied { AllCopied rows.now (held source.now) deck.old deck.new (held target.old) (held target.new) }
{
    copy_first(rows, deck, ConceptSet::ROWS);
    copy_first(source.table, target.table, ConceptSet::TABLE);
    copy_first(source.results, target.results, ConceptSet::ROWS);
    copy_first(source.order, target.order, ConceptSet::ROWS);
}
