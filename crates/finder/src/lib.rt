// The finder: the part of a text where a concept name first stands.
#![tactic(auto)]

ghost use Rattle.finder.specs.Contract.{NameFound};

use names::LINKS;
use sets::ConceptSet;
use source::read_text;

// The part of the text where the word with this number first stands as a concept name. Empty where the text is refused (1, 3 to 8),
// and where no word has the number.
pub fn find_name(text: &[u8], number: usize) -> &[u8]
    ensures { NameFound text.now result.now text.entry.ref_ptr result.ref_ptr number }
{
    let mut links = [0u16; LINKS];
    let mut rows = [0u64; 1];
    let read = read_text(text, &mut links, &mut rows);
    let Ok(_) = read.step else {
        return &text[0..0];
    };
    if ConceptSet::NUMBERS <= number {
        return &text[0..0];
    }
    let concepts = &read.names.concepts;
    let start = concepts.starts[number] as usize;
    let size = concepts.lengths[number] as usize;
    if size == 0 {
        return &text[0..0];
    }
    &text[start..start + size]
}
