// The limits of the engine as one value: a constant that is not the specification's has no proof.
ghost use Rattle.std.specs.Prelude.{◌≡◌};
ghost use Rattle.semantics.specs.Limits.{text_limit, word_limit, depth_limit, number_limit, number_least, role_limit, row_limit, table_limit, answer_limit, set_words, sheet_limit, score_size};

use crate::ConceptSet;

// A field for each limit; `ConceptSet` says what each counts.
#[derive(Clone, Copy)]
pub struct Limits {
    pub text: usize,
    pub word: usize,
    pub depth: usize,
    pub numbers: usize,
    pub least: usize,
    pub roles: usize,
    pub rows: usize,
    pub table: usize,
    pub answer: usize,
    pub words: usize,
    pub sheets: usize,
    pub score: usize,
}

impl Limits {
    pub fn all() -> Limits
        ensures { result ≡ record {
          text = text_limit;
          word = word_limit;
          depth = depth_limit;
          numbers = number_limit;
          least = number_least;
          roles = role_limit;
          rows = row_limit;
          table = table_limit;
          answer = answer_limit;
          words = set_words;
          sheets = sheet_limit;
          score = score_size;
        } }
    {
        Limits {
            text: ConceptSet::TEXT,
            word: ConceptSet::WORD_BYTES,
            depth: ConceptSet::DEPTH,
            numbers: ConceptSet::NUMBERS,
            least: ConceptSet::LEAST,
            roles: ConceptSet::ROLES,
            rows: ConceptSet::ROWS,
            table: ConceptSet::TABLE,
            answer: ConceptSet::ANSWER,
            words: ConceptSet::SET_WORDS,
            sheets: ConceptSet::SHEETS,
            score: ConceptSet::SCORE,
        }
    }
}
