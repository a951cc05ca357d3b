// The sheets of a text: how many there are, and the first that can't be marked.
ghost use Rattle.std.specs.Prelude.{◌≡◌, length, MatchOption};
ghost use Rattle.std.specs.List.{list_all};
ghost use Rattle.sheets.specs.Sheets.{sheets_of};
ghost use Rattle.sheets.specs.Steps.{is_answer, opens_filled, AllFilled, LowestWrong};

// How many sheets there are. A byte begins one where none goes on. Stays a loop: a chain would count the line feeds, and ask for the text's end apart.
pub fn count_sheets(text: &[u8]) -> usize
    ensures { result ≡ length (sheets_of text.now) }
{
    let mut count = 0;
    let mut inside = false;
    for &b in text {
        if !inside {
            count += 1;
        }
        inside = b != b'\n';
    }
    count
}

// Whether the byte says yes or no.
fn is_answer(b: u8) -> bool
    ensures { result ≡ is_answer b }
{
    matches!(b, b'y' | b'n')
}

// Whether all bytes do.
fn are_answers(bytes: &[u8]) -> bool
    ensures { result ≡ list_all is_answer bytes.now }
{
    bytes.iter().all(|&b| is_answer(b))
}

// Whether the text begins with y or n for each question, and a line feed.
fn opens_filled(text: &[u8], questions: usize) -> bool
    ensures { result ≡ opens_filled questions text.now }
{
    questions < text.len() && are_answers(&text[..questions]) && text[questions] == b'\n'
}

// The first of the sheets that is not filled.
pub fn lowest_wrong(text: &[u8], questions: usize, count: usize) -> Option<usize>
    requires { count ≡ length (sheets_of text.now) }
    ensures { MatchOption result (AllFilled questions (sheets_of text.now)) (LowestWrong questions (sheets_of text.now)) }
{
    let mut rest = text;
    for i in 0..count {
        if !opens_filled(rest, questions) {
            return Some(i);
        }
        rest = &rest[questions + 1..];
    }
    None
}
