// Reads texts from standard input, after their count, each after its length, both in two bytes, and prints what reading makes of each:
// lines, rows, numbers, roles, and sums over the lines' own rows and over the words that the finder gives; or the refusal's number
// and its place.
#![tactic(auto)]

ghost use Rattle.std.specs.Prelude.{◌<◌, ◌≤◌, IfOk};
ghost use Rattle.std.specs.Iterator.{IsFinite};
ghost use Rattle.semantics.specs.Limits.{number_limit};

use finder::find_name;
use names::{LINKS, ReaderState};
use sets::ConceptSet;
use source::{count_definitions, read_text};
use std::io;
use std::io::Read;

// Sums are taken as remainders by this prime.
const PRIME: u64 = 65_521;

// How many numbers the finder is asked for: all, and some past the last.
const ASKED: usize = ConceptSet::NUMBERS + 4;

// One more than the largest number of two bytes.
const TWO_BYTES: usize = 65_536;

// Reads until the buffer is full or the input ends. Where it ends, the rest of the buffer is kept. Stays a `while`: `read_exact` refuses an input that ends,
// and what reads to the end needs a heap.
fn read_full(input: &mut impl Read, buffer: &mut [u8]) -> io::Result<()> {
    let mut done = 0;
    while done < buffer.len() {
        let n = input.read(&mut buffer[done..])?;
        if n == 0 {
            break;
        }
        done += n;
    }
    Ok(())
}

// The next number of the input, in two bytes.
fn input_number(input: &mut impl Read) -> io::Result<usize>
    ensures { IfOk result (λ n. n < 65536) }
{
    let mut two = [0u8; 2];
    read_full(input, &mut two)?;
    Ok(u16::from_be_bytes(two) as usize)
}

// The sum over the numbers: with each it is taken as a remainder and goes on.
fn sum_over<I: Iterator<Item = u64>>(numbers: I) -> u64
    requires can { I.can_next numbers }
    requires ends { IsFinite (I.remaining numbers) }
{
    numbers.fold(0, |sum, number| sum % PRIME * 257 + number % PRIME)
}

fn sum_rows(rows: &[u64]) -> u64 {
    sum_over(rows.iter().copied())
}

fn sum_word(word: &[u8]) -> u64 {
    sum_over(word.iter().map(|&byte| u64::from(byte)))
}

// Over the words that the finder gives.
fn sum_names(text: &[u8]) -> u64 {
    sum_over((0..ASKED).map(|number| sum_word(find_name(text, number))))
}

fn print_read(
    rt: &impl Print,
    text: &[u8],
    rows: &[u64],
    names: ReaderState,
    lines: u16,
) -> io::Result<()>
    requires { names.concepts.used ≤ number_limit }
{
    let count = lines as usize + count_definitions(text, names);
    let numbers = names.concepts.used;
    let roles = names.roles.used;
    let rows_sum = sum_rows(rows) % PRIME;
    let names_sum = sum_names(text) % PRIME;
    println!(rt; "read {lines} {count} {numbers} {roles} {rows_sum} {names_sum}")
}

fn run(rt: &impl Print, text: &[u8]) -> io::Result<()> {
    let mut links = [0u16; LINKS];
    let mut rows = [0u64; ConceptSet::ROWS];
    let read = read_text(text, &mut links, &mut rows);
    match read.step {
        Ok((lines, _)) => print_read(rt, text, &rows, read.names, lines),
        Err(refused) => println!(rt; "{refused}"),
    }
}

fn run_next(rt: &impl Print, input: &mut impl Read) -> io::Result<()> {
    let size = input_number(input)?;
    let mut buffer = [0u8; TWO_BYTES];
    let text = &mut buffer[..size];
    read_full(input, text)?;
    run(rt, text)
}

fn main(rt: HostRuntime) -> io::Result<()> {
    let mut input = rt.reader();
    let count = input_number(&mut input)?;
    for _ in 0..count {
        run_next(&rt, &mut input)?;
    }
    Ok(())
}
