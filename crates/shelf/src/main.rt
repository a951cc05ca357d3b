// Reads a book on standard input and prints a line for each of its lines, and the settled counts; or its refusal.
#![tactic(auto)]

use buffers::LentBuffers;
use evaluator::evaluate;
use normal::INFINITE;
use results::YES;
use rows::{RowKind, known_kind};
use sets::ConceptSet;
use std::io::Read;
use std::{fmt, io};
use workspace::Counts;

// The rank of a result: its lower 15 bits.
#[derive(Clone, Copy)]
struct Rank {
    word: u16,
}

impl fmt::Display for Rank {
    fn fmt<W: fmt::Write>(&self, f: &mut fmt::Formatter<W>) -> fmt::Result {
        let rank = self.word % YES;
        if rank == INFINITE {
            write!(f, "oo")
        } else {
            write!(f, "{rank}")
        }
    }
}

// The reply of a result: its highest bit.
#[derive(Clone, Copy)]
struct Reply {
    word: u16,
}

impl fmt::Display for Reply {
    fn fmt<W: fmt::Write>(&self, f: &mut fmt::Formatter<W>) -> fmt::Result {
        if YES <= self.word {
            write!(f, "yes")
        } else {
            write!(f, "no")
        }
    }
}

// What a line's letter, by its row's kind, asks to be printed.
fn print_line(rt: &impl Print, line: usize, row: u64, word: u16) -> io::Result<()> {
    let rank = Rank { word };
    let reply = Reply { word };
    match known_kind(row) {
        Some(RowKind::Defeasible) => println!(rt; "{line} U {rank}"),
        Some(RowKind::Query) => println!(rt; "{line} Q {reply} {rank}"),
        Some(RowKind::StrictQuery) => println!(rt; "{line} K {reply}"),
        _ => println!(rt; "{line} S"),
    }
}

fn print_lines(rt: &impl Print, rows: &[u64], results: &[u16], lines: usize) -> io::Result<()> {
    for (i, (&row, &word)) in rows.iter().zip(results).take(lines).enumerate() {
        print_line(rt, i + 1, row, word)?;
    }
    Ok(())
}

fn print_counts(rt: &impl Print, counts: Counts) -> io::Result<()> {
    println!(rt;
        "levels {} passes {} yes {}",
        counts.levels, counts.passes, counts.yes
    )
}

fn run(rt: &impl Print, text: &[u8]) -> io::Result<()> {
    let mut deck = [0u64; ConceptSet::ROWS];
    let mut table = [0u64; ConceptSet::TABLE];
    let mut results = [0u16; ConceptSet::ROWS];
    let mut order = [0u16; ConceptSet::ROWS];
    let mut lent = LentBuffers {
        table: &mut table,
        results: &mut results,
        order: &mut order,
    };
    match evaluate(text, &mut deck, &mut lent) {
        Err(refused) => println!(rt; "{refused}"),
        Ok(sitting) => {
            print_lines(rt, &deck, lent.results, sitting.sizes.lines)?;
            print_counts(rt, sitting.counts)
        }
    }
}

// One byte more than a text may have is read, so that a longer one is refused.
fn main(rt: HostRuntime) -> io::Result<()> {
    let mut text = Vec::new(rt.alloc());
    let mut input = rt.reader().take(ConceptSet::TEXT as u64 + 1);
    input.read_to_end(&mut text)?;
    run(&rt, &text)
}
