// What the scripts of bench/ time, as one program: the first word says which, and those behind it how.
//
//     journal WORDS     a journal over a real file
//     gate WORDS        threads at a gate
//     part WORDS        one part and one table
//     http WORDS        HTTP messages over a connection in memory
//     book WORDS        a book of forwarded calls
//     all               a small run of each
//
// The module of each has its words. A run prints how many steps, turns, payloads, requests or bytes there were. It has no
// contracts that another crate needs. Depends on tx_journal, disk_model, step_gate, part_model, part_core, place_table,
// actors_api, call_book, http_edge, actor_ports and actor_names.
#![tactic(auto)]

mod books;
mod gates;
mod journals;
mod messages;
mod parts;

use std::fs::{File, Files};
use std::rt::Env;
use std::sync::Wait;
use std::thread::Threads;
use std::time::Clock;
use std::{env, fs, io};

/// The file of the small run of a journal.
const PATH: &str = "bench_steps_journal";

/// The small runs, in their order.
const SMALL: [[&str; 4]; 6] = [
    ["journal", "append", PATH, "10"],
    ["journal", "open", PATH, "10"],
    ["gate", "gate", "2", "1000"],
    ["part", "limits", "65536", "256"],
    ["http", "serve", "1000", ""],
    ["book", "pairs", "1000", ""],
];

fn main(rt: HostRuntime) -> io::Result<()> {
    let mut words = env::args(&rt)?;
    let _name = words.next();
    let (subject, mode) = (words.next(), words.next());
    let (first, second) = (words.next(), words.next());
    let words = [text(&subject), text(&mode), text(&first), text(&second)];
    match words {
        ["all", ..] => print_small(&rt),
        words => print_run(&rt, words),
    }
}

/// A word; the empty text if it isn't there.
fn text(word: &Option<String>) -> &str {
    match word {
        Some(word) => word.as_str(),
        None => "",
    }
}

/// The small runs. Their file is removed.
fn print_small<R: AllocGlobal + Print + Files<File = File> + Threads + Wait + Clock + Sync>(
    rt: &R,
) -> io::Result<()> {
    for words in SMALL {
        print_run(rt, words)?;
    }
    fs::remove_file(rt, PATH)
}

/// One run, and what it did.
fn print_run<R: AllocGlobal + Print + Files<File = File> + Threads + Wait + Clock + Sync>(
    rt: &R,
    words: [&str; 4],
) -> io::Result<()> {
    match run(rt, words)? {
        Some(count) => println!(rt; "{count}"),
        None => println!(rt;
            "bench_steps journal|gate|part|http|book WORDS, or all; or the disk failed, or memory ran out"
        ),
    }
}

/// Does what the words say, and returns the count; `None` if they make no sense, the disk failed or memory ran out.
fn run<R: AllocGlobal + Files<File = File> + Threads + Wait + Clock + Sync>(
    rt: &R,
    words: [&str; 4],
) -> io::Result<Option<u64>> {
    let [subject, mode, first, second] = words;
    match subject {
        "journal" => journals::run(rt, rt.alloc(), mode, first, second),
        "gate" => Ok(gates::run(rt, rt.alloc(), mode, first, second)),
        "part" => Ok(parts::run(rt.alloc(), mode, first, second)),
        "http" => Ok(messages::run(rt.alloc(), mode, first)),
        "book" => Ok(books::run(rt.alloc(), mode, first)),
        _ => Ok(None),
    }
}
