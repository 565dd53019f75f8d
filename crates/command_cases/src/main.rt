// Cases of the whole command line: what `actors_top::run` answers to words and scripts, a whole sidecar between fakes in
// threads, and the two servers over TCP on 127.0.0.1.
//
// The input begins with cases of one line each, and behind them come the scripts, blocks that begin with a line `== NAME`.
// The README says how either is written, and what is printed. It has no contracts of its own. Depends on actors_top,
// server_ports, disk_model, actor_ports and case_texts.
#![tactic(auto)]

mod line;
mod loopback;
mod outside;
mod scripts;
mod sidecar;
mod words;

use line::print_line;
use scripts::print_script;
use std::io;
use std::io::{BufWriter, Write};

fn main(rt: HostRuntime) -> io::Result<()> {
    let text = io::read_to_string(rt.alloc(), rt.reader())?;
    let text = text.as_str();
    let mut out = BufWriter::new(rt.alloc(), io::writer(&rt))?;
    let mut pieces = text.strip_suffix('\n').unwrap_or(text).split("\n== ");
    for line in pieces.next().unwrap_or("").split('\n') {
        print_line(rt, rt.alloc(), line, &mut out)?;
    }
    for script in pieces {
        print_script(rt, rt.alloc(), script, &mut out)?;
    }
    out.flush()
}
