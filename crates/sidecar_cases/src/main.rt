// A sidecar over connections in memory, as a table: each line of the input is a case, and the line printed for it is its
// answer. A line begins with the name of its case, which is printed again. Bytes other than printable ones are written
// `\r`, `\n` and `\xHH`, a backslash too, and the signs `;` and `|` inside of bytes.
//
//     NAME session CALLER|APP;APP|STORE;..   how a session over a caller's bytes ends and what it writes, then what each link
//                                            to the application and to the store was sent; APP and STORE are what one answers.
//                                            There may be a second caller behind `;`, and behind a third `|` what another
//                                            sidecar answers, which then is a host too. With `!N ` before the bytes the Nth
//                                            call of that connection fails, reads and writes counted together from 1; with
//                                            `+N ` they have N bytes `a` behind them
//     NAME peers CALLER|APP;APP|STORE;..     the same of sessions on the port for other sidecars
//     NAME turns CALLER|APP;APP|STORE;..     the same, and after the sessions a tick and a turn with the reminders
//     NAME idle CALLER|APP;APP|STORE;..      the same, and after the sessions a tick two hours later
//     NAME turn TYPE/ID                      how a turn of an actor begins, under which chain, and how it ends
//     NAME cuts BYTES                        at how many cuts of the bytes the session ends without a response, of how many
//     NAME beat BYTES                        how a turn of a new sidecar with the placement ends that answers so, and what it sent
//     NAME leave BYTES                       the same of a turn in which it leaves, and how the turn with the placement after it ends
//
// The sidecar is `n1`, of boot 1, with one part. Its application hosts `order`, with reentrancy. There are at most six links
// to each. It has no contracts that another crate needs. Depends on sidecar_start, sidecar_requests, placement_beats,
// clock_turns, reminder_turns, sidecar_node, exchanges, part_model, part_core, actors_api, frame_wire, actor_names, actor_ports and
// case_texts.
#![tactic(auto)]

mod beats;
mod case;
mod links;
mod node;
mod sessions;
mod turn;

use std::io;

fn main(rt: HostRuntime) -> io::Result<()> {
    for line in rt.lines(rt.alloc()) {
        match case::answer(&rt, rt.alloc(), line?.as_str()) {
            Some(answer) => println!(rt; "{answer}")?,
            None => println!(rt; "no case, or out of memory")?,
        }
    }
    Ok(())
}
