// Texts of names, schedules, tables of hosts and frames as a table: each line of the input is a case, and the line printed
// for it is its answer.
//
//     fault FORM TEXT                            why the text isn't a name of this form, or `none`
//     read FORM TEXT                             a copy of what is read
//     kind TEXT                                  the bytes before the slash of a key without a space
//     chain TEXT                                 a copy of a chain's identifier, and whether it equals its source
//     local SPACE TEXT                           the key that is read in this space, and whether it equals SPACE:TEXT
//     in SPACE KEY MEMBER                        whether the key, the member and both are in this space
//     default KEY MEMBER                         the same of the space of texts without one
//     order FORM ONE OTHER                       how the one compares with the other, and whether they are equal
//     moment TEXT                                the nanoseconds since 1970 of a moment, or why it is none
//     due TEXT                                   the first firing of a due text read at 0, in nanoseconds, or why not
//     period TEXT                                months and nanoseconds of a period and the firings allowed, or why not
//     first NOW|DUE|PERIOD|TTL                   the first firing of a schedule, or why it is none
//     advance NOW|PERIOD|TTL|MOMENT|AT           what follows a firing of MOMENT at AT in a schedule that is read at NOW
//     print NANOS                                the printed moment
//     decimal MOST TEXT                          the number of at most MOST that the text spells, or `none`
//     place PARTS ID                             where the actor's id is on the ring, in hexadecimal digits, and in which of
//                                                so many parts
//     owner KEY VERSION HOST ..                  the version of the table of these hosts, and the node that owns the actor in
//                                                it, or `none`
//     copied KEY VERSION HOST ..                 the same of a copy whose table is dropped, and the nodes of the copy's hosts
//     moved KEY MORE HOST ..                     whether the actor's owner changes if the host MORE is added; HOST .. may be
//                                                empty
//     again BYTES                                whether the frames are written as they came, or why they are refused, told
//                                                twice
//     cuts BYTES                                 at how many cuts of the stream into two pieces its frames are written as
//                                                they came, of how many
//     frame BYTES                                the first frame, as it is shown for debugging
//     command BYTES                              whether the bytes are a command without its length, or why not
//
// A FORM is space, node, app, type, id, chain, record, key, member or address. A key is told as `SPACE TYPE ID`, a member
// as `SPACE NODE BOOT`, an address as its two numbers. NOW, MOMENT and AT are texts of moments. A host is written
// `MEMBER|TYPE,TYPE ..`. Bytes of frames are written in hexadecimal digits, two for each. It has no contracts of its own.
// Depends on frame_wire, place_table, schedule_text, actor_names, lists_and_limits and case_texts.
#![tactic(auto)]

mod case;
mod frames;
mod names;
mod schedules;
mod tables;

use std::io;

fn main(rt: HostRuntime) -> io::Result<()> {
    for line in rt.lines(rt.alloc()) {
        match case::answer(rt.alloc(), line?.as_str()) {
            Some(answer) => println!(rt; "{answer}")?,
            None => println!(rt; "no case, or out of memory")?,
        }
    }
    Ok(())
}
