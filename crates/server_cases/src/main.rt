// A placement, a store and journals over disks in memory: each line of the input is a case, and the line printed for it is
// its answer. A line begins with the name of its case, which is printed again.
//
//     NAME placement HOW CALLS FILE STEP;STEP;..        what each step tells of a placement of this file
//     NAME store HOW CALLS FILE/FILE STEP;STEP;..       the same of a store of two files
//     NAME journal HOW CALLS FILE STEP;STEP;..          the same of a journal of a file, or of FILE/FILE
//     NAME disk CALL,CALL,.. FILE STEP;STEP;..          the same of a disk whose calls of these numbers fail
//     NAME cuts FIRST BYTES ANSWERS                     behind a session of FIRST with a new store, at how many cuts of the
//                                                       other commands a session answers the whole ones before the cut so,
//                                                       and ends as it should there
//     NAME mirror CALL/CALL/CALL ANSWERS FILE/FILE STEP;STEP;..
//                                                       what each step tells of a disk with a standby, the calls that it
//                                                       sent, how the standby's session ends, and whether both disks read
//                                                       the same
//     NAME copied CALL/CALL/CALL ANSWERS FILE/FILE BYTES;BYTES;.. BYTES
//                                                       the same, without the calls, of a placement over such a disk, and
//                                                       of sessions of these frames; then what a placement answers to the
//                                                       last frames that is opened on three images which a crash may
//                                                       leave of the standby's disk, and on that disk as it is
//     NAME standby CALL/CALL FILE BYTES                 how a standby's session of these bytes ends, what it answers, and
//                                                       what its disk reads as
//
// The calls of the last three are those that fail: of the disk, of the link to the standby, and of the standby's disk; of the
// standby's disk and of its connection. ANSWERS is `standby` if a standby answers, else the bytes that come in their place.
//
// HOW is `make` if a file that isn't made is to be made, else `open`. CALLS is the number of the call at which the first
// disk fails, `/CALL` if the second does, and 0 if none does; with `CALL-CALL` the case is tried with each of these calls,
// and equal answers, one after another, are told once behind the first and the last number.
//
// BYTES and FILE are hexadecimal digits, two for each byte; of pieces that are joined by dots, `HH*COUNT` is a byte so
// many times. Between commas, `FIRST..LAST:DIGITS` is these digits for each number, in which `N` stands for the number in
// eight bytes, `D` for its five decimal digits as text, and `P` for those of the number before. `-` is no bytes. Of more
// than four equal frames in an answer, one after another, one is printed, as `(FRAME)*COUNT`.
//
// The steps of all but a disk; behind a refusal, only the first five of them:
//
//     again              it is closed, and opened again
//     image CHOICE       it is opened over images that a crash may leave of its disks now; the choice is a number
//     images CHOICE,.. STEP   what another step tells over the images of each choice; equal answers are told once
//     first, second      the bytes of a file
//
// Of a placement, which is opened at the moment 1,000, and of a store:
//
//     at MS BYTES CALL   how a session of these bytes ends at this moment, which is below 2^32, and what it writes; the
//                        call at which its connection fails may be left out
//     http TEXT          how a session of a placement over HTTP ends, and what it writes: `\r` and `\n` are escapes in the
//                        text, and a line that is written ends with `|`
//     tick MS, look      what a placement answers to a Tick and to a Look: of each room the space, the last version and the
//                        number of members
//     compact LEAST MS   how a compaction of a store ends
//
// Of a journal: `append BYTES`, `start`, `add BYTES` and `finish` of a compaction, `rows`, and `state`, its format,
// generation and length. Of a disk: `len`, `read AT MOST`, `write AT BYTES`, `cut LEN`, `sync`, `bytes`, `image CHOICE`.
//
// It has no contracts that another crate needs. Depends on standby_session, standby_core, placement_sessions, placement_node, store_server, fence_rows,
// store_core, step_gate, tx_journal, disk_model, frame_wire, round_core, actor_ports and case_texts.
#![tactic(auto)]

mod case;
mod cuts;
mod disks;
mod frames;
mod journals;
mod mirrors;
mod numbers;
mod placements;
mod runs;
mod sessions;
mod standbys;
mod stores;
mod subject;

use std::io;

fn main(rt: HostRuntime) -> io::Result<()> {
    for line in rt.lines(rt.alloc()) {
        match case::answer(&rt, rt.alloc(), line?.as_str()) {
            Some(answer) => println!(rt; "{answer}")?,
            None => println!(rt; "no case, or out of memory")?,
        }
    }
    Ok(())
}
