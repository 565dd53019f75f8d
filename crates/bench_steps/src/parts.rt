// One part and one table.
//
//     key ACTORS ROUNDS       ROUNDS keys are made, of ACTORS actors in turn
//     ask ACTORS ROUNDS       the same, and each actor's call begins and ends, among ACTORS active actors
//     hold ACTORS ROUNDS      the same, and each actor is held and released
//     poll ACTORS ROUNDS      ROUNDS looks at one open call, among ACTORS active actors
//     tick ACTORS ROUNDS      ROUNDS ticks after a new table
//     unlock ACTORS ROUNDS    ROUNDS rounds of one table, over ACTORS active actors
//     close ACTORS ROUNDS     ROUNDS actors at most are deactivated, of ACTORS active ones
//     hash HOSTS ROUNDS       ROUNDS ids are hashed; HOSTS is ignored
//     owner HOSTS ROUNDS      ROUNDS owners are looked up in a table of HOSTS hosts of one type
//     owners HOSTS ROUNDS     the same in a table of HOSTS hosts of 32 types
//     sort HOSTS ROUNDS       the points of HOSTS hosts are hashed and sorted, ROUNDS times
//     build HOSTS ROUNDS      a table of HOSTS hosts of one type is built, ROUNDS times
//     limits ACTORS HOSTS     a call of each of ACTORS actors begins at an Unlock, ends at a Tick, and again at a
//                             StopPart; an owner is looked up in a table of HOSTS hosts of 32 types
//
// The count is how many of these there were, of `limits` how many actors.
mod actors;
mod calls;
mod limits;
mod rounds;
mod tables;

pub(crate) use actors::open_part;
use std::alloc::Global;

/// Does what `mode` says and answers the count; `None` if memory ran out, or if the words make no sense.
pub fn run(alloc: Global, mode: &str, many: &str, rounds: &str) -> Option<u64> {
    let many = many.parse::<u32>().ok()?;
    let rounds = rounds.parse::<u32>().ok()?;
    let count = trial(alloc, mode, many, rounds)?;
    Some(count as u64)
}

fn trial(alloc: Global, mode: &str, many: u32, rounds: u32) -> Option<u32> {
    match mode {
        "key" => calls::make_keys(alloc, many, rounds),
        "ask" => calls::ask_all(alloc, many, rounds),
        "hold" => calls::hold_all(alloc, many, rounds),
        "poll" => calls::poll_one(alloc, many, rounds),
        "tick" => rounds::tick_all(alloc, many, rounds),
        "unlock" => rounds::unlock_all(alloc, many, rounds),
        "close" => rounds::close_all(alloc, many, rounds),
        "hash" => tables::hash_ids(alloc, rounds),
        "owner" => tables::find_owners(alloc, many, 1, rounds),
        "owners" => tables::find_owners(alloc, many, 32, rounds),
        "sort" => tables::sort_points(alloc, many, rounds),
        "build" => tables::build_tables(alloc, many, rounds),
        "limits" => limits::run_all(alloc, many, rounds),
        _ => None,
    }
}
