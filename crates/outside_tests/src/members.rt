// The member of the tests.
use actor_names::{read_actor_type, read_address, read_app_id, read_member};
use place_table::{ActorTypes, HostInfo};
use std::alloc::Global;
use std::test::Fail;

/// The host of `a/1`, which serves `counter`.
pub(crate) fn host(alloc: Global) -> Result<HostInfo, Fail> {
    let mut kinds = Vec::new(alloc);
    kinds.push(read_actor_type(alloc, b"counter")?)?;
    Ok(HostInfo {
        member: read_member(b"a/1")?,
        app: read_app_id(alloc, b"shop")?,
        address: read_address(b"127.0.0.1:3500")?,
        kinds: ActorTypes::from_vec(kinds),
    })
}
