// Hosts of a space that was named before.
ghost use Rattle.std.specs.Prelude.{◌≡◌, ◌++◌, ◌∷◌, OnOk};
ghost use Rattle.wire_fields.specs.Fields.{maybe, maybe_tag, maybe_fields, MaybeFits};
ghost use Rattle.wire_fields.specs.Gives.{Gives};
ghost use Rattle.placement_payloads.specs.Payloads.{local_app, local_host, host_local};

use crate::members::{local_member_at, put_local_member};
use actor_names::{Address, OutOfMemory, Space};
use place_table::HostInfo;
use std::alloc::Global;
use wire_fields::{
    Fault, app_at, put_app, put_tag, put_types, put_u16, put_u32, types_at, u16_at, u32_at,
};

#[tactic(auto, unfolding(crate::specs::Payloads::local_host, crate::specs::Payloads::local_app, crate::specs::Payloads::local_member, wire_fields::specs::Parts::host_app))]
fn local_host_at(alloc: Global, space: &Space, rest: &mut &[u8]) -> Result<HostInfo, Fault>
    ensures { Gives (λ x. (x, rest.new.now)) result ((local_host space.now).at rest.old.now) }
{
    let member = local_member_at(space, rest)?;
    let app = app_at(alloc, rest)?;
    let ip = u32_at(rest)?;
    let port = u16_at(rest)?;
    let kinds = types_at(alloc, rest)?;
    Ok(HostInfo {
        member,
        app,
        address: Address { ip, port },
        kinds,
    })
}

/// Reads a host of this space, if there is one: 0, or 1 and the host.
pub(crate) fn joined_at(
    alloc: Global,
    space: &Space,
    rest: &mut &[u8],
) -> Result<Option<HostInfo>, Fault>
    ensures { Gives (λ x. (x, rest.new.now)) result ((maybe (local_host space.now)).at rest.old.now) }
{
    match *rest {
        [0, others @ ..] => {
            *rest = others;
            Ok(None)
        }
        [1, others @ ..] => {
            *rest = others;
            let host = local_host_at(alloc, space, rest)?;
            Ok(Some(host))
        }
        _ => Err(Fault::Field { left: rest.len() }),
    }
}

#[tactic(auto, unfolding(crate::specs::Payloads::local_app, wire_fields::specs::Parts::host_app))]
fn put_local_host(out: &mut Vec<u8>, one: &HostInfo) -> Result<(), OutOfMemory>
    requires { local_app.Fits (host_local one.now) }
    ensures { OnOk result (out.new.items ≡ out.old.items ++ local_app.spell (host_local one.now)) }
{
    put_local_member(out, &one.member)?;
    put_app(out, &one.app)?;
    put_u32(out, one.address.ip)?;
    put_u16(out, one.address.port)?;
    put_types(out, &one.kinds)
}

/// Appends a host without its space, if there is one.
pub(crate) fn put_joined(out: &mut Vec<u8>, joined: &Option<HostInfo>) -> Result<(), OutOfMemory>
    requires { MaybeFits (λ h. local_app.Fits (host_local h)) joined.now }
    ensures { OnOk result (out.new.items ≡ out.old.items ++ maybe_tag joined.now ∷ maybe_fields (λ h. local_app.spell (host_local h)) joined.now) }
{
    match joined {
        None => put_tag(out, 0),
        Some(host) => {
            put_tag(out, 1)?;
            put_local_host(out, host)
        }
    }
}
