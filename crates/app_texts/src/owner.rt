// Owners of actors, as another sidecar tells them.
ghost use Rattle.std.specs.Prelude.{◌≡◌, IfOk};
ghost use Rattle.std.specs.Option.{option_copied};
ghost use Rattle.app_texts.specs.PeerReplies.{app_in, address_in, owner_of, owner_reading};

use actor_names::{Address, AppId, NameError, read_address, read_app_id};
use call_names::{cut, member_in};
use lists_and_limits::{LAST_NUMBER, OutOfMemory, read_decimal};
use place_table::{ActorTypes, HostInfo};
use std::alloc::Global;

fn address_in(text: &[u8]) -> Option<Address>
    ensures { result ≡ address_in text.now }
{
    match read_address(text) {
        Ok(address) => Some(address),
        Err(_) => None,
    }
}

fn app_in(alloc: Global, text: &[u8]) -> Result<Option<AppId>, OutOfMemory>
    ensures { IfOk result (λ app. app ≡ app_in text.now) }
{
    match read_app_id(alloc, text) {
        Ok(app) => Ok(Some(app)),
        Err(NameError::OutOfMemory) => Err(OutOfMemory),
        Err(_) => Ok(None),
    }
}

// The owner that these four texts tell.
fn owner_of(
    alloc: Global,
    version: &[u8],
    member: &[u8],
    app: &[u8],
    address: &[u8],
) -> Result<Option<(u64, HostInfo)>, OutOfMemory>
    ensures { IfOk result (λ owner. owner ≡ owner_of version.now member.now app.now address.now) }
{
    let Some(version) = read_decimal(version, LAST_NUMBER) else {
        return Ok(None);
    };
    let Some(member) = member_in(member) else {
        return Ok(None);
    };
    let Some(app) = app_in(alloc, app)? else {
        return Ok(None);
    };
    let Some(address) = address_in(address) else {
        return Ok(None);
    };
    let owner = HostInfo {
        member,
        app,
        address,
        kinds: ActorTypes::from_vec(Vec::new(alloc)),
    };
    Ok(Some((version, owner)))
}

// Reads `VERSION MEMBER APP ADDRESS`.
#[tactic(auto, unfolding(crate::specs::PeerReplies::owner_reading))]
pub(crate) fn read_owner(alloc: Global, text: &[u8]) -> Result<Option<(u64, HostInfo)>, OutOfMemory>
    ensures { IfOk result (λ owner. owner ≡ owner_reading text.now) }
{
    let Some((version, more)) = cut(text) else {
        return Ok(None);
    };
    let Some((member, last)) = cut(more) else {
        return Ok(None);
    };
    let Some((app, address)) = cut(last) else {
        return Ok(None);
    };
    owner_of(alloc, version, member, app, address)
}
