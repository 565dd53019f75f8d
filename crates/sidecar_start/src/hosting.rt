// The host that a sidecar is.
ghost use Rattle.std.specs.Prelude.{◌≡◌, ◌≤◌, length, map, IfOk, IfErr};
ghost use Rattle.wire_fields.specs.Parts.{types, boot};
ghost use Rattle.frame_wire.specs.declared.frame.Frame.TheVariants as frames;
ghost use Rattle.frame_wire.specs.Frames.{payload};
ghost use Rattle.sidecar_start.specs.Starting.{kind_in, started};

use crate::end::StartEnd;
use crate::fits::{fits_host, fits_type};
use crate::words::StartWords;
use actor_names::Member;
use app_texts::AppConfig;
use lists_and_limits::OutOfMemory;
use part_model::TypeList;
use place_table::{ActorTypes, HostInfo};
use std::alloc::Global;

/// What a sidecar is once it has started: its host, and the settings of the types that its application hosts.
#[derive(Drop)]
pub struct Started {
    /// Its member, its application, the address of its peer port, and the types in the order of `kinds`.
    pub host: HostInfo,
    /// The settings of the types, at most 32, each once.
    pub kinds: TypeList,
}

/// The types of these settings, in their order.
fn types_in(alloc: Global, kinds: &TypeList) -> Result<ActorTypes, OutOfMemory>
    requires { length kinds.now ≤ 32 }
    ensures same { IfOk result (λ list. list ≡ map kind_in kinds.now) }
    ensures fits { IfOk result (λ list. types.Fits list) }
{
    let mut items = Vec::new(alloc);
    for settings in kinds.as_slice() {
        fits_type(&settings.kind);
        let kind = settings.kind.copy(alloc)?;
        items.push(kind)?;
    }
    Ok(ActorTypes::from_vec(items))
}

/// The sidecar whose boot was drawn and whose application has this configuration.
pub(crate) fn make_started(
    alloc: Global,
    words: &StartWords,
    drawn: u64,
    config: AppConfig,
) -> Result<Started, StartEnd>
    requires boot { boot.Fits drawn }
    requires few { length config.kinds ≤ 32 }
    ensures started { IfOk result (λ s. s ≡ started words.now drawn config) }
    ensures fits { IfOk result (λ s. payload.Fits (frames.Register s.host)) }
    ensures memory { IfErr result (λ e. e ≡ StartEnd.OutOfMemory) }
{
    let AppConfig { kinds } = config;
    let types = match types_in(alloc, &kinds) {
        Ok(types) => types,
        Err(_) => return Err(StartEnd::OutOfMemory),
    };
    let app = match words.app.copy(alloc) {
        Ok(app) => app,
        Err(_) => return Err(StartEnd::OutOfMemory),
    };
    let host = HostInfo {
        member: Member {
            space: words.space.copy(),
            node: words.node.copy(),
            boot: drawn,
        },
        app,
        address: words.peer_at.copy(),
        kinds: types,
    };
    fits_host(&host);
    Ok(Started { host, kinds })
}
