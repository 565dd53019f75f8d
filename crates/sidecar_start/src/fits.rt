// Names, addresses and hosts fit the fields of frames.
ghost use Rattle.std.specs.Prelude.{◌≡◌};
ghost use Rattle.wire_fields.specs.Fields.{number16, number32};
ghost use Rattle.wire_fields.specs.Parts.{node_place, app_name, type_name, types, boot};
ghost use Rattle.frame_wire.specs.declared.frame.Frame.TheVariants as frames;
ghost use Rattle.frame_wire.specs.Frames.{payload};

use actor_names::{ActorType, Address, AppId, Node, Space};
use place_table::HostInfo;

/// A node and its space fit.
pub(crate) fn fits_place(space: &Space, node: &Node)
    ensures { node_place.Fits (space.now, node.now) }
{
    let _space = space.as_slice();
    let _node = node.as_slice();
}

/// The id of an application fits.
fn fits_app(app: &AppId)
    ensures { app_name.Fits app.now }
{
    let _app = app.as_slice();
}

/// A type of actors fits.
pub(crate) fn fits_type(kind: &ActorType)
    ensures { type_name.Fits kind.now }
{
    let _kind = kind.as_slice();
}

/// An address fits.
#[tactic(auto, unfolding(wire_fields::specs::Fields::number16, wire_fields::specs::Fields::number32))]
fn fits_address(at: &Address)
    ensures ip { number32.Fits at.now.ip }
    ensures port { number16.Fits at.now.port }
{
    let _ip = at.ip;
    let _port = at.port;
}

/// A host fits a Register frame if its boot and its types do.
pub(crate) fn fits_host(host: &HostInfo)
    requires boot { boot.Fits host.now.member.boot }
    requires types { types.Fits host.now.kinds }
    ensures { payload.Fits (frames.Register host.now) }
{
    fits_place(&host.member.space, &host.member.node);
    fits_app(&host.app);
    fits_address(&host.address);
}
