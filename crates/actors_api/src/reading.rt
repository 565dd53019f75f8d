// Reads requests as commands.
ghost use Rattle.std.specs.Prelude.{◌≡◌, ◌<◌, option_map};
ghost use Rattle.actors_api.specs.Reading.{Gives};
ghost use Rattle.actors_api.specs.Paths.{route_view, query_of, route_of, path_of};
ghost use Rattle.actors_api.specs.Actions.{action_of};
ghost use Rattle.actors_api.specs.Commands.{routed, allowed, call_of, command_at, command_of, ReadsCommand};

use crate::action::{Action, action_of};
use crate::command::ApiCommand;
use crate::content::{ops_of, reminder_of, timer_of};
use crate::fault::{Fault, refusal_of};
use crate::names::{actor_at, call_at, chain_at, key_at, least_at, method_at, record_name_at};
use crate::path::{Place, Route, path_of, query_of, route_of};
use crate::refusal::ApiRefusal;
use crate::side::Side;
use actor_names::{ActorKey, Space};
use http_edge::HttpRequest;
use std::alloc::Global;

// The route, if the side has it.
fn routed(side: Side, route: Option<Route<'_>>) -> Result<Route<'_>, Fault>
    ensures { Gives route_view result (routed side (option_map route_view route.entry)) }
{
    let no_route = Fault::Refused {
        refusal: ApiRefusal::NoRoute,
    };
    let Some(route) = route else {
        return Err(no_route);
    };
    match (side, route.place) {
        (Side::Caller, _) | (Side::Peer, Place::Method) => Ok(route),
        (Side::Peer, _) => Err(no_route),
    }
}

fn allowed(action: Option<Action>) -> Result<Action, Fault>
    ensures { Gives (λ a. a) result (allowed action) }
{
    match action {
        Some(action) => Ok(action),
        None => Err(Fault::Refused {
            refusal: ApiRefusal::WrongMethod,
        }),
    }
}

// A call of the actor.
fn call_of(
    alloc: Global,
    side: Side,
    actor: ActorKey,
    request: &HttpRequest,
    rest: &[u8],
) -> Result<ApiCommand, Fault>
    ensures { Gives (λ c. c) result (call_of actor side request.now rest.now) }
{
    let method = method_at(alloc, rest, query_of(request.target.as_slice()))?;
    let chain = chain_at(alloc, side, &request.fields)?;
    let least = least_at(side, &request.fields)?;
    let call = call_at(side, &request.fields)?;
    Ok(ApiCommand::Invoke {
        actor,
        method,
        chain,
        least,
        call,
    })
}

// The command of an action on the actor.
fn command_at(
    alloc: Global,
    action: Action,
    side: Side,
    actor: ActorKey,
    request: &HttpRequest,
    rest: &[u8],
    now: u64,
) -> Result<ApiCommand, Fault>
    requires { now < 253370764800000 }
    ensures { Gives (λ c. c) result (command_at action actor side request.now rest.now now) }
{
    match action {
        Action::Invoke => call_of(alloc, side, actor, request, rest),
        Action::Transact => {
            let ops = ops_of(alloc, request.body.as_slice())?;
            Ok(ApiCommand::Transact { actor, ops })
        }
        Action::GetState => {
            let key = key_at(alloc, rest)?;
            Ok(ApiCommand::GetState { actor, key })
        }
        Action::PutReminder => {
            let name = record_name_at(alloc, rest)?;
            let reminder = reminder_of(alloc, request.body.as_slice(), now)?;
            Ok(ApiCommand::PutReminder {
                actor,
                name,
                reminder,
            })
        }
        Action::GetReminder => {
            let name = record_name_at(alloc, rest)?;
            Ok(ApiCommand::GetReminder { actor, name })
        }
        Action::DeleteReminder => {
            let name = record_name_at(alloc, rest)?;
            Ok(ApiCommand::DeleteReminder { actor, name })
        }
        Action::SetTimer => {
            let name = record_name_at(alloc, rest)?;
            let timer = timer_of(alloc, request.body.as_slice(), now)?;
            Ok(ApiCommand::SetTimer { actor, name, timer })
        }
        Action::DeleteTimer => {
            let name = record_name_at(alloc, rest)?;
            Ok(ApiCommand::DeleteTimer { actor, name })
        }
    }
}

// The command of a request.
#[tactic(auto, unfolding(crate::specs::Commands::command_of))]
fn command_of(
    alloc: Global,
    space: &Space,
    side: Side,
    request: &HttpRequest,
    now: u64,
) -> Result<ApiCommand, Fault>
    requires { now < 253370764800000 }
    ensures { Gives (λ c. c) result (command_of space.now side request.now now) }
{
    let path = path_of(request.target.as_slice());
    let route = routed(side, route_of(path))?;
    let action = allowed(action_of(route.place, request.method.as_slice()))?;
    let actor = actor_at(alloc, space, &route)?;
    command_at(alloc, action, side, actor, request, route.rest, now)
}

/// What a request asks for at `now`, in milliseconds since 1970, of actors of the space. The first cause for which it
/// is refused counts, in this order: route, method, names in the order of the path, fields of the head, form of the
/// body, numbers, sizes in order of operations, schedule. A body's value takes up to about twenty-five times the
/// body's length in memory while it is read.
pub fn read_api(
    alloc: Global,
    space: &Space,
    side: Side,
    request: &HttpRequest,
    now: u64,
) -> Result<ApiCommand, ApiRefusal>
    requires { now < 253370764800000 }
    ensures { ReadsCommand (command_of space.now side request.now now) result }
{
    match command_of(alloc, space, side, request, now) {
        Ok(command) => Ok(command),
        Err(fault) => Err(refusal_of(fault)),
    }
}
