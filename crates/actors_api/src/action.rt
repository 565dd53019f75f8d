// What a method of HTTP asks for at a place.
ghost use Rattle.std.specs.Prelude.{◌≡◌};
ghost use Rattle.actors_api.specs.Actions.{verb_of, action_at, action_of};

use crate::path::Place;

/// The methods of HTTP that some place has.
#[derive(Clone, Copy)]
pub(crate) enum Verb {
    Post,
    Put,
    Get,
    Delete,
}

/// What is asked for, without its names and its body.
#[derive(Clone, Copy)]
pub(crate) enum Action {
    Invoke,
    Transact,
    GetState,
    PutReminder,
    GetReminder,
    DeleteReminder,
    SetTimer,
    DeleteTimer,
}

// The method that this text is. Methods are compared by case.
fn verb_of(method: &[u8]) -> Option<Verb>
    ensures { result ≡ verb_of method.now }
{
    if method == b"POST".as_slice() {
        return Some(Verb::Post);
    }
    if method == b"PUT".as_slice() {
        return Some(Verb::Put);
    }
    if method == b"GET".as_slice() {
        return Some(Verb::Get);
    }
    if method == b"DELETE".as_slice() {
        return Some(Verb::Delete);
    }
    None
}

// The table of places and methods.
fn action_at(place: Place, verb: Verb) -> Option<Action>
    ensures { result ≡ action_at place verb }
{
    match (place, verb) {
        (Place::Method, _) => Some(Action::Invoke),
        (Place::State, Verb::Post | Verb::Put) => Some(Action::Transact),
        (Place::Key, Verb::Get) => Some(Action::GetState),
        (Place::Reminder, Verb::Post | Verb::Put) => Some(Action::PutReminder),
        (Place::Reminder, Verb::Get) => Some(Action::GetReminder),
        (Place::Reminder, Verb::Delete) => Some(Action::DeleteReminder),
        (Place::Timer, Verb::Post | Verb::Put) => Some(Action::SetTimer),
        (Place::Timer, Verb::Delete) => Some(Action::DeleteTimer),
        _ => None,
    }
}

/// What the method asks for at the place; `None` if the place hasn't the method.
pub(crate) fn action_of(place: Place, method: &[u8]) -> Option<Action>
    ensures { result ≡ action_of place method.now }
{
    action_at(place, verb_of(method)?)
}
