// The path of a request as its parts.
ghost use Rattle.std.specs.Prelude.{◌≡◌, ◌≤◌, length, option_map};
ghost use Rattle.actors_api.specs.Paths.{before, behind, path_of, query_of, next_part, is_last_part, place_behind, place_under, route_of, route_view, some_if};

/// What an actor's path leads to.
#[derive(Clone, Copy)]
pub(crate) enum Place {
    Method,
    State,
    Key,
    Reminder,
    Timer,
}

/// An actor's path. Each part is as it was spelled; `rest` is what is behind the word of the place.
#[derive(Clone, Copy)]
pub(crate) struct Route<'a> {
    pub(crate) kind: &'a [u8],
    pub(crate) id: &'a [u8],
    pub(crate) place: Place,
    pub(crate) rest: &'a [u8],
}

// The place of the first such byte, or the text's length if it has none.
fn place_of(stop: u8, text: &[u8]) -> usize
    ensures place { result ≡ length (before stop text.now) }
    ensures within { result ≤ length text.now }
{
    for (at, byte) in text.iter().enumerate() {
        if *byte == stop {
            return at;
        }
    }
    text.len()
}

// What is before the first such byte, and what is behind it.
#[tactic(auto, using(crate::proofs::Cuts::take_before, crate::proofs::Cuts::behind_some, crate::proofs::Cuts::behind_none, crate::proofs::Cuts::before_all))]
fn cut(stop: u8, text: &[u8]) -> (&[u8], Option<&[u8]>)
    ensures front { result.0.now ≡ before stop text.now }
    ensures behind { option_map (λ t. t.now) result.1 ≡ behind stop text.now }
{
    let at = place_of(stop, text);
    if at < text.len() {
        let (_, behind) = text.split_at(at + 1);
        (&text[..at], Some(behind))
    } else {
        (text, None)
    }
}

/// A target up to its first `?`.
pub(crate) fn path_of(target: &[u8]) -> &[u8]
    ensures { result.now ≡ path_of target.now }
{
    let (path, _) = cut(b'?', target);
    path
}

/// A target from its first `?` on, with it.
pub(crate) fn query_of(target: &[u8]) -> &[u8]
    ensures { result.now ≡ query_of target.now }
{
    let at = place_of(b'?', target);
    &target[at..]
}

// A part that isn't empty, and what is behind its `/`.
fn next_part(text: &[u8]) -> Option<(&[u8], &[u8])>
    ensures { option_map (λ x. (x.0.now, x.1.now)) result ≡ next_part text.now }
{
    let (part, behind) = cut(b'/', text);
    if part.is_empty() {
        return None;
    }
    match behind {
        None => None,
        Some(behind) => Some((part, behind)),
    }
}

// Whether this is one part that ends the path.
fn is_last_part(text: &[u8]) -> bool
    ensures { result ≡ is_last_part text.now }
{
    !text.is_empty() && !text.contains(&b'/')
}

fn some_if(fits: bool, place: Place) -> Option<Place>
    ensures { result ≡ some_if fits place }
{
    if fits { Some(place) } else { None }
}

// The place that a word and what is behind its `/` lead to.
fn place_behind(word: &[u8], rest: &[u8]) -> Option<Place>
    ensures { result ≡ place_behind word.now rest.now }
{
    if word == b"method".as_slice() {
        return some_if(!rest.is_empty(), Place::Method);
    }
    if word == b"state".as_slice() {
        return some_if(is_last_part(rest), Place::Key);
    }
    if word == b"reminders".as_slice() {
        return some_if(is_last_part(rest), Place::Reminder);
    }
    if word == b"timers".as_slice() {
        return some_if(is_last_part(rest), Place::Timer);
    }
    None
}

// The place of what is under an actor, with what is behind its word.
fn place_under(under: &[u8]) -> Option<(Place, &[u8])>
    ensures { option_map (λ x. (x.0, x.1.now)) result ≡ place_under under.now }
{
    let (word, behind) = cut(b'/', under);
    match behind {
        None => {
            if word == b"state".as_slice() {
                Some((Place::State, b"".as_slice()))
            } else {
                None
            }
        }
        Some(rest) => match place_behind(word, rest) {
            None => None,
            Some(place) => Some((place, rest)),
        },
    }
}

/// The route of a path; `None` if it isn't one of an actor.
pub(crate) fn route_of(path: &[u8]) -> Option<Route<'_>>
    ensures { option_map route_view result ≡ route_of path.now }
{
    let path = path.strip_prefix(b"/v1.0/actors/".as_slice())?;
    let (kind, path) = next_part(path)?;
    let (id, under) = next_part(path)?;
    let (place, rest) = place_under(under)?;
    Some(Route {
        kind,
        id,
        place,
        rest,
    })
}
