// A whole sidecar between fakes, in threads of its own: the application, the placement, the store, the callers and the
// clock, which share a `Stage`.
mod caller;
mod link;
mod moments;
mod scenes;
mod silence;
mod stage;
mod trial;

pub(crate) use trial::answer;
