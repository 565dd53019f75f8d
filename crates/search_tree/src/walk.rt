// The places at which a walk goes on.
ghost use Rattle.std.specs.Prelude.{◌≡◌, option_copied};
ghost use Rattle.lists_and_limits.specs.Walks.{from_place};

use crate::element::{Element, Probe};
use std::cmp::Ordering;

/// The place of an element; without one, the place before every element.
#[derive(Drop)]
pub(crate) struct Behind<'a, E: Element> {
    pub(crate) after: Option<&'a E>,
}

impl<'a, E: Element> Probe<E> for Behind<'a, E> {
    ghost at = { λ p x. from_place E.cmp (option_copied p.after) x };

    fn compare(&self, element: &E) -> Ordering {
        match self.after {
            None => Ordering::Greater,
            Some(place) => element.order(place),
        }
    }
}
