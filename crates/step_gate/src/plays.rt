// What each step on the table says. These types are only for the proofs.
ghost use Rattle.std.specs.Prelude.{Option, None};
ghost use Rattle.step_gate.specs.Kept.{took, added, gave_up, looked, closed, told, both, ended};

use crate::view::View;
use atomic_table::{Join, Play, Split};
use state_machine::Machine;
use std::marker::{Brand, PhantomData};

// The entry that a release adds. A call at `Brand` picks it.
pub(crate) trait Said<E, R> {
    ghost said: { Option (E × R) };
}

impl<E, R> Said<E, R> for Brand {
    ghost said = { None };
}

pub(crate) struct Take;

impl<M: Machine> Play<M, View<M, M::Event, M::Reply>> for Take {
    ghost then = { took M.moves };
}

pub(crate) struct Add<W> {
    said: PhantomData<W>,
}

impl<M: Machine, W: Said<M::Event, M::Reply>> Play<M, View<M, M::Event, M::Reply>> for Add<W> {
    ghost then = { added M.moves W.said };
}

pub(crate) struct GiveUp;

impl<M: Machine> Play<M, View<M, M::Event, M::Reply>> for GiveUp {
    ghost then = { gave_up M.moves };
}

pub(crate) struct Look;

impl<M: Machine> Play<M, View<M, M::Event, M::Reply>> for Look {
    ghost then = { looked M.moves };
}

pub(crate) struct Close;

impl<M: Machine> Play<M, View<M, M::Event, M::Reply>> for Close {
    ghost then = { closed M.moves };
}

pub(crate) struct Tell;

impl<M, E, R> Split<View<M, E, R>> for Tell {
    ghost left = { λ v. v };

    ghost right = { told };
}

pub(crate) struct Meet;

impl<M, E, R> Join<View<M, E, R>> for Meet {
    ghost both = { both };

    ghost spent = { ended };
}
