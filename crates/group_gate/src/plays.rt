// What each step on the table says. These types are only for the proofs.
ghost use Rattle.std.specs.Prelude.{List, Option, None};
ghost use Rattle.group_gate.specs.Kept.{took, collected, recorded, answered_at, gave_up, closed, looked, sat, rose, posted, withdrawn, fetched, told, both, ended};

use crate::grouped::Grouped;
use crate::view::{Held, View};
use atomic_table::{Join, Play, Split};
use std::marker::{Brand, PhantomData};

// The answers of a step, and the value after it. A call at `Brand` picks them.
pub(crate) trait Said<M, R> {
    ghost said: { Option (List R × M) };
}

impl<M, R> Said<M, R> for Brand {
    ghost said = { None };
}

pub(crate) struct Take;

impl<M: Grouped> Play<Held<M, M::Ask, M::Answer>, View<M, M::Ask, M::Answer>> for Take {
    ghost then = { took M.takes M.moves };
}

pub(crate) struct Collect;

impl<M: Grouped> Play<Held<M, M::Ask, M::Answer>, View<M, M::Ask, M::Answer>> for Collect {
    ghost then = { collected M.takes M.moves };
}

pub(crate) struct Record<W> {
    said: PhantomData<W>,
}

impl<M: Grouped, W: Said<M, M::Answer>> Play<Held<M, M::Ask, M::Answer>, View<M, M::Ask, M::Answer>>
    for Record<W> {
    ghost then = { recorded M.takes M.moves W.said };
}

pub(crate) struct Put;

impl<M: Grouped> Play<Held<M, M::Ask, M::Answer>, View<M, M::Ask, M::Answer>> for Put {
    ghost then = { answered_at M.takes M.moves };
}

pub(crate) struct GiveUp;

impl<M: Grouped> Play<Held<M, M::Ask, M::Answer>, View<M, M::Ask, M::Answer>> for GiveUp {
    ghost then = { gave_up M.takes M.moves };
}

pub(crate) struct Close;

impl<M: Grouped> Play<Held<M, M::Ask, M::Answer>, View<M, M::Ask, M::Answer>> for Close {
    ghost then = { closed M.takes M.moves };
}

pub(crate) struct Look;

impl<M: Grouped> Play<Held<M, M::Ask, M::Answer>, View<M, M::Ask, M::Answer>> for Look {
    ghost then = { looked M.takes M.moves };
}

pub(crate) struct Sit;

impl<M: Grouped> Play<Held<M, M::Ask, M::Answer>, View<M, M::Ask, M::Answer>> for Sit {
    ghost then = { sat M.takes M.moves };
}

pub(crate) struct Rise;

impl<M: Grouped> Play<Held<M, M::Ask, M::Answer>, View<M, M::Ask, M::Answer>> for Rise {
    ghost then = { rose M.takes M.moves };
}

pub(crate) struct Post;

impl<M: Grouped> Play<Held<M, M::Ask, M::Answer>, View<M, M::Ask, M::Answer>> for Post {
    ghost then = { posted M.takes M.moves };
}

pub(crate) struct Withdraw;

impl<M: Grouped> Play<Held<M, M::Ask, M::Answer>, View<M, M::Ask, M::Answer>> for Withdraw {
    ghost then = { withdrawn M.takes M.moves };
}

pub(crate) struct Fetch;

impl<M: Grouped> Play<Held<M, M::Ask, M::Answer>, View<M, M::Ask, M::Answer>> for Fetch {
    ghost then = { fetched M.takes M.moves };
}

pub(crate) struct Tell;

impl<M, A, R> Split<View<M, A, R>> for Tell {
    ghost left = { λ v. v };

    ghost right = { told };
}

pub(crate) struct Meet;

impl<M, A, R> Join<View<M, A, R>> for Meet {
    ghost both = { both };

    ghost spent = { ended };
}
