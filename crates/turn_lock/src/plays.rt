//! What each step on the table tells.
ghost use Rattle.turn_lock.specs.Turns.{drew, looked, appended, passed_on, took_in, left_of, right_of, joined, spent_view};

use crate::history::HasHistory;
use crate::view::View;
use atomic_table::{Join, Play, Split};

pub(crate) struct Draw;

impl<W, T, E> Play<Option<W>, View<T, E>> for Draw {
    ghost then = { drew };
}

pub(crate) struct Look;

impl<V: HasHistory> Play<Option<V>, View<V::Start, V::Event>> for Look {
    ghost then = { looked V.start V.history V.stands V.rests };
}

pub(crate) struct Append;

impl<V: HasHistory> Play<Option<V>, View<V::Start, V::Event>> for Append {
    ghost then = { appended V.history };
}

pub(crate) struct PassOn;

impl<W, T, E> Play<Option<W>, View<T, E>> for PassOn {
    ghost then = { passed_on };
}

pub(crate) struct TakeIn;

impl<W, T, E> Play<Option<W>, View<T, E>> for TakeIn {
    ghost then = { took_in };
}

pub(crate) struct Halve;

impl<T, E> Split<View<T, E>> for Halve {
    ghost left = { left_of };

    ghost right = { right_of };
}

pub(crate) struct Merge;

impl<T, E> Join<View<T, E>> for Merge {
    ghost both = { joined };

    ghost spent = { spent_view };
}
