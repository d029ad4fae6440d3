//! A seat at a turn book.
ghost use Rattle.std.specs.Prelude.{◌≡◌, ◌<◌, false, length};
ghost use Rattle.std.specs.List.{concat};

use crate::view::View;
use atomic_table::Seat as Token;

/// The right to take turns at one book, for one caller at a time. It can't be copied or made up.
///
/// A seat that is dropped keeps its marks, so the book can't be closed any more.
///
/// A book `B` with entries `E` and the subject `S`. No bound stands here, so that a seat can lie beside a lifetime.
#[derive(Drop)]
pub struct Seat<B, E, S> {
    pub(crate) token: Token<Option<B>, View<E, S>>,
    pub(crate) shares: u64,
    pub(crate) seen: u64,
    pub(crate) own: u64,
    ghost free: { token.me.0.holds ≡ false },
    ghost empty: { length token.me.1 ≡ 0 },
    ghost some_mark: { 0 < length token.me.0.marks },
    ghost shares_is: { shares ≡ length token.me.0.marks },
    ghost seen_is: { seen ≡ length token.me.0.seen },
    ghost own_is: { own ≡ length (concat token.me.0.own) },
}

impl<B, E, S> Seat<B, E, S> {
    ghost use Rattle.turn_book.specs.Words.{marks, seen, own};

    /// How many of the 64 marks it has.
    pub fn shares(&self) -> u64
        ensures { result ≡ length (marks self.now) }
    {
        self.shares
    }

    /// How many entries of the history it has seen.
    pub fn seen(&self) -> u64
        ensures { result ≡ length (seen self.now) }
    {
        self.seen
    }

    /// How many entries of the history are its own calls.
    pub fn own(&self) -> u64
        ensures { result ≡ length (concat (own self.now)) }
    {
        self.own
    }
}
