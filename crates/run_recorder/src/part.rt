//! A worker's part of a recorder.
ghost use Rattle.std.specs.Prelude.{◌≡◌, ◌<◌, ◌↔◌, IfSome, IsTrue, None, Some, length};
ghost use Rattle.event_world.specs.Answers.{IsActor};
ghost use Rattle.run_recorder.specs.Answers.{HasActor, HasNoActor, own_places};
ghost use Rattle.run_recorder.specs.Parts.{working_of};
ghost use Rattle.run_recorder.specs.Recording.{IsWorking};
ghost use Rattle.run_recorder.specs.Workers.{actor_count, actor_number};

use crate::book::{RunBook, Subject};
use controller_api::Controller;
use event_machine::{Entry, Setup};
use event_world::Actor;
use listed::Listed;
use std::marker::Model;
use turn_book::Seat;

/// A seat at the turn book of a recorder.
pub(crate) type RunSeat<'a, C> = Seat<RunBook<'a, C>, Entry, Subject<C>>;

/// Where the seat of a part stands between two turns.
pub(crate) struct Place<'a, C: Controller> {
    pub(crate) seat: Option<RunSeat<'a, C>>,
}

// Written out, since a derived drop does not know that `C` lives as long as what it is lent for.
impl<'a, C: Controller> Drop for Place<'a, C> {
    fn drop(self) {
        let Place { seat: _ } = self;
    }
}

/// One worker's part of a recorder: its number, its actors, and its seat at the book. It can't be copied.
///
/// Worker 0 has no actor: it goes on once the others have left.
#[derive(Drop)]
pub struct Part<'a, C: Controller> {
    pub(crate) setup: &'a Setup<C>,
    pub(crate) workers: u32,
    pub(crate) worker: u32,
    pub(crate) place: Place<'a, C>,
}

/// All parts of a recorder, from that of worker 0 on.
pub type Parts<'a, C> = Listed<Part<'a, C>>;

impl<'a, C: Controller> Model for Part<'a, C> {
    ghost use Rattle.std.specs.Prelude.{◌≡◌, is_some, true};
    ghost use Rattle.run_recorder.specs.Parts.{working_of};
    ghost use Rattle.run_recorder.specs.Recording.{IsWorking, Working};

    ghost Value = { Working C };

    ghost view = { λ p. working_of p.setup.now p.workers p.worker p.place.seat };

    ghost invariant = { λ p. (is_some p.place.seat ≡ true) × IsWorking (working_of p.setup.now p.workers p.worker p.place.seat) };
}

impl<'a, C: Controller> Part<'a, C> {
    /// The number of the worker.
    pub fn worker(&self) -> u32
        ensures { result ≡ self.now.worker }
    {
        self.worker
    }

    /// Whether an actor is one of the worker's. Actors are dealt out one after the other: first the script, then switches,
    /// controllers and hosts, each by number.
    pub fn has(&self, actor: Actor) -> bool
        ensures { IsTrue result ↔ HasActor self.now actor }
    {
        self.is_actor(actor) && self.worker == 1 + self.number_of(actor) % self.workers
    }

    // Whether an actor is one of the setup's.
    fn is_actor(&self, actor: Actor) -> bool
        ensures { IsTrue result ↔ IsActor self.now.setup actor }
    {
        match actor {
            Actor::Script => true,
            Actor::Switch(s) => usize::from(s) < self.setup.topology.ports.len(),
            Actor::Controller(c) => usize::from(c) < self.setup.controllers.len(),
            Actor::Host(h) => usize::from(h) < self.setup.topology.hosts.len(),
        }
    }

    // The number of an actor.
    fn number_of(&self, actor: Actor) -> u32
        ensures { result ≡ actor_number self.now.setup actor }
    {
        let switches = self.setup.topology.ports.len() as u32;
        let controllers = self.setup.controllers.len() as u32;
        match actor {
            Actor::Script => 0,
            Actor::Switch(s) => 1 + u32::from(s),
            Actor::Controller(c) => 1 + switches + u32::from(c),
            Actor::Host(h) => 1 + switches + controllers + u32::from(h),
        }
    }

    // The actor with a number of the setup's actors.
    fn actor_at(&self, number: u32) -> Actor
        requires { number < actor_count self.now.setup }
        ensures actor { IsActor self.now.setup result }
        ensures number { actor_number self.now.setup result ≡ number }
    {
        let switches = self.setup.topology.ports.len() as u32;
        let controllers = self.setup.controllers.len() as u32;
        if number == 0 {
            Actor::Script
        } else if number <= switches {
            Actor::Switch((number - 1) as u16)
        } else if number <= switches + controllers {
            Actor::Controller((number - 1 - switches) as u16)
        } else {
            Actor::Host((number - 1 - switches - controllers) as u16)
        }
    }

    // How many actors the setup has.
    fn actor_count(&self) -> u32
        ensures { result ≡ actor_count self.now.setup }
    {
        let topology = &self.setup.topology;
        1 + topology.ports.len() as u32
            + self.setup.controllers.len() as u32
            + topology.hosts.len() as u32
    }

    /// The worker's first actor, if it has one: from there a worker goes round its actors.
    pub fn first_actor(&self) -> Option<Actor>
        ensures some { IfSome result (λ actor. HasActor self.now actor) }
        ensures none { (result ≡ None) ↔ HasNoActor self.now }
    {
        if self.worker == 0 || self.worker > self.actor_count() {
            return None;
        }
        Some(self.actor_at(self.worker - 1))
    }

    /// The worker's actor after one of its actors; after the last comes the first.
    pub fn actor_after(&self, actor: Actor) -> Actor
        requires { HasActor self.now actor }
        ensures { HasActor self.now result }
    {
        let next = self.number_of(actor) + self.workers;
        if next < self.actor_count() {
            self.actor_at(next)
        } else {
            self.actor_at(self.worker - 1)
        }
    }

    /// How many entries of the history are the worker's own.
    pub fn own(&self) -> u64
        ensures { result ≡ length (own_places self.now) }
    {
        match &self.place.seat {
            Some(seat) => seat.own(),
            None => unreachable!(),
        }
    }

    /// How many entries of the history the worker has seen.
    pub fn seen(&self) -> u64
        ensures { result ≡ length self.now.view.seen }
    {
        match &self.place.seat {
            Some(seat) => seat.seen(),
            None => unreachable!(),
        }
    }

    // What is known of it between two turns.
    pub(crate) fn known(&self)
        ensures { IsWorking self.now }
    {
        let _ = &self.place;
    }

    // Its seat.
    pub(crate) fn into_seat(self) -> RunSeat<'a, C>
        ensures seat { self.entry ≡ working_of self.entry.setup self.entry.workers self.entry.worker (Some result) }
        ensures known { IsWorking self.entry }
    {
        let Part { mut place, .. } = self;
        match place.seat.take() {
            Some(seat) => seat,
            None => unreachable!(),
        }
    }
}
