//! A search in depth of the walks of all headers of a class at once, in the order of the places of their outputs.

ghost use Rattle.std.specs.Prelude.{◌≡◌, ◌≢◌, ◌<◌, ◌++◌, ◌∷◌, ◌↔◌, [], All, IfOk, IsTrue, OnOk, length, map};
ghost use Rattle.std.specs.List.{AllZip};
ghost use Rattle.of10_match.specs.declared.header.Header.{Header};
ghost use Rattle.topology.specs.declared.invariant.Invariant.{Invariant};
ghost use Rattle.topology.specs.Network.{IsPort};
ghost use Rattle.header_classes.specs.Cell.{in_cell};
ghost use Rattle.header_classes.specs.Rewrite.{IsValidRewrite};
ghost use Rattle.header_classes.specs.Trials.{AreTrials};
ghost use Rattle.invariant_check.specs.Class.{IsNarrowed};
ghost use Rattle.invariant_check.specs.Network.{IsNet};
ghost use Rattle.invariant_check.specs.Search.{In};
ghost use Rattle.invariant_check.specs.Stop.{IsStop, node_at};
ghost use Rattle.invariant_check.specs.Walk.{GoesOn};
ghost use Rattle.invariant_check.specs.declared.walk.Finish.TheVariants.{Repeat};

use crate::class::Class;
use crate::hops::hops_of;
use crate::reach::{Reach, forbids, reach_from};
use crate::stop::{Hop, Stop};
use crate::walk::{Finish, Walk};
use event_world::NetState;
use header_classes::{Rewrite, Trials};
use listed::Listed;
use std::alloc::{AllocError, Global};
use std::mem;
use topology::Invariant;

/// A stop on the path of a search, with its hops: those before the place `next` were tried.
#[derive(Debug, Drop)]
pub(crate) struct Frame {
    stop: Stop,
    hops: Vec<Hop>,
    next: usize,
}

/// How far a search has come: the last stop of its path, those before it in order, and the stops that were left again, all whose
/// hops were tried.
#[derive(Debug, Drop)]
pub(crate) struct Search {
    top: Frame,
    below: Vec<Frame>,
    done: Vec<Stop>,
}

/// What one turn of a search comes to.
#[derive(Debug, Drop)]
pub(crate) enum Turn {
    /// There is more to try.
    On,
    /// All was tried, and nothing was found.
    Over,
    /// A walk was found.
    Found(Walk),
}

impl Frame {
    ghost use Rattle.invariant_check.specs.Turn.{IsFrame};

    /// A stop of which no hop was tried. The class is narrowed until the hops are the same for all its headers.
    fn of(
        alloc: Global,
        net: &NetState,
        trials: &[Trials],
        class: &mut Class,
        stop: Stop,
    ) -> Result<Frame, AllocError>
        requires net { IsNet net.now }
        requires trials { AllZip AreTrials net.now.tables trials.now }
        requires stop { IsStop net.now stop }
        ensures narrowed { IsNarrowed class.old class.new }
        ensures frame { IfOk result (λ frame. IsFrame net.now class.new.cell frame) }
        ensures stop { IfOk result (λ frame. frame.stop ≡ stop) }
        ensures next { IfOk result (λ frame. frame.next ≡ 0) }
    {
        let hops = hops_of(alloc, net, trials, class, &stop)?;
        Ok(Frame {
            stop,
            hops: hops.into_vec(),
            next: 0,
        })
    }
}

impl Search {
    ghost use Rattle.invariant_check.specs.Turn.{IsFrame, IsHeld, IsTurned, SearchAt, skipped};
    ghost use Rattle.invariant_check.specs.declared.search.Turn.TheVariants.{On, Over};

    /// A search from port `p` of switch `s`.
    pub(crate) fn start(
        alloc: Global,
        net: &NetState,
        trials: &[Trials],
        class: &mut Class,
        s: u16,
        p: u16,
    ) -> Result<Search, AllocError>
        requires net { IsNet net.now }
        requires trials { AllZip AreTrials net.now.tables trials.now }
        requires place { IsPort net.now.topology.ports (s, p) }
        ensures narrowed { IsNarrowed class.old class.new }
        ensures held { IfOk result (λ search. IsHeld net.now class.new.cell search) }
        ensures at { IfOk result (λ search. (invariant : Invariant) (h : Header) → SearchAt net.now invariant h (record { s = s; p = p; header = h }) search) }
    {
        let stop = Stop {
            s,
            p,
            sets: Rewrite::none(),
        };
        Ok(Search {
            top: Frame::of(alloc, net, trials, class, stop)?,
            below: Vec::new(alloc),
            done: Vec::new(alloc),
        })
    }

    /// Tries the next hop of the last stop, or leaves that stop where all its hops were tried.
    pub(crate) fn turn(
        &mut self,
        alloc: Global,
        net: &NetState,
        trials: &[Trials],
        invariant: &Invariant,
        class: &mut Class,
    ) -> Result<Turn, AllocError>
        requires net { IsNet net.now }
        requires trials { AllZip AreTrials net.now.tables trials.now }
        requires held { IsHeld net.now class.old.cell self.old }
        ensures narrowed { IsNarrowed class.old class.new }
        ensures turn { IfOk result (λ turn. IsTurned net.now invariant.now class.new self.old self.new turn) }
    {
        header_classes::laws::a_cell_has_valid_headers(&class.cell);
        if self.top.next < self.top.hops.len() {
            let hop = self.top.hops[self.top.next];
            match reach_from(net, invariant, self.top.stop.s, &hop) {
                Reach::Nothing => Ok(self.skip()),
                Reach::End(finish) => Ok(Turn::Found(self.walk(alloc, class, finish)?)),
                Reach::Onward(stop) => self.go_on(alloc, net, trials, invariant, class, stop),
            }
        } else {
            self.leave()
        }
    }

    /// Comes to a stop by the next hop of the last one: to one that is on the path, to one that was left, or to a new one.
    fn go_on(
        &mut self,
        alloc: Global,
        net: &NetState,
        trials: &[Trials],
        invariant: &Invariant,
        class: &mut Class,
        stop: Stop,
    ) -> Result<Turn, AllocError>
        requires net { IsNet net.now }
        requires trials { AllZip AreTrials net.now.tables trials.now }
        requires held { IsHeld net.now class.old.cell self.old }
        requires stop { IsStop net.now stop }
        requires more { self.old.top.next < length self.old.top.hops.items }
        requires onward { (h : Header) → IsTrue (in_cell class.old.cell h)
            → GoesOn net.now (node_at h self.old.top.stop) self.old.top.next (node_at h stop) }
        ensures narrowed { IsNarrowed class.old class.new }
        ensures turn { IfOk result (λ turn. IsTurned net.now invariant.now class.new self.old self.new turn) }
    {
        header_classes::laws::inner_cells_are_parts();
        if self.is_on_path(class, &stop) {
            if forbids(invariant, Finish::Repeat) {
                Ok(Turn::Found(self.walk_back(alloc, class, &stop)?))
            } else {
                Ok(self.skip())
            }
        } else if is_among(class, self.done.as_slice(), &stop) {
            Ok(self.skip())
        } else {
            self.enter(alloc, net, trials, class, stop)
        }
    }

    /// Goes on to the hop after the next one.
    fn skip(&mut self) -> Turn
        requires { self.old.top.next < length self.old.top.hops.items }
        ensures turn { result ≡ On }
        ensures search { self.new ≡ skipped self.old }
    {
        self.top.next += 1;
        Turn::On
    }

    /// Enters a stop by the next hop of the last one.
    fn enter(
        &mut self,
        alloc: Global,
        net: &NetState,
        trials: &[Trials],
        class: &mut Class,
        stop: Stop,
    ) -> Result<Turn, AllocError>
        requires net { IsNet net.now }
        requires trials { AllZip AreTrials net.now.tables trials.now }
        requires stop { IsStop net.now stop }
        requires more { self.old.top.next < length self.old.top.hops.items }
        ensures narrowed { IsNarrowed class.old class.new }
        ensures turn { IfOk result (λ turn. turn ≡ On) }
        ensures frame { OnOk result (IsFrame net.now class.new.cell self.new.top) }
        ensures top { OnOk result (self.new.top.stop ≡ stop) }
        ensures next { OnOk result (self.new.top.next ≡ 0) }
        ensures below { OnOk result (self.new.below.items ≡ self.old.below.items ++ (skipped self.old).top ∷ []) }
        ensures done { OnOk result (self.new.done ≡ self.old.done) }
    {
        let frame = Frame::of(alloc, net, trials, class, stop)?;
        let mut left = mem::replace(&mut self.top, frame);
        left.next += 1;
        self.below.push(left)?;
        Ok(Turn::On)
    }

    /// Leaves the last stop, all whose hops were tried.
    fn leave(&mut self) -> Result<Turn, AllocError>
        ensures on { IfOk result (λ turn. turn ≡ On → (self.old.below.items ≡ self.new.below.items ++ self.new.top ∷ [])
            × (self.new.done.items ≡ self.old.done.items ++ self.old.top.stop ∷ [])) }
        ensures over { IfOk result (λ turn. turn ≢ On → (turn ≡ Over) × (self.old.below.items ≡ [])) }
    {
        self.done.push(self.top.stop)?;
        match self.below.pop() {
            Some(frame) => {
                self.top = frame;
                Ok(Turn::On)
            }
            None => Ok(Turn::Over),
        }
    }

    /// The walk along the path for the header of the class, with an end.
    fn walk(&self, alloc: Global, class: &Class, finish: Finish) -> Result<Walk, AllocError>
        requires top { IsValidRewrite self.now.top.stop.sets }
        requires below { All (λ frame. IsValidRewrite frame.stop.sets) self.now.below.items }
        ensures nodes { IfOk result (λ walk. walk.nodes ≡ map (λ frame. node_at class.now.header frame.stop) self.now.below.items
            ++ node_at class.now.header self.now.top.stop ∷ []) }
        ensures finish { IfOk result (λ walk. walk.finish ≡ finish) }
    {
        header_classes::laws::a_cell_has_valid_headers(&class.cell);
        let mut nodes = Listed::new(alloc);
        for frame in &self.below {
            nodes.push(frame.stop.node(&class.header))?;
        }
        nodes.push(self.top.stop.node(&class.header))?;
        Ok(Walk { nodes, finish })
    }

    /// The walk along the path and back to a stop for the header of the class.
    fn walk_back(&self, alloc: Global, class: &Class, stop: &Stop) -> Result<Walk, AllocError>
        requires top { IsValidRewrite self.now.top.stop.sets }
        requires below { All (λ frame. IsValidRewrite frame.stop.sets) self.now.below.items }
        requires stop { IsValidRewrite stop.now.sets }
        ensures nodes { IfOk result (λ walk. walk.nodes ≡ (map (λ frame. node_at class.now.header frame.stop) self.now.below.items
            ++ node_at class.now.header self.now.top.stop ∷ []) ++ node_at class.now.header stop.now ∷ []) }
        ensures finish { IfOk result (λ walk. walk.finish ≡ Repeat) }
    {
        header_classes::laws::a_cell_has_valid_headers(&class.cell);
        let mut walk = self.walk(alloc, class, Finish::Repeat)?;
        walk.nodes.push(stop.node(&class.header))?;
        Ok(walk)
    }

    /// Whether a stop is one of the path: the class is narrowed until it is the same for all its headers.
    fn is_on_path(&self, class: &mut Class, stop: &Stop) -> bool
        requires top { IsValidRewrite self.now.top.stop.sets }
        requires below { All (λ frame. IsValidRewrite frame.stop.sets) self.now.below.items }
        requires stop { IsValidRewrite stop.now.sets }
        ensures narrowed { IsNarrowed class.old class.new }
        ensures every { (h : Header) → IsTrue (in_cell class.new.cell h) → (IsTrue result ↔ In (node_at h stop.now)
            (node_at h self.now.top.stop ∷ map (λ frame. node_at h frame.stop) self.now.below.items)) }
    {
        header_classes::laws::inner_cells_are_parts();
        if self.top.stop.is_same(class, stop) {
            return true;
        }
        for frame in &self.below {
            if frame.stop.is_same(class, stop) {
                return true;
            }
        }
        false
    }
}

/// Whether a stop is one of several: the class is narrowed until it is the same for all its headers.
fn is_among(class: &mut Class, stops: &[Stop], stop: &Stop) -> bool
    requires stops { All (λ other. IsValidRewrite other.sets) stops.now }
    requires stop { IsValidRewrite stop.now.sets }
    ensures narrowed { IsNarrowed class.old class.new }
    ensures every { (h : Header) → IsTrue (in_cell class.new.cell h) → (IsTrue result ↔ In (node_at h stop.now) (map (node_at h) stops.now)) }
{
    header_classes::laws::inner_cells_are_parts();
    header_classes::laws::a_cell_has_valid_headers(&class.cell);
    for other in stops {
        if other.is_same(class, stop) {
            return true;
        }
    }
    false
}
