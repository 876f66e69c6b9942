//! Points in a row that join at the back and leave at both ends.

ghost use Rattle.std.specs.Prelude.{◌≡◌, ◌-◌, ◌<◌, ◌≤◌, [], ◌∷◌, ◌++◌, length, take, drop};
ghost use Rattle.std.specs.Prelude.{MatchOption, OnOk, IsTrue, ◌↔◌};
ghost use Rattle.taut_plan.specs.Chain.{IsFirstPoint};
ghost use Rattle.taut_plan.specs.declared.points.Point.{Point};
ghost use Rattle.taut_plan.specs.Links.{IsLastLink, EndsBefore, IsLinkedTo};

use crate::points::{Link, Point};
use std::alloc::{AllocError, Global};
use std::marker::Model;

/// The points of a chain. A ring would cost a test at each look at a point, so the first ones that
/// left stay in the list until the chain is empty.
///
/// Each point but the first has with it the edge from the point before, so that a test of the last
/// one reads one entry. The first one's edge begins at the apex, which moves: it's computed at each
/// test.
#[derive(Drop)]
pub(crate) struct Queue {
    links: Vec<Link>,
    /// How many points have left, from the first on.
    passed: usize,
}

impl Model for Queue {
    ghost use Rattle.std.specs.Prelude.{◌≤◌, List, length, drop};
    ghost use Rattle.taut_plan.specs.declared.points.Point.{Point};
    ghost use Rattle.taut_plan.specs.Links.{points_of, AreLinked};

    ghost Value = { List Point };

    ghost view = { λ q. drop q.passed (points_of q.links.items) };

    ghost invariant = { λ q. (q.passed ≤ length q.links.items)
        × AreLinked q.passed q.links.items };
}

impl Queue {
    /// No point yet.
    pub(crate) fn new(alloc: Global) -> Queue
        ensures { result ≡ [] }
    {
        Queue {
            links: Vec::new(alloc),
            passed: 0,
        }
    }

    /// The first point.
    #[inline(always)]
    pub(crate) fn first(&self) -> Option<Point>
        ensures { MatchOption result (self.now ≡ []) (IsFirstPoint self.now) }
    {
        if self.passed < self.links.len() {
            Some(self.links[self.passed].point)
        } else {
            None
        }
    }

    /// Whether it has two points or more.
    #[inline(always)]
    pub(crate) fn has_several(&self) -> bool
        ensures { IsTrue result ↔ 1 < length self.now }
    {
        self.links.len() - self.passed > 1
    }

    /// The last point with the edge to it, where that begins at another point of the chain.
    #[inline(always)]
    pub(crate) fn last_link(&self) -> Option<Link>
        ensures { MatchOption result (length self.now ≤ 1)
            (λ link. (o : Point) → IsLastLink o self.now link) }
    {
        let count = self.links.len();
        if count - self.passed >= 2 {
            Some(self.links[count - 1])
        } else {
            None
        }
    }

    /// A point joins at the back, with the edge from the last point.
    #[inline(always)]
    pub(crate) fn push_link(&mut self, link: Link) -> Result<(), AllocError>
        requires { IsLinkedTo self.old link }
        ensures { OnOk result (self.new ≡ self.old ++ link.point ∷ []) }
    {
        self.links.push(link)?;
        Ok(())
    }

    /// The last edge of the chain that begins at `apex`.
    #[inline(always)]
    pub(crate) fn last_edge(&self, apex: Point) -> Option<Link>
        ensures { MatchOption result (self.now ≡ []) (IsLastLink apex self.now) }
    {
        let count = self.links.len();
        if self.passed == count {
            return None;
        }
        let last = self.links[count - 1];
        if count - self.passed >= 2 {
            Some(last)
        } else {
            Some(Link::from_apex(apex, last.point))
        }
    }

    /// A point joins at the back.
    #[inline(always)]
    pub(crate) fn join(&mut self, point: Point) -> Result<(), AllocError>
        requires { EndsBefore self.old point }
        ensures { OnOk result (self.new ≡ self.old ++ point ∷ []) }
    {
        let count = self.links.len();
        let link = if self.passed < count {
            Link::new(self.links[count - 1].point, point)
        } else {
            // Numbers that are never read: the first point's edge begins at the apex, which moves.
            Link {
                point,
                slots: 0,
                bytes: 0,
            }
        };
        self.links.push(link)?;
        Ok(())
    }

    /// The last point leaves.
    #[inline(always)]
    pub(crate) fn pop_last(&mut self)
        requires { 0 < length self.old }
        ensures { self.new ≡ take (length self.old - 1) self.old }
    {
        self.links.pop();
    }

    /// The first point leaves.
    #[inline(always)]
    pub(crate) fn pop_first(&mut self)
        requires { 0 < length self.old }
        ensures { self.new ≡ drop 1 self.old }
    {
        self.passed += 1;
        // Nothing of the list is needed any more, so its room is used again from the start.
        if self.passed == self.links.len() {
            self.links.clear();
            self.passed = 0;
        }
    }
}
