//! Lower bounds of the paths that come before a known one, for all tracks.
ghost use Rattle.std.specs.Prelude.{◌≡◌, ◌<◌, ℕ, List, length, slice_index, IfSome, OnOk};
ghost use Rattle.fabric_planes.specs.Prelude.{IsRivalBound};
ghost use Rattle.fabric_planes.specs.PlaneBounds.{AreBounds, AreRivals};
ghost use Rattle.fabric_planes.specs.Bounds.{AreLowered};
ghost use Rattle.fabric_planes.specs.RivalBounds.{AreLimited};
ghost use Rattle.fabric_planes.specs.Rivals.{IsHeadOf};

use crate::bounds::Bounds;
use crate::costs::NodeCosts;
use crate::net_planes::{HasFamily, NetPlanes};
use crate::rival_bounds::Known;
use crate::rivals::Head;
use rr_graph::StripGraph;
use std::alloc::AllocError;

impl<'a, G: StripGraph, C: NodeCosts> Known<'a, G, C> {
    /// Lowers the bounds by the paths from all starts.
    fn lower_by_starts(&self, bounds: &mut [u16])
        requires { AreLimited (G.basis self.now.planes.now.strip.graph.now).arch.tracks
            self.now.limits.most bounds.old }
        ensures falls { AreLowered bounds.old bounds.new }
        ensures low { (nodes : List ℕ) → IsHeadOf (G.basis self.now.planes.now.strip.graph.now)
            self.now.head nodes → (track : ℕ) →
            track < (G.basis self.now.planes.now.strip.graph.now).arch.tracks →
            (track ≡ self.now.head.track → ⊥) →
            IsRivalBound (⟦<NetPlanes<'a, G, C> as HasFamily>⟧.family self.now.planes.now)
            track nodes (slice_index bounds.new track) }
    {
        let planes = self.planes;
        planes.strip.graph.laws();
        self.lower_by_pins(bounds);
        self.lower_by_wires(bounds);
    }
}

/// Replaces the bound of a track, if there is one, by another list's.
fn take_own(bounds: &mut [u16], all: &[u16], track: usize)
    requires { length all.now ≡ length bounds.old }
    ensures long { length bounds.new ≡ length bounds.old }
    ensures other { (k : ℕ) → (k ≡ track → ⊥) →
        slice_index bounds.new k ≡ slice_index bounds.old k }
    ensures own { track < length bounds.old →
        slice_index bounds.new track ≡ slice_index all.now track }
{
    if track < bounds.len() {
        bounds[track] = all[track];
    }
}

impl Bounds {
    /// Makes the bounds of all paths those of the paths that come before a known one.
    fn copy_all(&mut self) -> Result<(), AllocError>
        ensures all { self.new.all.items ≡ self.old.all.items }
        ensures rivals { OnOk result (self.new.rivals.items ≡ self.old.all.items) }
    {
        self.rivals.clear();
        self.rivals.extend_from_slice(self.all.as_slice())
    }

    /// Fills in for each track a lower bound of the paths that come before any path with this head.
    fn fill_before<'a, G: StripGraph, C: NodeCosts>(
        &mut self,
        planes: &NetPlanes<'a, G, C>,
        head: Head,
    ) -> Result<(), AllocError>
        requires { AreBounds (⟦<NetPlanes<'a, G, C> as HasFamily>⟧.family planes.now)
            self.old.all.items }
        ensures all { self.new.all.items ≡ self.old.all.items }
        ensures long { OnOk result (length self.new.rivals.items
            ≡ (G.basis planes.now.strip.graph.now).arch.tracks) }
        ensures rivals { OnOk result ((nodes : List ℕ) → IsHeadOf (G.basis
            planes.now.strip.graph.now) head nodes → AreRivals
            (⟦<NetPlanes<'a, G, C> as HasFamily>⟧.family planes.now) nodes
            self.new.rivals.items) }
    {
        planes.strip.graph.laws();
        planes.begin(head.cost, &mut self.rivals)?;
        let known = Known {
            planes,
            head,
            limits: planes.limits(head.cost),
        };
        let rivals = self.rivals.as_mut_slice();
        known.lower_by_starts(rivals);
        take_own(rivals, self.all.as_slice(), head.track);
        Ok(())
    }

    /// Returns whether some path of another track may cost no more than those with this head. If
    /// none does, the bounds of all paths tell as much as those of paths that come before.
    fn has_others(&self, head: Head) -> bool {
        let most = head.cost.min(20000) as u16;
        for track in 0..self.all.len() {
            if self.all[track] <= most && track != head.track {
                return true;
            }
        }
        false
    }

    /// Fills in for each track a lower bound of the paths that come before any path with this head;
    /// of all paths if there is none.
    pub fn fill_rivals<'a, G: StripGraph, C: NodeCosts>(
        &mut self,
        planes: &NetPlanes<'a, G, C>,
        head: Option<Head>,
    ) -> Result<(), AllocError>
        requires { AreBounds (⟦<NetPlanes<'a, G, C> as HasFamily>⟧.family planes.now)
            self.old.all.items }
        ensures all { self.new.all.items ≡ self.old.all.items }
        ensures long { OnOk result (length self.new.rivals.items ≡
            (⟦<NetPlanes<'a, G, C> as HasFamily>⟧.family planes.now).tracks) }
        ensures rivals { OnOk result ((nodes : List ℕ) → IfSome head (λ head. IsHeadOf (G.basis
            planes.now.strip.graph.now) head nodes) → AreRivals
            (⟦<NetPlanes<'a, G, C> as HasFamily>⟧.family planes.now) nodes
            self.new.rivals.items) }
    {
        planes.strip.graph.laws();
        if let Some(head) = head {
            if self.has_others(head) {
                return self.fill_before(planes, head);
            }
        }
        self.copy_all()
    }
}
