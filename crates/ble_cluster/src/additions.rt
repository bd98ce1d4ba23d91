//! Grows a cluster from its seed.
ghost use Rattle.std.specs.Prelude.{◌≡◌, ◌<◌, All, length, IfOk};
ghost use Rattle.ble_cluster.specs.Prelude.{IsArch};
ghost use Rattle.ble_cluster.specs.Clusters.{cluster_of, first_most, members_after, input_count_at};
ghost use Rattle.ble_cluster.specs.FirstFree.{AreByOutside, IsFirstFree};
ghost use Rattle.ble_cluster.specs.FreeBles.{AllFit, free_in};
ghost use Rattle.ble_cluster.specs.GrowingCluster.{IsGrowingCluster, IsRoomFor};

use crate::ble_index::BleIndex;
use crate::candidates::Candidates;
use crate::first_free::FirstFree;
use crate::growing_cluster::GrowingCluster;
use crate::pins::input_count;
use arch_file::Arch;
use std::alloc::AllocError;

impl GrowingCluster {
    /// Adds members as long as a BLE may be added.
    fn grow(
        &mut self,
        arch: &Arch,
        elements: &BleIndex,
        is_taken: &[bool],
        by_outside: &mut FirstFree,
    ) -> Result<(), AllocError>
        requires arch { IsArch arch.now }
        requires growth { IsGrowingCluster elements.now.elements elements.now.nets self.old }
        requires by_outside { AreByOutside elements.now.elements is_taken.now by_outside.old }
        ensures members { IfOk result (λ _. self.new.members.items
            ≡ members_after arch.now elements.now.elements (free_in is_taken.now)
            self.old.members.items
            arch.now.cluster_size) }
        ensures within { All (λ number. number < length elements.now.elements)
            self.new.members.items }
        ensures room { IsRoomFor elements.now self.new }
        ensures keys { by_outside.new.keys.items ≡ by_outside.old.keys.items }
        ensures free { IsFirstFree is_taken.now by_outside.new }
    {
        let pins = input_count(arch);
        for added in 0..arch.cluster_size {
            let candidates = Candidates {
                arch,
                pins,
                elements,
                is_taken,
                growth: self,
            };
            match candidates.next_member(by_outside) {
                None => return Ok(()),
                Some(number) if self.members.len() + 1 == arch.cluster_size as usize => {
                    return self.fill(number);
                }
                Some(number) => self.add(elements, number)?,
            }
        }
        Ok(())
    }

    /// Chooses the members of a cluster among the BLEs that are not taken. `seed` must be the seed
    /// for these BLEs.
    pub(crate) fn choose(
        &mut self,
        arch: &Arch,
        elements: &BleIndex,
        is_taken: &[bool],
        by_outside: &mut FirstFree,
        seed: Option<usize>,
    ) -> Result<(), AllocError>
        requires fit { AllFit arch.now elements.now.elements }
        requires room { IsRoomFor elements.now self.old }
        requires by_outside { AreByOutside elements.now.elements is_taken.now by_outside.old }
        requires seed { seed ≡ first_most (input_count_at elements.now.elements)
            (free_in is_taken.now) }
        ensures members { IfOk result (λ _. self.new.members.items
            ≡ cluster_of arch.now elements.now.elements (free_in is_taken.now)) }
        ensures within { All (λ number. number < length elements.now.elements)
            self.new.members.items }
        ensures room { IsRoomFor elements.now self.new }
        ensures keys { by_outside.new.keys.items ≡ by_outside.old.keys.items }
        ensures free { IsFirstFree is_taken.now by_outside.new }
    {
        self.clear(elements);
        match seed {
            None => Ok(()),
            Some(seed) => {
                let seed = seed as u32;
                if arch.cluster_size == 1 {
                    return self.fill(seed);
                }
                self.add(elements, seed)?;
                self.grow(arch, elements, is_taken, by_outside)
            }
        }
    }
}
