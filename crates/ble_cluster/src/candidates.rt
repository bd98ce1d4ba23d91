//! Chooses the BLE that a growing cluster takes next.
ghost use Rattle.std.specs.Prelude.{◌≡◌, ◌<◌, ◌++◌, [], ◌∷◌, length, ◌&&◌, IfSome, IsTrue, None};
ghost use Rattle.ble_cluster.specs.Prelude.{input_count};
ghost use Rattle.ble_cluster.specs.Clusters.{elements_at, fits_in_cluster, may_join, next_member};
ghost use Rattle.ble_cluster.specs.Choosing.{AreCompared, beats};
ghost use Rattle.ble_cluster.specs.FirstFree.{AreByOutside, IsFirstFree};
ghost use Rattle.ble_cluster.specs.FreeBles.{free_in};
ghost use Rattle.ble_cluster.specs.GrowingCluster.{IsGrowingCluster};

use crate::ble_index::BleIndex;
use crate::first_free::FirstFree;
use crate::growing_cluster::GrowingCluster;
use arch_file::Arch;
use std::ops::Range;

/// The candidates for the growing cluster: BLEs that are not taken and fit with its members.
#[derive(Drop)]
pub(crate) struct Candidates<'a> {
    pub(crate) arch: &'a Arch,
    /// The number of a cluster's input pins.
    pub(crate) pins: usize,
    pub(crate) elements: &'a BleIndex,
    pub(crate) is_taken: &'a [bool],
    pub(crate) growth: &'a GrowingCluster,
    ghost all_pins: { pins ≡ input_count arch.now.pins },
    ghost under_way: { IsGrowingCluster elements.now.elements elements.now.nets growth.now },
    ghost marks: { length is_taken.now ≡ length elements.now.elements },
}

impl Candidates<'_> {
    ghost use Rattle.ble_cluster.specs.Taking.{AreLeft, IsBestSharing, IsFirstTaken, may_take};

    /// Whether the BLE is free and fits with the members.
    fn is_candidate(&self, number: u32) -> bool
        requires { number < length self.now.elements.now.elements }
        ensures { result ≡ may_take self.now number }
    {
        !self.is_taken[number as usize]
            && !self.growth.members.contains(&number)
            && self.fits(number)
    }

    /// Whether the members and the BLE fit into a cluster.
    fn fits(&self, number: u32) -> bool
        requires { number < length self.now.elements.now.elements }
        ensures { result ≡ fits_in_cluster self.now.arch.now
            (elements_at self.now.elements.now.elements
            (self.now.growth.now.members.items ++ number ∷ [])) }
    {
        if self.growth.members.len() >= self.arch.cluster_size as usize {
            return false;
        }
        let ble = self.elements.ble(number as usize);
        if !self.growth.agrees_on_clock(ble.clock) {
            return false;
        }
        self.growth.outside_with(self.elements, number) <= self.pins
    }

    /// Whether the BLE shares more nets with the members than the best so far, or equally many and
    /// has a lesser number.
    fn beats(&self, number: u32, best: Option<u32>) -> bool
        requires { AreCompared (length self.now.growth.now.gains) number best }
        ensures { result ≡ beats self.now.growth.now.gains number best }
    {
        match best {
            None => true,
            Some(best) => {
                let gain = self.growth.gains.of(number);
                let most = self.growth.gains.of(best);
                most < gain || (gain == most && number < best)
            }
        }
    }

    /// Whether the BLE is a candidate and is better than the best so far.
    fn prefers(&self, number: u32, best: Option<u32>) -> bool
        requires { AreCompared (length self.now.elements.now.elements) number best }
        ensures { result ≡ (beats self.now.growth.now.gains number best
            && may_take self.now number) }
    {
        self.beats(number, best) && self.is_candidate(number)
    }

    /// The best candidate among the BLEs that share a net with the members, if there is one.
    fn best_touched(&self) -> Option<u32>
        ensures { IsBestSharing self.now result }
    {
        let mut best = None;
        for number in self.growth.gains.sharing_bles() {
            if self.prefers(*number, best) {
                best = Some(*number);
            }
        }
        best
    }

    /// The least candidate in the range, whose end is the number of BLEs; no BLE before the range
    /// is a candidate.
    fn fitting_from(&self, numbers: Range<u32>) -> Option<u32>
        requires { AreLeft self.now numbers.start numbers.end }
        ensures { IsFirstTaken self.now result }
    {
        for number in numbers.start..numbers.end {
            if self.is_candidate(number) {
                return Some(number);
            }
        }
        None
    }

    /// The least candidate. No BLE that shares a net with the members may be a candidate. A BLE
    /// that shares none adds all its outside inputs, so the search begins at the first free BLE
    /// whose outside inputs fit.
    fn first_fitting(&self, by_outside: &mut FirstFree) -> Option<u32>
        requires by_outside { AreByOutside self.now.elements.now.elements self.now.is_taken.now
            by_outside.old }
        requires alone { IsBestSharing self.now None }
        ensures first { IsFirstTaken self.now result }
        ensures keys { by_outside.new.keys.items ≡ by_outside.old.keys.items }
        ensures free { IsFirstFree self.now.is_taken.now by_outside.new }
    {
        let count = self.elements.len() as u32;
        let room = self.pins.saturating_sub(self.growth.outside);
        match by_outside.first_within(self.is_taken, room) {
            None => None,
            Some(start) => { self.fitting_from(start as u32..count) }
        }
    }

    /// The BLE to take next: of the candidates the one that shares most nets with the members; of
    /// several, the one with the least number.
    pub(crate) fn next_member(&self, by_outside: &mut FirstFree) -> Option<u32>
        requires { AreByOutside self.now.elements.now.elements self.now.is_taken.now
            by_outside.old }
        ensures next { result ≡ next_member self.now.arch.now self.now.elements.now.elements
            (free_in self.now.is_taken.now) self.now.growth.now.members.items }
        ensures joins { IfSome result (λ number. (number < length self.now.elements.now.elements)
            × IsTrue (may_join self.now.arch.now self.now.elements.now.elements
            self.now.growth.now.members.items number)) }
        ensures keys { by_outside.new.keys.items ≡ by_outside.old.keys.items }
        ensures free { IsFirstFree self.now.is_taken.now by_outside.new }
    {
        if self.growth.members.len() >= self.arch.cluster_size as usize {
            return None;
        }
        match self.best_touched() {
            Some(number) => Some(number),
            None => self.first_fitting(by_outside),
        }
    }
}
