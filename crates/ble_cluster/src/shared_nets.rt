//! The nets that BLEs share with the growing cluster.
ghost use Rattle.std.specs.Prelude.{◌≡◌, ◌<◌, ◌+◌, length, IfErr, IfOk, slice_set};
ghost use Rattle.ble_cluster.specs.SharedNets.{AreRaised, AreTouched, MayRise, MayRiseAt, ShareNothing, gain_at};

use std::alloc::{AllocError, Global};
use std::marker::Model;

/// The number of nets that each BLE shares with the growing cluster. Its value is the list of these
/// counts.
#[derive(Drop)]
pub(crate) struct SharedNets {
    gains: Vec<u32>,
    touched: Vec<u32>,
}

impl Model for SharedNets {
    ghost use Rattle.std.specs.Prelude.{List, ℕ};
    ghost use Rattle.ble_cluster.specs.SharedNets.{AreTouched};

    ghost Value = { List ℕ };

    ghost view = { λ g. g.gains.items };

    ghost invariant = { λ g. AreTouched g.gains.items g.touched.items };
}

impl SharedNets {
    /// The counts of this number of BLEs, all 0.
    pub(crate) fn new(alloc: Global, count: usize) -> Result<Self, AllocError>
        ensures count { IfOk result (λ gains. length gains ≡ count) }
        ensures none { IfOk result ShareNothing }
    {
        Ok(SharedNets {
            gains: Vec::from_elem(alloc, 0, count)?,
            touched: Vec::new(alloc),
        })
    }

    /// The number of nets that the BLE shares.
    pub(crate) fn of(&self, number: u32) -> u32
        requires { number < length self.now }
        ensures { result ≡ gain_at self.now number }
    {
        self.gains[number as usize]
    }

    /// The BLEs that share at least one net.
    pub(crate) fn sharing_bles(&self) -> &[u32]
        ensures { AreTouched self.now result.now }
    {
        self.touched.as_slice()
    }

    /// Adds one to the counts of these BLEs, which are all different. If memory runs out, some of
    /// the counts may have been increased.
    pub(crate) fn raise(&mut self, numbers: &[u32]) -> Result<(), AllocError>
        requires { MayRise self.old numbers.now }
        ensures count { length self.new ≡ length self.old }
        ensures raised { IfOk result (λ _. AreRaised self.old self.new numbers.now) }
    {
        for number in numbers {
            self.raise_one(*number)?;
        }
        Ok(())
    }

    /// Adds one to the count of the BLE. If memory runs out nothing changes.
    fn raise_one(&mut self, number: u32) -> Result<(), AllocError>
        requires { MayRiseAt self.old number }
        ensures ok { IfOk result (λ _. self.new
            ≡ slice_set self.old number (gain_at self.old number + 1)) }
        ensures err { IfErr result (λ _. self.new ≡ self.old) }
    {
        if self.gains[number as usize] == 0 {
            self.touched.push(number)?;
        }
        self.gains[number as usize] += 1;
        Ok(())
    }

    /// Sets all counts to 0.
    pub(crate) fn clear(&mut self)
        ensures count { length self.new ≡ length self.old }
        ensures none { ShareNothing self.new }
    {
        forget(self.gains.as_mut_slice(), self.touched.as_slice());
        self.touched.clear();
    }
}

/// Sets the counts of these BLEs to 0; all other counts are already 0.
fn forget(gains: &mut [u32], touched: &[u32])
    requires { AreTouched gains.old touched.now }
    ensures count { length gains.new ≡ length gains.old }
    ensures none { ShareNothing gains.new }
{
    for number in touched {
        gains[*number as usize] = 0;
    }
}
