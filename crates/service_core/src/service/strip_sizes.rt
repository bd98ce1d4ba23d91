//! The device's rows, and the strips of the tenancies.
ghost use Rattle.std.specs.Prelude.{◌≡◌, option_map};
ghost use Rattle.service_core.specs.Prelude.{IsLaidOut, offset_of};
ghost use Rattle.service_core.specs.Headline.{AreParted};
ghost use Rattle.service_core.specs.Service.{AreAlone, live_of};

use crate::service::{Service, is_live};

impl Service {
    /// The number of the device's rows of logic blocks.
    pub fn rows(&self) -> u32
        ensures value { result ≡ self.now.device.rows }
    {
        self.rows
    }

    /// The width of a live tenancy's strip, in columns; `None` if the tenancy isn't live.
    pub fn width(&self, id: u32) -> Option<u32>
        ensures value { result ≡ option_map (λ h. h.strip.width) (live_of self.now.histories id) }
        ensures alone { AreAlone self.now }
    {
        if !is_live(&self.tenancies, id) {
            return None;
        }
        Some(self.tenancies[id as usize - 1].width())
    }

    /// The offset of a live tenancy's strip: the number of columns to the left of it. All strips
    /// are separated. `None` if the tenancy isn't live.
    pub fn offset(&self, id: u32) -> Option<u32>
        ensures value { result ≡ offset_of self.now.plan.strips id }
        ensures laid_out { IsLaidOut self.now.plan }
        ensures parted { AreParted self.now.device self.now }
        ensures alone { AreAlone self.now }
    {
        self.layout.offset(id)
    }
}
