//! How full the journals are.
ghost use Rattle.std.specs.Prelude.{◌≡◌, IfSome, is_some, length, option_map};
ghost use Rattle.service_core.specs.Service.{AreAlone, entries_in, live_of};
ghost use Rattle.service_core.specs.Texts.{CountAs};

use crate::service::{Service, is_live};

impl Service {
    /// The number of entries in a live tenancy's journal; `None` if the tenancy isn't live.
    pub fn entries(&self, id: u32) -> Option<u32>
        ensures value { result ≡ option_map (λ h. length h.entries)
            (live_of self.now.histories id) }
        ensures alone { AreAlone self.now }
    {
        if !is_live(&self.tenancies, id) {
            return None;
        }
        Some(self.tenancies[id as usize - 1].len())
    }

    /// The bytes that the texts of a live tenancy's journal count as: those of each text once, and
    /// none more often than it is there. `None` if the tenancy isn't live.
    pub fn text_bytes(&self, id: u32) -> Option<u64>
        ensures some { is_some result ≡ is_some (live_of self.now.histories id) }
        ensures counted { IfSome result (λ bytes. CountAs bytes
            (entries_in (live_of self.now.histories id))) }
    {
        if !is_live(&self.tenancies, id) {
            return None;
        }
        Some(self.tenancies[id as usize - 1].text_bytes())
    }
}
