//! A device that tenancies share.
ghost use Rattle.std.specs.Prelude.{◌≡◌, is_some, IfSome, Some};
ghost use Rattle.desk_replies.specs.Prelude.{IsWithin, MAX_TRACKS, MAX_ROWS};
ghost use Rattle.desk_replies.specs.Sizes.{are_sizes};

use arch_file::MAX_TRACKS;
use grid::MAX_ROWS;

/// A device, of which each tenancy has a strip of columns.
#[derive(Clone, Copy)]
pub(crate) struct SharedDevice<'a> {
    /// The text of its architecture.
    pub(crate) arch: &'a [u8],
    /// 1 to 64.
    pub(crate) rows: u32,
    /// Tracks of each channel, 1 to 64.
    pub(crate) tracks: u32,
    ghost rows_lawful: { IsWithin 1 rows MAX_ROWS },
    ghost tracks_lawful: { IsWithin 1 tracks MAX_TRACKS },
}

impl<'a> SharedDevice<'a> {
    /// A device of that architecture; `None` if its rows or tracks are not within the limits.
    pub(crate) fn new(arch: &'a [u8], rows: u32, tracks: u32) -> Option<Self>
        ensures device { IfSome result (λ device. (device.arch.now ≡ arch.now)
            × (device.rows ≡ rows) × (device.tracks ≡ tracks)) }
        ensures sizes { is_some result ≡ are_sizes (Some rows) (Some tracks) }
    {
        if rows < 1 || rows > MAX_ROWS || tracks < 1 || tracks > MAX_TRACKS {
            return None;
        }
        Some(SharedDevice { arch, rows, tracks })
    }
}
