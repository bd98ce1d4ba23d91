use arch_file::Arch;

/// The text limit of a device whose journals' texts have no limit.
pub const NO_TEXT_LIMIT: u64 = u64::MAX;

/// The device: its architecture, the numbers of its columns and rows of logic blocks, and how much
/// it keeps for each tenancy.
#[derive(Drop)]
pub struct Device {
    pub arch: Arch,
    /// Columns of logic blocks, 1 to 256.
    pub columns: u32,
    /// Rows of logic blocks, 1 to 64.
    pub rows: u32,
    /// The most bytes that the texts of one tenancy's journal may have; a text that many entries
    /// share counts once. A command that would exceed it is answered that memory ran out.
    pub text_limit: u64,
}
