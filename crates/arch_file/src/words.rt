//! The keywords of the architecture file.
ghost use Rattle.std.specs.Prelude.{◌≡◌, ◌<◌, option_map};
ghost use Rattle.arch_file.specs.Ranks.{rank_of};
ghost use Rattle.arch_file.specs.Words.{is_pin_keyword, is_unread, keyword_of, only_word, required_keywords, same_keyword, text_of};

use crate::fault::ArchKeyword;
use line_text::{Line, is_word};

/// All keywords: the two for pins, and then the required ones in the order in which missing ones
/// are reported.
const KEYWORDS: [ArchKeyword; 14] = [
    ArchKeyword::Inpin,
    ArchKeyword::Outpin,
    ArchKeyword::IoRat,
    ArchKeyword::ChanWidthIo,
    ArchKeyword::ChanWidthX,
    ArchKeyword::ChanWidthY,
    ArchKeyword::SubblocksPerClb,
    ArchKeyword::SubblockLutSize,
    ArchKeyword::FcType,
    ArchKeyword::FcOutput,
    ArchKeyword::FcInput,
    ArchKeyword::FcPad,
    ArchKeyword::SwitchBlockType,
    ArchKeyword::Segment,
];

impl ArchKeyword {
    /// Its spelling.
    fn text(self) -> &'static str
        ensures { result.now ≡ text_of self }
    {
        match self {
            ArchKeyword::IoRat => "io_rat",
            ArchKeyword::ChanWidthIo => "chan_width_io",
            ArchKeyword::ChanWidthX => "chan_width_x",
            ArchKeyword::ChanWidthY => "chan_width_y",
            ArchKeyword::Inpin => "inpin",
            ArchKeyword::Outpin => "outpin",
            ArchKeyword::SubblocksPerClb => "subblocks_per_clb",
            ArchKeyword::SubblockLutSize => "subblock_lut_size",
            ArchKeyword::FcType => "Fc_type",
            ArchKeyword::FcOutput => "Fc_output",
            ArchKeyword::FcInput => "Fc_input",
            ArchKeyword::FcPad => "Fc_pad",
            ArchKeyword::SwitchBlockType => "switch_block_type",
            ArchKeyword::Segment => "segment",
        }
    }

    /// Its index among all keywords, from 0.
    pub(crate) fn rank(self) -> usize
        ensures place { result ≡ rank_of self }
        ensures below { result < 14 }
    {
        match self {
            ArchKeyword::IoRat => 0,
            ArchKeyword::ChanWidthIo => 1,
            ArchKeyword::ChanWidthX => 2,
            ArchKeyword::ChanWidthY => 3,
            ArchKeyword::SubblocksPerClb => 4,
            ArchKeyword::SubblockLutSize => 5,
            ArchKeyword::FcType => 6,
            ArchKeyword::FcOutput => 7,
            ArchKeyword::FcInput => 8,
            ArchKeyword::FcPad => 9,
            ArchKeyword::SwitchBlockType => 10,
            ArchKeyword::Segment => 11,
            ArchKeyword::Inpin => 12,
            ArchKeyword::Outpin => 13,
        }
    }

    /// Whether its lines describe pins.
    pub(crate) fn is_pin(self) -> bool
        ensures { result ≡ is_pin_keyword self }
    {
        matches!(self, ArchKeyword::Inpin | ArchKeyword::Outpin)
    }

    pub(crate) fn is_segment(self) -> bool
        ensures { result ≡ same_keyword self ArchKeyword.Segment }
    {
        matches!(self, ArchKeyword::Segment)
    }
}

/// The required keywords, in the order in which missing ones are reported.
pub(crate) fn required_keywords() -> &'static [ArchKeyword]
    ensures { result.now ≡ required_keywords }
{
    &KEYWORDS[2..]
}

/// The keyword with this spelling.
#[tactic(auto, unfolding(crate::specs::Words::keyword_of))]
pub(crate) fn keyword_of(word: &[u8]) -> Option<ArchKeyword>
    ensures { result ≡ keyword_of word.now }
{
    KEYWORDS
        .iter()
        .copied()
        .find(|keyword| is_word(word, keyword.text()))
}

/// Whether lines that begin with this word are skipped.
#[tactic(auto, unfolding(crate::specs::Words::is_unread))]
pub(crate) fn is_unread(word: &[u8]) -> bool
    ensures { result ≡ is_unread word.now }
{
    is_word(word, "switch")
        || word.starts_with(b"R_")
        || word.starts_with(b"C_")
        || word.starts_with(b"T_")
}

/// The only word of the line.
pub(crate) fn only_word<'t>(line: &Line<'_, 't>) -> Option<&'t [u8]>
    ensures { option_map (λ word. word.now) result ≡ only_word line.now.words }
{
    match line.words() {
        [word] => Some(*word),
        _ => None,
    }
}
