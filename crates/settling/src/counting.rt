//! Merges the parts of the ledgers.
ghost use Rattle.std.specs.Prelude.{◌≡◌, length};
ghost use Rattle.settling.specs.Settling.{puts_counted, receipts_in};

use shared_core::{Begun, Share};
use std::sync::ledger;
use std::sync::ledger::Ledger;
use transcripts::Transcript;

/// Adds the leases' parts up.
pub(crate) fn merge_leases<C: Begun>(
    transcripts: Vec<Transcript<C>>,
    nothing: ledger::Share<C>,
) -> ledger::Share<C>
    requires { (nothing.parts ≡ 0) × (nothing.amount ≡ 0) }
    ensures parts { result.parts ≡ length transcripts.items }
    ensures amount { result.amount ≡ receipts_in transcripts.items }
{
    let mut all = nothing;
    let mut left = transcripts;
    while let Some(transcript) = left.pop() {
        all.merge(transcript.into_lease().into_part());
    }
    all
}

/// Adds the shares' parts up.
pub(crate) fn merge_shares<P: Ledger>(
    shares: Vec<Share<P>>,
    nothing: ledger::Share<P>,
) -> ledger::Share<P>
    requires { (nothing.parts ≡ 0) × (nothing.amount ≡ 0) }
    ensures parts { result.parts ≡ length shares.items }
    ensures amount { result.amount ≡ puts_counted shares.items }
{
    let mut all = nothing;
    let mut left = shares;
    while let Some(share) = left.pop() {
        all.merge(share.into_part());
    }
    all
}
