//! Comparison of netlist faults.
ghost use Rattle.std.specs.Prelude.{◌≡◌, ◌↔◌, IsTrue};

use blif::{BlifFault, BlifFaultKind};

/// Returns whether both are one fault, on one line, of one net.
pub(crate) fn same_faults(fault: &BlifFault, other: &BlifFault) -> bool
    ensures { IsTrue result ↔ (fault.now ≡ other.now) }
{
    fault.line == other.line && same_kind(&fault.kind, &other.kind)
}

/// Returns whether both are one kind of fault, of one net.
fn same_kind(kind: &BlifFaultKind, other: &BlifFaultKind) -> bool
    ensures { IsTrue result ↔ (kind.now ≡ other.now) }
{
    match (kind, other) {
        (BlifFaultKind::Unknown, BlifFaultKind::Unknown) => true,
        (BlifFaultKind::BadCover, BlifFaultKind::BadCover) => true,
        (BlifFaultKind::MixedCover, BlifFaultKind::MixedCover) => true,
        (BlifFaultKind::TooWide, BlifFaultKind::TooWide) => true,
        (BlifFaultKind::TwoDrivers(net), BlifFaultKind::TwoDrivers(same)) => net.same(same),
        (BlifFaultKind::Undriven(net), BlifFaultKind::Undriven(same)) => net.same(same),
        (BlifFaultKind::RepeatedOutput(net), BlifFaultKind::RepeatedOutput(same)) => net.same(same),
        (BlifFaultKind::BadLatch, BlifFaultKind::BadLatch) => true,
        (BlifFaultKind::NoModel, BlifFaultKind::NoModel) => true,
        (BlifFaultKind::OverLimit, BlifFaultKind::OverLimit) => true,
        (BlifFaultKind::NotAscii, BlifFaultKind::NotAscii) => true,
        (BlifFaultKind::LineTooLong, BlifFaultKind::LineTooLong) => true,
        _ => false,
    }
}
