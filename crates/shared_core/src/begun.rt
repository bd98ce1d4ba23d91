//! The service that a core was made with.
use std::marker::Brand;
use std::sync::ledger::Ledger;

/// What a core begins with. The ledger of its commands says so, and everybody who gets the core
/// under its lock knows it.
pub trait Begun: Ledger {
    ghost use Rattle.std.specs.Prelude.{Bool};
    ghost use Rattle.service_core.specs.Service.{ServiceState};

    /// The service that the core was made with.
    ghost begun: { ServiceState };

    /// Whether the tenancies stay: none is admitted, ended or moved.
    ghost stay: { Bool };
}

impl Begun for Brand {
    ghost use Rattle.std.specs.Prelude.{false};
    ghost use Rattle.shared_core.specs.Following.{no_service};

    ghost begun = { no_service };

    ghost stay = { false };
}
