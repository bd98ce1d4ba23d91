//! An architecture with many owners.
ghost use Rattle.std.specs.Prelude.{◌≡◌, IfErr, IfOk};
ghost use Rattle.arch_file.specs.Arch.{IsArch};

use crate::arch::Arch;
use std::alloc::{AllocError, AllocFailed, Global};
use std::marker::Model;
use std::sync::Arc;

/// An architecture with many owners, who share one copy. Its value is the architecture.
#[derive(Drop)]
pub struct SharedArch {
    arch: Arc<Arch>,
}

impl Model for SharedArch {
    ghost use Rattle.std.specs.Arc.{arc_value};
    ghost use Rattle.arch_file.specs.declared.arch.Arch.{Arch};
    ghost use Rattle.arch_file.specs.Arch.{IsArch};

    ghost Value = { Arch };

    ghost view = { λ a. arc_value a.arch };

    ghost invariant = { λ a. IsArch (arc_value a.arch) };
}

impl SharedArch {
    /// Makes the architecture shared. If memory runs out the architecture is handed back.
    pub fn new(alloc: Global, arch: Arch) -> Result<Self, AllocFailed<Arch>>
        requires { IsArch arch }
        ensures ok { IfOk result (λ shared. shared ≡ arch) }
        ensures back { IfErr result (λ refused. refused.value ≡ arch) }
    {
        Ok(SharedArch {
            arch: Arc::new(alloc, arch)?,
        })
    }

    /// The architecture.
    pub fn arch(&self) -> &Arch
        ensures value { result.now ≡ self.now }
        ensures lawful { IsArch self.now }
    {
        &self.arch
    }

    /// The architecture is lawful. Does nothing.
    pub fn laws(&self)
        ensures { IsArch self.now }
    {
        let _ = self.arch();
    }
}

impl Clone for SharedArch {
    ghost is_clone = { λ shared copy. copy ≡ shared };

    /// Adds an owner, without copying. Fails only if the number of owners overflows.
    fn clone(&self) -> Result<Self, AllocError> {
        Ok(SharedArch {
            arch: self.arch.clone()?,
        })
    }
}
