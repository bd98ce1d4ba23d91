//! A packed circuit with many owners.
ghost use Rattle.std.specs.Prelude.{◌≡◌, IfErr, IfOk};

use crate::packed::Packed;
use std::alloc::{AllocError, AllocFailed, Global};
use std::marker::Model;
use std::sync::Arc;

/// A packed circuit with many owners, who share one copy. Its value is the packed circuit.
#[derive(Drop)]
pub struct SharedPacked {
    packed: Arc<Packed>,
}

impl Model for SharedPacked {
    ghost use Rattle.std.specs.Arc.{arc_value};
    ghost use Rattle.cluster.specs.Clusters.{PackedCircuit};

    ghost Value = { PackedCircuit };

    ghost view = { λ p. arc_value p.packed };
}

impl SharedPacked {
    /// Makes the packed circuit shared. If memory runs out it is handed back.
    pub fn new(alloc: Global, packed: Packed) -> Result<Self, AllocFailed<Packed>>
        ensures ok { IfOk result (λ shared. shared ≡ packed) }
        ensures back { IfErr result (λ refused. refused.value ≡ packed) }
    {
        Ok(SharedPacked {
            packed: Arc::new(alloc, packed)?,
        })
    }

    /// The packed circuit.
    pub fn packed(&self) -> &Packed
        ensures { result.now ≡ self.now }
    {
        &self.packed
    }
}

impl Clone for SharedPacked {
    ghost is_clone = { λ shared copy. copy ≡ shared };

    /// Adds an owner, without copying. Fails only if the number of owners overflows.
    fn clone(&self) -> Result<Self, AllocError> {
        Ok(SharedPacked {
            packed: self.packed.clone()?,
        })
    }
}
