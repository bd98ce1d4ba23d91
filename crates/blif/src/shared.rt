//! A circuit with many owners.
ghost use Rattle.std.specs.Prelude.{◌≡◌, IfErr, IfOk};
ghost use Rattle.blif.specs.LawfulCircuits.{IsCircuit};

use crate::circuit::Circuit;
use std::alloc::{AllocError, AllocFailed, Global};
use std::marker::Model;
use std::sync::Arc;

/// A circuit with many owners, who share one copy. Its value is the circuit.
#[derive(Drop)]
pub struct SharedCircuit {
    circuit: Arc<Circuit>,
}

impl Model for SharedCircuit {
    ghost use Rattle.std.specs.Arc.{arc_value};
    ghost use Rattle.blif.specs.declared.circuit.Circuit.{Circuit};
    ghost use Rattle.blif.specs.LawfulCircuits.{IsCircuit};

    ghost Value = { Circuit };

    ghost view = { λ c. arc_value c.circuit };

    ghost invariant = { λ c. IsCircuit (arc_value c.circuit) };
}

impl SharedCircuit {
    /// Makes the circuit shared. If memory runs out the circuit is handed back.
    pub fn new(alloc: Global, circuit: Circuit) -> Result<Self, AllocFailed<Circuit>>
        requires { IsCircuit circuit }
        ensures ok { IfOk result (λ shared. shared ≡ circuit) }
        ensures back { IfErr result (λ refused. refused.value ≡ circuit) }
    {
        Ok(SharedCircuit {
            circuit: Arc::new(alloc, circuit)?,
        })
    }

    /// The circuit.
    pub fn circuit(&self) -> &Circuit
        ensures value { result.now ≡ self.now }
        ensures lawful { IsCircuit self.now }
    {
        &self.circuit
    }

    /// The circuit is lawful. Does nothing.
    pub fn laws(&self)
        ensures { IsCircuit self.now }
    {
        let _ = self.circuit();
    }
}

impl Clone for SharedCircuit {
    ghost is_clone = { λ shared copy. copy ≡ shared };

    /// Adds an owner, without copying. Fails only if the number of owners overflows.
    fn clone(&self) -> Result<Self, AllocError> {
        Ok(SharedCircuit {
            circuit: self.circuit.clone()?,
        })
    }
}
