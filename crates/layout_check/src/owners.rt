//! The table or latch that drives a net.
ghost use Rattle.std.specs.Prelude.{◌≡◌, ◌<◌, MatchBool, MatchOption, length, replicate};
ghost use Rattle.layout_check.specs.Prelude.{IsCircuit};
ghost use Rattle.layout_check.specs.NetOwners.{AreOwners, AreOwnersUpTo, owner_of};
ghost use Rattle.layout_check.specs.declared.owners.Owner.TheVariants.{Nothing};

use blif::Circuit;

/// The table or latch that drives a net, by its number in the circuit.
#[derive(Clone, Copy)]
pub(crate) enum Owner {
    Nothing,
    Table(usize),
    Latch(usize),
}

/// What drives the net.
pub(crate) fn owner_of(owners: &[Owner], net: u32) -> Owner
    ensures { result ≡ owner_of owners.now net }
{
    match owners.get(net as usize) {
        Some(owner) => *owner,
        None => Owner::Nothing,
    }
}

/// Whether the net is one of the circuit, and nothing owns it yet.
fn is_free(owners: &[Owner], net: u32) -> bool
    ensures { MatchBool result ((net < length owners.now) × (owner_of owners.now net ≡ Nothing))
        (net < length owners.now → owner_of owners.now net ≡ Nothing → ⊥) }
{
    match owners.get(net as usize) {
        Some(Owner::Nothing) => true,
        _ => false,
    }
}

/// Notes which nets the tables drive. A net that the circuit doesn't have, or that another table
/// drives too, ends this.
fn own_tables(circuit: &Circuit, owners: &mut Vec<Owner>) -> Option<u32>
    requires { AreOwnersUpTo circuit.now 0 0 owners.old.items }
    ensures { MatchOption result (AreOwnersUpTo circuit.now (length circuit.now.tables) 0 owners.new.items)
        (λ net. IsCircuit circuit.now → ⊥) }
{
    for number in 0..circuit.tables.len() {
        let net = circuit.tables.table(number).output;
        if !is_free(owners.as_slice(), net) {
            return Some(net);
        }
        owners[net as usize] = Owner::Table(number);
    }
    None
}

/// Notes which nets the latches drive.
fn own_latches(circuit: &Circuit, owners: &mut Vec<Owner>) -> Option<u32>
    requires { AreOwnersUpTo circuit.now (length circuit.now.tables) 0 owners.old.items }
    ensures { MatchOption result (AreOwners circuit.now owners.new.items) (λ net. IsCircuit circuit.now → ⊥) }
{
    let latches = circuit.latches.as_slice();
    for number in 0..latches.len() {
        let net = latches[number].output;
        if !is_free(owners.as_slice(), net) {
            return Some(net);
        }
        owners[net as usize] = Owner::Latch(number);
    }
    None
}

/// Notes which table or latch drives each net of the circuit. Returns a net that the circuit
/// doesn't have, or that it drives twice.
pub(crate) fn find_owners(circuit: &Circuit, owners: &mut Vec<Owner>) -> Option<u32>
    requires { owners.old.items ≡ replicate (length circuit.now.nets) Nothing }
    ensures { MatchOption result (AreOwners circuit.now owners.new.items) (λ net. IsCircuit circuit.now → ⊥) }
{
    match own_tables(circuit, owners) {
        Some(net) => Some(net),
        None => own_latches(circuit, owners),
    }
}
