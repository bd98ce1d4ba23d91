//! The table and the latch in a BLE.
ghost use Rattle.std.specs.Prelude.{◌≡◌, ◌∷◌, [], option_map};
ghost use Rattle.configuration_text.specs.Prelude.{Arch, LogicElement, LookupTable, latch_driving, table_driving, table_within, receives, LaidBle, LaidBlock, traced_ble};
ghost use Rattle.configuration_text.specs.Parts.{table_read};

use blif::{Circuit, Latch, Table};

/// The latch that drives the net.
pub fn latch_driving(circuit: &Circuit, net: u32) -> Option<Latch>
    ensures { result ≡ latch_driving circuit.now net }
{
    match circuit
        .latches
        .as_slice()
        .iter()
        .find(|latch| latch.output == net)
    {
        Some(latch) => Some(*latch),
        None => None,
    }
}

/// The table that drives the net.
fn table_driving(circuit: &Circuit, net: u32) -> Option<Table<'_>>
    ensures { option_map table_read result ≡ table_driving circuit.now net }
{
    for place in 0..circuit.tables.len() {
        let table = circuit.tables.table(place);
        if table.output == net {
            return Some(table);
        }
    }
    None
}

/// The table in the BLE of this name that receives these nets, if it has one.
pub(crate) fn table_within<'a>(circuit: &'a Circuit, name: u32, nets: &[u32]) -> Option<Table<'a>>
    ensures { (arch : Arch) (laid : LaidBlock) (ble : LaidBle) → ble.name ≡ name →
        (traced_ble arch laid ble).inputs ≡ nets.now →
        option_map table_read result ≡ table_within circuit.now arch laid ble }
{
    match latch_driving(circuit, name) {
        None => table_driving(circuit, name),
        Some(latch) => {
            if is_alone(nets, latch.input) {
                None
            } else {
                table_driving(circuit, latch.input)
            }
        }
    }
}

/// Whether this net is received, and no other one.
fn is_alone(nets: &[u32], net: u32) -> bool
    ensures { (element : LogicElement) → element.inputs ≡ nets.now →
        result ≡ receives element (net ∷ []) }
{
    match nets {
        [only] => *only == net,
        _ => false,
    }
}
