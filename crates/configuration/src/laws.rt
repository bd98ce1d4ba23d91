//! What configurations keep.
ghost use Rattle.configuration.specs.Prelude.{Arch, IsCircuit, LookupTable, Circuit, IsStripSize, Strip, holds_table, Implements, Layout, traced_ble, JoinedLine};
ghost use Rattle.configuration.specs.Configuration.{configuration_of};
ghost use Rattle.configuration.specs.Things.{NameOnly, ShareNothing};
ghost use Rattle.configuration.specs.Wired.{AreBlesApart, Configures, HasOneDriver, HasValues, Spot};
ghost use Rattle.std.specs.Prelude.{◌≡◌, ◌+◌, ◌≤◌, ℕ, true, Contains, List};

/// Walked back, the configuration of a layout that implements a circuit connects what the circuit
/// connects, what one finds by walking back is all that one can find, and no two BLEs are at one
/// place, whoever made the layout.
pub fn laws_of_configurations()
    ensures connects { (lines : List JoinedLine) (circuit : Circuit) (arch : Arch) (strip : Strip)
        (layout : Layout) → IsStripSize strip → Implements circuit arch strip layout →
        Configures circuit arch strip layout (configuration_of lines circuit arch strip layout) }
    ensures one_driver { (lines : List JoinedLine) (circuit : Circuit) (arch : Arch)
        (strip : Strip) (layout : Layout) → Implements circuit arch strip layout →
        HasOneDriver arch strip (configuration_of lines circuit arch strip layout) }
    ensures apart { (circuit : Circuit) (arch : Arch) (strip : Strip) (layout : Layout) →
        IsStripSize strip → Implements circuit arch strip layout → AreBlesApart arch layout }
{}

/// A configuration names only what is of its strip. So the configurations of two strips on one
/// device name no common pin, wire, pad or place of a BLE, if an unused column is between the
/// strips: loading one of them changes nothing that the other one names.
pub fn own_things()
    ensures named { (lines : List JoinedLine) (circuit : Circuit) (arch : Arch) (strip : Strip)
        (layout : Layout) → IsStripSize strip → Implements circuit arch strip layout →
        NameOnly arch strip (configuration_of lines circuit arch strip layout) }
    ensures apart { (lines others : List JoinedLine) (circuit other_circuit : Circuit)
        (arch other_arch : Arch) (strip other_strip : Strip) (layout other_layout : Layout)
        (offset other_offset : ℕ) → IsStripSize strip → IsStripSize other_strip →
        Implements circuit arch strip layout →
        Implements other_circuit other_arch other_strip other_layout →
        offset + strip.width + 1 ≤ other_offset →
        ShareNothing offset (configuration_of lines circuit arch strip layout) other_offset
        (configuration_of others other_circuit other_arch other_strip other_layout) }
{}

/// The table of each BLE gives what the rows of the netlist's table say of the inputs' values, by
/// name. `netlist` are the lines of the netlist, and reading it gives `IsCircuit`.
pub fn values_are_rows()
    ensures { (netlist : List JoinedLine) (circuit : Circuit) (arch : Arch) (strip : Strip)
        (layout : Layout) → IsCircuit circuit → Implements circuit arch strip layout →
        (table : LookupTable) → Contains circuit.tables table → (spot : Spot layout) →
        holds_table circuit (traced_ble arch spot.laid spot.ble) table ≡ true →
        HasValues netlist circuit arch layout
        (configuration_of netlist circuit arch strip layout) spot table }
{}
