//! What layouts keep.
ghost use Rattle.implements.specs.Prelude.{Arch, IsNarrow, Circuit, ArePlaced, PackedCircuit, IsPacked, IsLawfulPacking, Strip, Place, IsLegal, Node};
ghost use Rattle.implements.specs.Connects.{Connects};
ghost use Rattle.implements.specs.Implements.{Implements};
ghost use Rattle.implements.specs.LayoutOf.{layout_of};
ghost use Rattle.implements.specs.Layouts.{Layout};
ghost use Rattle.std.specs.Prelude.{List};

/// A layout that implements a circuit connects each reader in the netlist with the driver that the
/// netlist names, whoever made the layout.
pub fn laws_of_layouts()
    ensures { (circuit : Circuit) (arch : Arch) (strip : Strip) (layout : Layout) →
        Implements circuit arch strip layout → Connects circuit arch strip layout }
{}

/// The layout that a packed circuit, its places and its legal routes print implements the circuit,
/// and so connects it. `laws_of_packing` gives `IsLawfulPacking`, placing gives `ArePlaced`,
/// routing gives `IsLegal`, and reading a netlist gives `IsNarrow`.
pub fn implements_results()
    ensures implements { (packed : PackedCircuit) (strip : Strip) (places : List Place)
        (routes : List (List (List Node))) → IsPacked packed
        → IsNarrow packed.arch.lut_size packed.circuit → IsLawfulPacking packed
        → ArePlaced strip packed places → IsLegal packed.arch strip packed places routes
        → Implements packed.circuit packed.arch strip (layout_of packed places routes) }
    ensures connects { (packed : PackedCircuit) (strip : Strip) (places : List Place)
        (routes : List (List (List Node))) → IsPacked packed
        → IsNarrow packed.arch.lut_size packed.circuit → IsLawfulPacking packed
        → ArePlaced strip packed places → IsLegal packed.arch strip packed places routes
        → Connects packed.circuit packed.arch strip (layout_of packed places routes) }
{}
