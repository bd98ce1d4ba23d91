//! The law.
ghost use Rattle.arch_file.specs.Arch.{IsArch};
ghost use Rattle.arch_file.specs.declared.arch.Arch.{Arch};
ghost use Rattle.grid.specs.Sizes.{IsStripSize};
ghost use Rattle.grid.specs.declared.Strip.{Strip};
ghost use Rattle.layout_law.specs.Tenancies.{AreLawfulTexts, FilesImplement, ImplementsItsText};
ghost use Rattle.std.specs.Prelude.{◌≡◌, ℕ, List};
ghost use Rattle.tenant_slot.specs.SingleUser.{run};
ghost use Rattle.tenant_slot.specs.declared.event.Event.{Event};
ghost use Rattle.tenant_slot.specs.declared.reply.StateName.TheVariants.{Routed};

use cluster::laws_of_packing;
use grid::laws_of_places;
use implements::implements_results;
use layout_text::printed_results;
use pathfinder::done_is_legal;
use rr_graph::one_graph;
use strip_place::laws_of_passes;

/// Each circuit that a text gives is lawful, and no table of it has more inputs than the reader
/// allows.
pub fn texts_are_lawful()
    ensures { (lut_size : ℕ) → AreLawfulTexts lut_size }
{}

/// Whatever the events of a tenancy were, in the state Routed its packing, its places and its
/// routes implement the circuit of its text, and so connect it; and the three files with which it
/// is answered there are the printing of a layout that implements the circuit.
pub fn routed_implements()
    ensures results { (arch : Arch) (strip : Strip) (events : List Event) → IsArch arch →
        IsStripSize strip →
        (run arch strip events).0.name ≡ Routed → ImplementsItsText (run arch strip events).0 }
    ensures files { (arch : Arch) (strip : Strip) (events : List Event) → IsArch arch →
        IsStripSize strip →
        (run arch strip events).0.name ≡ Routed → FilesImplement (run arch strip events).0 }
{
    laws_of_places();
    laws_of_packing();
    laws_of_passes();
    one_graph();
    done_is_legal();
    implements_results();
    printed_results();
}
