//! The law.
ghost use Rattle.arch_file.specs.Arch.{IsArch};
ghost use Rattle.arch_file.specs.declared.arch.Arch.{Arch};
ghost use Rattle.desk_common.specs.declared.outcome.Outcome.{Outcome};
ghost use Rattle.desk_layouts.specs.Refused.{AreReadAndRefused};
ghost use Rattle.desk_layouts.specs.declared.layout_input.LayoutPaths.{LayoutPaths};
ghost use Rattle.grid.specs.Sizes.{IsStripSize};
ghost use Rattle.grid.specs.declared.Strip.{Strip};
ghost use Rattle.layout_verdict.specs.Texts.{Texts};
ghost use Rattle.layout_verdict.specs.Verdicts.{IsVerdict};
ghost use Rattle.layout_verdict.specs.declared.verdict.Verdict.{Verdict};
ghost use Rattle.print_law.specs.Prints.{AreTextsOf, HasFiledLayout, IsAccepted, NamesNoOpen};
ghost use Rattle.print_law.specs.Tools.{HasFilesAt};
ghost use Rattle.std.specs.Prelude.{◌≡◌, ℕ, List, Option};
ghost use Rattle.tenant_slot.specs.SingleUser.{run};
ghost use Rattle.tenant_slot.specs.declared.event.Event.{Event};
ghost use Rattle.tenant_slot.specs.declared.reply.StateName.TheVariants.{Routed};

use cluster::laws_of_packing;
use grid::laws_of_places;
use implements::implements_results;
use layout_text::printed_results;
use least_path::least_path_law;
use pathfinder::{done_is_legal, strip_wiring};
use rr_graph::one_graph;
use strip_place::laws_of_passes;

/// Whatever the events of a tenancy were, in the state Routed the three files with which it is
/// answered are the print of a layout that implements the circuit of its text. This layout has the
/// form of a print, and files can say it. No name of its circuit has a space or a line end in it.
pub fn prints_are_filed()
    ensures { (arch : Arch) (strip : Strip) (events : List Event) → IsArch arch →
        IsStripSize strip →
        (run arch strip events).0.name ≡ Routed → HasFiledLayout (run arch strip events).0 }
{
    laws_of_places();
    laws_of_packing();
    laws_of_passes();
    one_graph();
    done_is_legal();
    implements_results();
    printed_results();
    least_path_law();
    strip_wiring();
}

/// So each verdict on the three files of a routed tenancy, with its own netlist, architecture and
/// strip, is that they implement this netlist, or that memory ran out. No net may be called `open`:
/// in a `.net` file this is a pin without a net.
pub fn prints_are_accepted()
    ensures { (arch : Arch) (strip : Strip) (events : List Event) (texts : Texts)
        (verdict : Verdict) → IsArch arch → IsStripSize strip →
        (run arch strip events).0.name ≡ Routed → NamesNoOpen (run arch strip events).0 →
        AreTextsOf (run arch strip events).0 texts → IsVerdict texts verdict →
        IsAccepted (run arch strip events).0 verdict }
{
    prints_are_filed();
}

/// So the tools `check` and `configure` never refuse the files of a routed tenancy, if they are
/// given its own netlist, architecture and strip. Again no net may be called `open`.
pub fn no_print_is_refused()
    ensures { (arch : Arch) (strip : Strip) (events : List Event)
        (text : List ℕ → Option (List ℕ)) (paths : LayoutPaths) (outcome : Outcome) → IsArch arch →
        IsStripSize strip →
        (run arch strip events).0.name ≡ Routed → NamesNoOpen (run arch strip events).0 →
        HasFilesAt (run arch strip events).0 text paths → AreReadAndRefused text paths outcome
        → ⊥ }
{
    prints_are_filed();
}
