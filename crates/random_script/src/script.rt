//! The script of a plan.

use crate::architecture::write_architecture;
use crate::circuit::write_circuit;
use crate::plan::{Phase, Plan};
use line_text::{Failed, Sink};
use text_parts::{Part, Pen};

/// How hard the placing tries.
const EFFORT: u32 = 20;

/// Writes the script of a plan. If the sink fails, it has taken a first part of it.
///
/// - The first line is a comment with the service's options for the plan's device:
///   `# fpgad --tracks W --columns NX --rows NY`.
/// - After it come the architecture, the admissions of tenancies by number, and for each its
///   session: `upload` with its netlist, then `pack`, `wait` and `net`, `place`, `wait` and
///   `placefile`, `route`, `wait` and `routefile`, and `status`, up to the plan's last phase.
/// - The last lines are `op list` and `op owners`.
pub fn write_script<K: Sink>(sink: &mut K, plan: Plan) -> Result<(), Failed> {
    let mut pen = Pen::new(sink);
    write_lines(&mut pen, plan);
    pen.end()
}

/// Writes the netlist of a plan's first circuit alone, as BLIF. If the sink fails, it has taken a
/// first part of it.
pub fn write_netlist<K: Sink>(sink: &mut K, plan: Plan) -> Result<(), Failed> {
    let mut pen = Pen::new(sink);
    write_circuit(&mut pen, plan, 1);
    pen.end()
}

/// Writes the lines of the script.
fn write_lines<K: Sink>(pen: &mut Pen<'_, K>, plan: Plan) {
    write_options(pen, plan);
    write_architecture(pen, plan);
    pen.text(".\n");
    for tenancy in 1..=plan.wishes.tenancies {
        write_admission(pen, tenancy, plan.width);
    }
    for tenancy in 1..=plan.wishes.tenancies {
        write_session(pen, plan, tenancy);
    }
    pen.text("op list\nop owners\n");
}

/// Writes the comment with the service's options.
fn write_options<K: Sink>(pen: &mut Pen<'_, K>, plan: Plan) {
    pen.write(&[
        Part::Text("# fpgad --tracks "),
        Part::Number(plan.tracks()),
        Part::Text(" --columns "),
        Part::Number(plan.columns()),
        Part::Text(" --rows "),
        Part::Number(plan.rows()),
        Part::Text("\n"),
    ]);
}

fn write_admission<K: Sink>(pen: &mut Pen<'_, K>, tenancy: u32, width: u32) {
    pen.write(&[
        Part::Text("op admit T"),
        Part::Number(tenancy),
        Part::Text(" "),
        Part::Number(width),
        Part::Text("\n"),
    ]);
}

fn write_session<K: Sink>(pen: &mut Pen<'_, K>, plan: Plan, tenancy: u32) {
    write_command(pen, tenancy, "upload");
    write_circuit(pen, plan, tenancy);
    pen.text(".\n");
    let until = plan.wishes.until;
    if until >= Phase::Packing {
        write_commands(pen, tenancy, &["pack", "wait", "net"]);
    }
    if until >= Phase::Placing {
        write_place(pen, tenancy, plan.wishes.seed);
        write_commands(pen, tenancy, &["wait", "placefile"]);
    }
    if until >= Phase::Routing {
        write_commands(pen, tenancy, &["route", "wait", "routefile"]);
    }
    write_command(pen, tenancy, "status");
}

/// Writes commands of a tenancy, one a line.
fn write_commands<K: Sink>(pen: &mut Pen<'_, K>, tenancy: u32, commands: &[&str]) {
    for command in commands {
        write_command(pen, tenancy, command);
    }
}

fn write_command<K: Sink>(pen: &mut Pen<'_, K>, tenancy: u32, command: &str) {
    pen.write(&[
        Part::Text("@T"),
        Part::Number(tenancy),
        Part::Text(" "),
        Part::Text(command),
        Part::Text("\n"),
    ]);
}

/// Writes the command to place.
fn write_place<K: Sink>(pen: &mut Pen<'_, K>, tenancy: u32, seed: u64) {
    pen.write(&[
        Part::Text("@T"),
        Part::Number(tenancy),
        Part::Text(" place "),
        Part::Long(seed),
        Part::Text(" "),
        Part::Number(EFFORT),
        Part::Text("\n"),
    ]);
}
