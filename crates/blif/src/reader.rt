//! Reads the text of a netlist.
ghost use Rattle.std.specs.Prelude.{◌≡◌, ◌≤◌, ◌++◌, [], length, map, None, Some, IfOk, MatchResult};
ghost use Rattle.std.specs.List.{flat_map};
ghost use Rattle.line_text.specs.TextErrors.{Fails, Gives};
ghost use Rattle.line_text.specs.declared.text_error.TextError.TheVariants.{Fault};
ghost use Rattle.blif.specs.Numbering.{numbers_of};
ghost use Rattle.blif.specs.Names.{number_of, with_names};
ghost use Rattle.blif.specs.FirstFaults.{first_fault};
ghost use Rattle.blif.specs.declared.fault.BlifFaultKind.TheVariants.{Undriven};
ghost use Rattle.blif.specs.Keywords.{keyword_of};
ghost use Rattle.blif.specs.LineNets.{names_in};
ghost use Rattle.line_text.specs.LineOrder.{RisesFrom};
ghost use Rattle.blif.specs.Sights.{names_of, sights_of};
ghost use Rattle.blif.specs.Circuits.{circuit_from, model_of};
ghost use Rattle.blif.specs.LineByLine.{AreNetsOf, circuit_with, parts_of};
ghost use Rattle.blif.specs.CircuitOf.{IsLawfulFor, circuit_of, circuit_of_lines, declared_in, final_faults, line_faults, undriven_faults};

use crate::checker::Checker;
use crate::circuit::{Circuit, MAX_NETS};
use crate::driven::Driven;
use crate::fault::{BlifError, BlifFault, BlifFaultKind};
use crate::keyword::{Keyword, inputs_in, is_end, keyword_of};
use crate::latch_line::{control_of, is_latch};
use crate::net_names::NetNames;
use crate::nets::Nets;
use crate::parts::CircuitParts;
use line_text::{Line, Lines, MAX_TEXT, NameSet, Text, logical_lines};
use std::alloc::{AllocError, Global};

/// The circuit of a text whose tables have at most `lut_size` inputs, or the text's least fault.
pub fn read_blif(alloc: Global, text: &[u8], lut_size: u32) -> Result<Circuit, BlifError>
    ensures gives { Gives (circuit_of text.now lut_size) result }
    ensures lawful { IfOk result (IsLawfulFor lut_size) }
{
    if text.len() > MAX_TEXT {
        return Err(BlifError::Fault(BlifFault {
            line: 0,
            kind: BlifFaultKind::OverLimit,
        }));
    }
    let lines = match logical_lines(alloc, text) {
        Ok(lines) => lines,
        Err(error) => return Err(error.told_as()),
    };
    read_lines(alloc, &lines, lut_size)
}

/// The circuit of these lines, whose numbers increase, or their least fault.
fn read_lines(alloc: Global, lines: &Lines<'_>, lut_size: u32) -> Result<Circuit, BlifError>
    requires { RisesFrom 1 lines.now }
    ensures gives { Gives (circuit_of_lines lut_size lines.now) result }
    ensures lawful { IfOk result (IsLawfulFor lut_size) }
{
    let declared = declared_inputs(alloc, lines)?;
    let mut numbers = Nets::new(alloc);
    let checker = check_lines(alloc, lines, lut_size, declared, &mut numbers)?;
    build(alloc, lines, checker, numbers.as_slice())
}

/// The inputs that `.inputs` lines declare before the end.
fn declared_inputs<'t>(alloc: Global, lines: &Lines<'t>) -> Result<NameSet<'t>, AllocError>
    ensures { IfOk result (λ names. names ≡ declared_in lines.now) }
{
    let mut declared = NameSet::new(alloc);
    for place in 0..lines.len() {
        let line = lines.line(place);
        let keyword = keyword_of(&line);
        if is_end(keyword) {
            return Ok(declared);
        }
        declared.add_all(inputs_in(keyword, &line))?;
    }
    Ok(declared)
}

/// The state after all lines, with the number of each net that they name appended to `numbers`; or
/// the least of the lines' own faults.
fn check_lines<'t>(
    alloc: Global,
    lines: &Lines<'t>,
    lut_size: u32,
    declared: NameSet<'t>,
    numbers: &mut Nets,
) -> Result<Checker<'t>, BlifError>
    requires { numbers.old ≡ [] }
    ensures { MatchResult result
        (λ checker. (first_fault (line_faults lut_size declared.entry [] lines.now) ≡ None)
        × (checker ≡ sights_of declared.entry lines.now) × (length checker.nets ≤ MAX_NETS)
        × (numbers.new ≡ numbers_of [] (flat_map names_of lines.now)))
        (Fails (first_fault (line_faults lut_size declared.entry [] lines.now))) }
{
    let mut checker = Checker::new(alloc, declared);
    check_each(alloc, &mut checker, lines, lut_size, numbers)?;
    Ok(checker)
}

/// Checks the lines one after another, up to the first fault.
fn check_each<'t>(
    alloc: Global,
    checker: &mut Checker<'t>,
    lines: &Lines<'t>,
    lut_size: u32,
    numbers: &mut Nets,
) -> Result<(), BlifError>
    requires begun { checker.old ≡ sights_of checker.old.declared [] }
    requires numbers { numbers.old ≡ [] }
    ensures { MatchResult result
        (λ _. (first_fault (line_faults lut_size checker.old.declared [] lines.now) ≡ None)
        × (checker.new ≡ sights_of checker.old.declared lines.now)
        × (length checker.new.nets ≤ MAX_NETS)
        × (numbers.new ≡ numbers_of [] (flat_map names_of lines.now)))
        (Fails (first_fault (line_faults lut_size checker.old.declared [] lines.now))) }
{
    for place in 0..lines.len() {
        let line = lines.line(place);
        if let Some(kind) = checker.check(alloc, &line, lut_size, numbers)? {
            return Err(fault_at(line.number(), kind));
        }
    }
    Ok(())
}

/// This fault, on the line with this number.
fn fault_at(line: u32, kind: BlifFaultKind) -> BlifError
    ensures { result ≡ Fault (record { line = line; kind = kind }) }
{
    BlifError::Fault(BlifFault { line, kind })
}

/// The circuit of lines that have no fault of their own, or the first net that is read and not
/// driven. `numbers` are the numbers of the nets that the lines name.
fn build<'t>(
    alloc: Global,
    lines: &Lines<'t>,
    checker: Checker<'t>,
    numbers: &[u32],
) -> Result<Circuit, BlifError>
    requires sights { checker ≡ sights_of checker.declared lines.now }
    requires few { length checker.nets ≤ MAX_NETS }
    requires numbers { numbers.now ≡ map (number_of checker.nets) (flat_map names_of lines.now) }
    ensures { MatchResult result
        (λ circuit. (first_fault (final_faults checker.entry.declared lines.now) ≡ None)
        × (circuit ≡ circuit_from checker.entry.declared lines.now))
        (Fails (first_fault (final_faults checker.entry.declared lines.now))) }
{
    if lines.len() == 0 {
        drop(checker);
        return Err(fault_at(0, BlifFaultKind::NoModel));
    }
    match checker.into_driven(alloc) {
        Ok(driven) => build_driven(alloc, lines, driven, numbers),
        Err(error) => Err(error.into()),
    }
}

/// The circuit of lines with these nets, or the first net that is read and not driven.
fn build_driven<'t>(
    alloc: Global,
    lines: &Lines<'t>,
    driven: Driven<'t>,
    numbers: &[u32],
) -> Result<Circuit, BlifError>
    requires { AreNetsOf lines.now driven.nets numbers.now }
    ensures { MatchResult result
        (λ circuit. (first_fault
        (flat_map (undriven_faults (driven.entry.clocks ++ driven.entry.drivers)) lines.now) ≡ None)
        × (circuit ≡ circuit_with driven.entry.nets driven.entry.clocks lines.now
        (parts_of driven.entry.nets lines.now)))
        (Fails (first_fault (flat_map
        (undriven_faults (driven.entry.clocks ++ driven.entry.drivers)) lines.now))) }
{
    build_over(alloc, lines, &driven, numbers)
}

/// Builds the circuit over borrowed nets: the circuit, or the first net that is read and not
/// driven.
fn build_over<'t>(
    alloc: Global,
    lines: &Lines<'t>,
    driven: &Driven<'t>,
    numbers: &[u32],
) -> Result<Circuit, BlifError>
    requires { AreNetsOf lines.now driven.now.nets numbers.now }
    ensures { MatchResult result
        (λ circuit. (first_fault
        (flat_map (undriven_faults (driven.now.clocks ++ driven.now.drivers)) lines.now) ≡ None)
        × (circuit ≡ circuit_with driven.now.nets driven.now.clocks lines.now
        (parts_of driven.now.nets lines.now)))
        (Fails (first_fault (flat_map (undriven_faults (driven.now.clocks ++ driven.now.drivers))
        lines.now))) }
{
    let parts = parts_of(alloc, lines, driven, numbers)?;
    Ok(assemble(alloc, lines, driven, parts)?)
}

/// The circuit of these parts, with the clocks as inputs.
fn assemble<'t>(
    alloc: Global,
    lines: &Lines<'t>,
    driven: &Driven<'t>,
    mut parts: CircuitParts,
) -> Result<Circuit, AllocError>
    ensures { IfOk result (λ circuit.
        circuit ≡ circuit_with driven.now.nets driven.now.clocks lines.now parts) }
{
    let (model, nets) = name_parts(alloc, lines, driven, &mut parts)?;
    Ok(parts.into_circuit(model, nets))
}

/// Adds the clocks to these parts. Returns the model's name and the names of the nets.
fn name_parts<'t>(
    alloc: Global,
    lines: &Lines<'t>,
    driven: &Driven<'t>,
    parts: &mut CircuitParts,
) -> Result<(Text, NetNames), AllocError>
    ensures names { IfOk result (λ names. (names.0 ≡ model_of lines.now)
        × (names.1 ≡ driven.now.nets)) }
    ensures parts { IfOk result (λ _. parts.new
        ≡ record parts.old {
          inputs = parts.old.inputs ++ map (number_of driven.now.nets) driven.now.clocks;
        }) }
{
    parts.add_clocks(driven)?;
    let model = model_of(alloc, lines)?;
    let nets = net_names(alloc, driven.nets())?;
    Ok((model, nets))
}

/// The parts of the circuit, or the first net that is read and not driven.
fn parts_of<'t>(
    alloc: Global,
    lines: &Lines<'t>,
    driven: &Driven<'t>,
    numbers: &[u32],
) -> Result<CircuitParts, BlifError>
    requires { AreNetsOf lines.now driven.now.nets numbers.now }
    ensures { MatchResult result
        (λ parts. (first_fault (flat_map (undriven_faults (driven.now.clocks ++ driven.now.drivers))
        lines.now) ≡ None) × (parts ≡ parts_of driven.now.nets lines.now))
        (Fails (first_fault (flat_map (undriven_faults (driven.now.clocks ++ driven.now.drivers))
        lines.now))) }
{
    let mut parts = CircuitParts::new(alloc);
    add_lines(alloc, &mut parts, lines, driven, numbers)?;
    Ok(parts)
}

/// Adds the parts of the lines one after another, up to the first net that is read and not driven.
fn add_lines<'t>(
    alloc: Global,
    parts: &mut CircuitParts,
    lines: &Lines<'t>,
    driven: &Driven<'t>,
    numbers: &[u32],
) -> Result<(), BlifError>
    requires empty { parts.old ≡ parts_of driven.now.nets [] }
    requires all { AreNetsOf lines.now driven.now.nets numbers.now }
    ensures { MatchResult result
        (λ _. (first_fault (flat_map (undriven_faults (driven.now.clocks ++ driven.now.drivers))
        lines.now) ≡ None) × (parts.new ≡ parts_of driven.now.nets lines.now))
        (Fails (first_fault (flat_map (undriven_faults (driven.now.clocks ++ driven.now.drivers))
        lines.now))) }
{
    let mut rest = numbers;
    for place in 0..lines.len() {
        let line = lines.line(place);
        let keyword = keyword_of(&line);
        let (nets, others) = rest.split_at(net_count(keyword, &line));
        rest = others;
        if let Some(net) = parts.add_line(driven, &line, keyword, nets)? {
            return Err(undriven_at(alloc, line.number(), net));
        }
    }
    Ok(())
}

/// The fault that this net is read on the line with this number, and not driven.
fn undriven_at(alloc: Global, line: u32, net: &[u8]) -> BlifError
    ensures { Fails (Some (record { line = line; kind = Undriven net.now })) result }
{
    match Text::from_slice(alloc, net) {
        Ok(net) => fault_at(line, BlifFaultKind::Undriven(net)),
        Err(_) => BlifError::NoMemory,
    }
}

/// The number of nets that a line of this kind names.
fn net_count(keyword: Keyword, line: &Line<'_, '_>) -> usize
    ensures { result ≡ length (names_in keyword line.now.words) }
{
    let args = line.without_first();
    match keyword {
        Keyword::Inputs | Keyword::Outputs | Keyword::Clock | Keyword::Names => {
            args.words().len()
        }
        Keyword::Latch if is_latch(&args) => 2 + usize::from(control_of(&args).is_some()),
        _ => 0,
    }
}

/// The model's name, `top` if the first line has none.
fn model_of(alloc: Global, lines: &Lines<'_>) -> Result<Text, AllocError>
    ensures { IfOk result (λ model. model ≡ model_of lines.now) }
{
    if lines.len() == 0 {
        return Text::from_slice(alloc, b"top");
    }
    match lines.line(0).without_first().split_first() {
        None => Text::from_slice(alloc, b"top"),
        Some((name, _)) => Text::from_slice(alloc, name),
    }
}

/// The names in the circuit's form.
fn net_names(alloc: Global, names: &NameSet<'_>) -> Result<NetNames, AllocError>
    ensures { IfOk result (λ nets. nets ≡ names.now) }
{
    let mut nets = NetNames::new(alloc);
    for net in 0..names.len() {
        nets.push(names.name(net))?;
    }
    Ok(nets)
}
