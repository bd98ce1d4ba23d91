//! How often nets are read.
ghost use Rattle.std.specs.Prelude.{◌≡◌, ◌<◌, ◌==◌, ℕ, List, [], ◌∷◌, count_by, length, map, replicate};
ghost use Rattle.std.specs.List.{flat_map};
ghost use Rattle.std.specs.Option.{option_to_list};
ghost use Rattle.layout_check.specs.Prelude.{reads_of};
ghost use Rattle.layout_check.specs.NetOwners.{AreCounts, CountsOn};

use blif::{Circuit, Latch, Tables};

/// Counts one read of the net, up to 255.
fn count(counts: &mut Vec<u8>, net: u32)
    ensures { CountsOn counts.old.items (net ∷ []) counts.new.items }
{
    let net = net as usize;
    if net < counts.len() {
        counts[net] = counts[net].saturating_add(1);
    }
}

/// Counts one read of each of the nets.
fn count_all(counts: &mut Vec<u8>, nets: &[u32])
    ensures { CountsOn counts.old.items nets.now counts.new.items }
{
    for net in nets {
        count(counts, *net);
    }
}

/// Counts the reads by tables.
fn count_tables(counts: &mut Vec<u8>, tables: &Tables)
    ensures { CountsOn counts.old.items (flat_map (λ table. table.inputs) tables.now) counts.new.items }
{
    for number in 0..tables.len() {
        count_all(counts, tables.table(number).inputs);
    }
}

/// Counts the reads by latches that store a net.
fn count_latches(counts: &mut Vec<u8>, latches: &[Latch])
    ensures { CountsOn counts.old.items (map (λ latch. latch.input) latches.now) counts.new.items }
{
    for latch in latches {
        count(counts, latch.input);
    }
}

/// Counts the reads by controls of latches.
fn count_controls(counts: &mut Vec<u8>, latches: &[Latch])
    ensures { CountsOn counts.old.items (flat_map (λ latch. option_to_list latch.control) latches.now) counts.new.items }
{
    for latch in latches {
        if let Some(control) = latch.control {
            count(counts, control);
        }
    }
}

/// Counts all reads of the circuit, from zeros.
pub(crate) fn count_reads(counts: &mut Vec<u8>, circuit: &Circuit)
    requires { counts.old.items ≡ replicate (length circuit.now.nets) 0 }
    ensures long { length counts.new.items ≡ length circuit.now.nets }
    ensures exact { AreCounts (reads_of circuit.now) counts.new.items }
{
    count_tables(counts, &circuit.tables);
    count_latches(counts, circuit.latches.as_slice());
    count_controls(counts, circuit.latches.as_slice());
    count_all(counts, circuit.outputs.as_slice());
}

/// Whether the net is read exactly once, by these counts.
pub(crate) fn is_single(counts: &[u8], net: u32) -> bool
    requires { net < length counts.now }
    ensures { (reads : List ℕ) → AreCounts reads counts.now → result ≡ (count_by (λ read. read == net) reads == 1) }
{
    counts[net as usize] == 1
}
