//! The `.route` file: the nets, and the nodes of their routes.
ghost use Rattle.std.specs.Prelude.{◌≡◌, ◌≤◌, ◌++◌, ◌∷◌, [], length, false, IfOk, IfSome, OnOk};
ghost use Rattle.strip_files.specs.declared.route_text.Net.{Net};
ghost use Rattle.strip_files.specs.declared.route_node.RouteNode.{RouteNode};
ghost use Rattle.strip_files.specs.NetLines.{AreNamed, IsLineOfNet, IsNetLine, IsNetReadOn, word_end};
ghost use Rattle.strip_files.specs.NodeLines.{AreTold, IsReadOn, IsTailOf, is_node_line, node_lines};
ghost use Rattle.strip_files.specs.Starts.{AddsTo, AreBegun, first_nodes, is_net_line};

use crate::fault::{Fault, File, FileFault, in_file};
use crate::node_line::{read_node, take_kind};
use crate::place_text::size_in;
use crate::route_node::RouteNode;
use crate::size::StripSize;
use crate::steps::can_lead;
use line_text::{TextError, is_word, split_line};
use rr_graph::{Node, NodeKind};
use std::alloc::Global;
use text_parts::Scanner;

/// The largest number of nets of a netlist.
const MAX_NETS: usize = 8192;

/// A net of a `.route` file.
#[derive(Clone, Copy)]
pub struct Net<'t> {
    pub name: &'t [u8],
    /// Whether the net uses the global network, and has no route.
    pub is_global: bool,
    /// The number of its first line.
    pub line: usize,
    /// The index, among the strip's nodes, of its route's first one. The others follow, up to the
    /// next net's first.
    pub first_node: usize,
}

/// The part of the file that a line is in.
#[derive(Clone, Copy, PartialEq, Eq)]
pub(crate) enum Section {
    /// The first line, which has the size.
    Size,
    /// Before the line `Routing:`.
    Before,
    /// After it.
    Nets,
}

/// The contents of a `.route` file.
#[derive(Drop)]
pub(crate) struct Routed<'t> {
    pub(crate) nets: Vec<Net<'t>>,
    /// The nodes of all routes, net by net.
    pub(crate) nodes: Vec<RouteNode>,
    pub(crate) section: Section,
}

impl<'t> Routed<'t> {
    /// Reads the lines of the `.route` file of a strip of that size.
    pub(crate) fn read(
        alloc: Global,
        text: &'t [u8],
        size: StripSize,
    ) -> Result<Self, TextError<FileFault>>
        ensures nodes { IfOk result (λ routed. AreTold (node_lines text.now) routed.nodes.items) }
        ensures nets { IfOk result (λ routed. AreBegun text.now routed.nets.items) }
        ensures names { IfOk result (λ routed. AreNamed text.now routed.nets.items) }
    {
        let mut routed = Routed {
            nets: Vec::new(alloc),
            nodes: Vec::new(alloc),
            section: Section::Size,
        };
        let mut number = 0usize;
        let mut rest = text;
        while !rest.is_empty() {
            let (line, later) = split_line(rest);
            number = number.saturating_add(1);
            if let Err(error) = routed.line(line, number, size) {
                return Err(in_file(error, File::Route, number));
            }
            rest = later;
        }
        if routed.section != Section::Nets || routed.is_inside_path() {
            return Err(in_file(TextError::Fault(Fault::Unfinished), File::Route, number));
        }
        Ok(routed)
    }

    /// Reads the line of that number.
    fn line(
        &mut self,
        line: &'t [u8],
        number: usize,
        size: StripSize,
    ) -> Result<(), TextError<Fault>>
        ensures nodes { OnOk result (IsReadOn line.now self.old.nodes.items self.new.nodes.items) }
        ensures names { OnOk result (IsNetReadOn line.now self.old.nets.items self.new.nets.items) }
        ensures nets { OnOk result (AddsTo (is_node_line line.now) (is_net_line line.now)
            (length self.old.nodes.items) (length self.new.nodes.items)
            (first_nodes self.old.nets.items) (first_nodes self.new.nets.items)) }
    {
        let mut scanner = Scanner::new(line);
        match take_kind(&mut scanner) {
            Some(kind) => self.node(size, kind, scanner),
            None => self.read_other(line, number, size),
        }
    }

    /// Reads the end of the line of a node of that kind.
    fn node(
        &mut self,
        size: StripSize,
        kind: NodeKind,
        tail: Scanner<'_>,
    ) -> Result<(), TextError<Fault>>
        ensures nodes { OnOk result ((read : RouteNode)
            × (self.new.nodes.items ≡ self.old.nodes.items ++ read ∷ []) × (read.node.kind ≡ kind)
            × IsTailOf tail.entry read.node) }
        ensures nets { OnOk result (self.new.nets.items ≡ self.old.nets.items) }
    {
        if self.nets.is_empty() {
            return Err(TextError::Fault(Fault::UnknownLine));
        }
        match read_node(size, kind, tail) {
            Ok(node) => {
                if !self.leads_to(size.rows, node.node) {
                    return Err(TextError::Fault(Fault::NoStep));
                }
                self.nodes.push(node)?;
                Ok(())
            }
            Err(fault) => Err(TextError::Fault(fault)),
        }
    }

    /// The nodes of the last net.
    fn last_nodes(&self) -> &[RouteNode] {
        let first = self.nets.last().map_or(0, |net| net.first_node);
        let (_, nodes) = self.nodes.split_at(first.min(self.nodes.len()));
        nodes
    }

    /// Whether the last path of the last net has not ended at a sink.
    fn is_inside_path(&self) -> bool {
        match self.last_nodes().last() {
            Some(read) => read.node.kind != NodeKind::Sink,
            None => false,
        }
    }

    /// Whether the node can be the next one: an edge leads to it from the node before, or a path
    /// begins there, the first one of a net at a source, a later one at a node of an earlier one.
    fn leads_to(&self, rows: u32, node: Node) -> bool {
        let nodes = self.last_nodes();
        match nodes.last() {
            None => node.kind == NodeKind::Source,
            Some(read) if read.node.kind == NodeKind::Sink => {
                nodes.iter().any(|earlier| earlier.node == node)
            }
            Some(read) => can_lead(rows, read.node, node),
        }
    }

    /// Reads a line that isn't a node's.
    fn read_other(
        &mut self,
        line: &'t [u8],
        number: usize,
        size: StripSize,
    ) -> Result<(), TextError<Fault>>
        ensures nodes { self.new.nodes.items ≡ self.old.nodes.items }
        ensures nets { OnOk result (AddsTo false (is_net_line line.now)
            (length self.old.nodes.items) (length self.new.nodes.items)
            (first_nodes self.old.nets.items) (first_nodes self.new.nets.items)) }
        ensures names { OnOk result (IsNetReadOn line.now self.old.nets.items self.new.nets.items) }
    {
        if line.starts_with(b"Net ") {
            self.read_net(line, number)
        } else {
            self.read_between(line, size)
        }
    }

    /// Reads the first line of a net, where one may be.
    fn read_net(&mut self, line: &'t [u8], number: usize) -> Result<(), TextError<Fault>>
        ensures nodes { self.new.nodes.items ≡ self.old.nodes.items }
        ensures nets { OnOk result (first_nodes self.new.nets.items
            ≡ first_nodes self.old.nets.items ++ length self.old.nodes.items ∷ []) }
        ensures names { OnOk result ((net : Net)
            × (self.new.nets.items ≡ self.old.nets.items ++ net ∷ [])
            × IsLineOfNet (length self.old.nets.items) line.now net) }
    {
        match self.section {
            Section::Size => Err(TextError::Fault(Fault::BadSize)),
            Section::Before => Err(TextError::Fault(Fault::UnknownLine)),
            Section::Nets if self.is_inside_path() => Err(TextError::Fault(Fault::OpenPath)),
            Section::Nets => self.net(line, number),
        }
    }

    /// Reads a line that is neither a node's nor the first one of a net.
    fn read_between(&mut self, line: &[u8], size: StripSize) -> Result<(), TextError<Fault>>
        ensures nodes { self.new.nodes.items ≡ self.old.nodes.items }
        ensures nets { self.new.nets.items ≡ self.old.nets.items }
    {
        match self.section {
            Section::Size => self.read_heading(line, size),
            Section::Before if is_word(line, "Routing:") => {
                self.section = Section::Nets;
                Ok(())
            }
            _ if line.is_empty() => Ok(()),
            Section::Before => Err(TextError::Fault(Fault::UnknownLine)),
            Section::Nets if line.starts_with(b"Block ") && !self.nets.is_empty() => Ok(()),
            Section::Nets if self.is_inside_path() => Err(TextError::Fault(Fault::OpenPath)),
            Section::Nets => Err(TextError::Fault(Fault::UnknownLine)),
        }
    }

    /// Reads the first line, which has the size.
    fn read_heading(&mut self, line: &[u8], size: StripSize) -> Result<(), TextError<Fault>>
        ensures nodes { self.new.nodes.items ≡ self.old.nodes.items }
        ensures nets { self.new.nets.items ≡ self.old.nets.items }
    {
        let Some(told) = size_in(line, " logic blocks.") else {
            return Err(TextError::Fault(Fault::BadSize));
        };
        if told != size {
            return Err(TextError::Fault(Fault::OtherSize));
        }
        self.section = Section::Before;
        Ok(())
    }

    /// Reads the first line of a net.
    fn net(&mut self, line: &'t [u8], at: usize) -> Result<(), TextError<Fault>>
        ensures nodes { self.new.nodes.items ≡ self.old.nodes.items }
        ensures nets { OnOk result (first_nodes self.new.nets.items
            ≡ first_nodes self.old.nets.items ++ length self.old.nodes.items ∷ []) }
        ensures names { OnOk result ((net : Net)
            × (self.new.nets.items ≡ self.old.nets.items ++ net ∷ [])
            × IsLineOfNet (length self.old.nets.items) line.now net) }
    {
        let Some((number, name, is_global)) = net_in(line) else {
            return Err(TextError::Fault(Fault::BadNet));
        };
        if number as usize != self.nets.len() {
            return Err(TextError::Fault(Fault::OutOfOrder));
        }
        if self.nets.len() >= MAX_NETS {
            return Err(TextError::Fault(Fault::OverLimit));
        }
        self.nets.push(Net {
            name,
            is_global,
            line: at,
            first_node: self.nodes.len(),
        })?;
        Ok(())
    }
}

/// Reads the number and the name from a net's line, and whether the net is global:
/// `Net NUMBER (NAME)`, or that with `: global net connecting:`.
pub fn net_in(line: &[u8]) -> Option<(u32, &[u8], bool)>
    ensures { IfSome result (λ net. IsNetLine net.0 line.now net.1.now net.2) }
{
    let mut scanner = Scanner::new(line);
    scanner.text("Net ")?;
    let number = scanner.number()?;
    scanner.text(" (")?;
    let word = scanner.word();
    let is_global = scanner.takes(" global net connecting:");
    if !scanner.is_done() {
        return None;
    }
    let name = word.strip_suffix(word_end(is_global))?;
    Some((number, name, is_global))
}

/// What ends the word with a net's name.
fn word_end(is_global: bool) -> &'static [u8]
    ensures { result.now ≡ word_end is_global }
{
    if is_global { b"):" } else { b")" }
}

/// The number of a block that is listed with a global net, from its line:
/// `Block NAME (#NUMBER) at (COLUMN,ROW).`.
pub fn block_in(line: &[u8]) -> Option<u32> {
    let mut scanner = Scanner::new(line);
    scanner.text("Block ")?;
    let _name = scanner.word();
    scanner.text(" (#")?;
    let number = scanner.number()?;
    scanner.text(") at (")?;
    Some(number)
}
