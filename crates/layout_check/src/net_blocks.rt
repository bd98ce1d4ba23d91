//! The blocks that drive a net, and those at which it is wanted, by net.
ghost use Rattle.std.specs.Prelude.{◌≡◌, ◌==◌, [], IfOk, OnOk, length, replicate};
ghost use Rattle.std.specs.List.{list_any};
ghost use Rattle.layout_check.specs.Prelude.{drives, has_on, is_net, leaves_as, wants, on_pin};
ghost use Rattle.layout_check.specs.NetBlocks.{AreBlocksOf, AreListsOf, HaveRoom, NotesIn};

use crate::inside::on_pin;
use crate::lists::Lists;
use crate::marks::Marks;
use crate::wanted::net_limit;
use arch_file::{Arch, PinClass};
use cluster::Block;
use layouts::{LaidBle, LaidBlock, Layout};
use std::alloc::{AllocError, Global};

/// For each net, the numbers of the blocks that drive it, and of those at which it is wanted.
#[derive(Drop)]
pub(crate) struct NetBlocks {
    pub(crate) drivers: Lists,
    pub(crate) readers: Lists,
}

/// The lists of blocks by net, as they are filled block by block. In the contracts, `limit` is the
/// number of the lists.
#[derive(Drop)]
struct NetLists {
    /// The nets whose list has the number of the block that is looked at.
    marks: Marks,
    lists: Lists,
}

impl NetLists {
    /// Empty lists for nets below the limit.
    fn new(alloc: Global, limit: usize) -> Result<Self, AllocError>
        ensures marks { IfOk result (λ new. length new.marks ≡ limit) }
        ensures lists { IfOk result (λ new. new.lists ≡ replicate limit []) }
    {
        let marks = Marks::new(alloc, limit)?;
        let lists = Lists::new(alloc, limit)?;
        Ok(NetLists { marks, lists })
    }

    /// Adds a block's number to the list of the net, unless the net is in the set or isn't below
    /// the limit. Adds the net to the set.
    fn add_once(&mut self, net: u32, number: usize, limit: usize) -> Result<(), AllocError>
        requires { HaveRoom limit self.old }
        ensures { OnOk result (NotesIn number limit (λ other. net == other) self.old self.new) }
    {
        let net = net as usize;
        if net >= limit {
            return Ok(());
        }
        if self.marks.contains(net) {
            return Ok(());
        }
        self.marks.insert(net);
        self.lists.add(net, number)
    }

    /// Adds the number to the list of the net that the BLE drives out of its block, if it drives
    /// one.
    fn note_ble(&mut self, ble: &LaidBle, number: usize, limit: usize) -> Result<(), AllocError>
        requires { HaveRoom limit self.old }
        ensures { OnOk result (NotesIn number limit (λ net. leaves_as net ble.now) self.old self.new) }
    {
        if ble.output().is_none() {
            return Ok(());
        }
        self.add_once(ble.name(), number, limit)
    }

    /// Adds the number to the lists of the nets that the BLEs drive out of their block.
    fn note_bles(&mut self, bles: &[LaidBle], number: usize, limit: usize) -> Result<(), AllocError>
        requires { HaveRoom limit self.old }
        ensures { OnOk result (NotesIn number limit (λ net. list_any (leaves_as net) bles.now) self.old self.new) }
    {
        for ble in bles {
            self.note_ble(ble, number, limit)?;
        }
        Ok(())
    }

    /// Adds the number to the list of the net on the pin, if the pin is of this class and carries
    /// one.
    fn note_pin(&mut self, net: Option<u32>, number: usize, limit: usize) -> Result<(), AllocError>
        requires { HaveRoom limit self.old }
        ensures { OnOk result (NotesIn number limit (λ other. is_net other net) self.old self.new) }
    {
        match net {
            Some(net) => self.add_once(net, number, limit),
            None => Ok(()),
        }
    }

    /// Adds the number to the lists of the nets on the block's pins of this class.
    fn note_pins(
        &mut self,
        arch: &Arch,
        block: &LaidBlock,
        class: PinClass,
        number: usize,
        limit: usize,
    ) -> Result<(), AllocError>
        requires { HaveRoom limit self.old }
        ensures { OnOk result (NotesIn number limit (has_on arch.now block.now class) self.old self.new) }
    {
        let count = arch.pins.as_slice().len();
        for pin in 0..count {
            let net = on_pin(arch, block, class, pin);
            self.note_pin(net, number, limit)?;
        }
        Ok(())
    }

    /// Adds the block's number to the lists of the nets that it drives.
    fn note_driver(
        &mut self,
        block: &LaidBlock,
        number: usize,
        limit: usize,
    ) -> Result<(), AllocError>
        requires { HaveRoom limit self.old }
        ensures { OnOk result (NotesIn number limit (λ net. drives net block.now) self.old self.new) }
    {
        match block.block() {
            Block::InputPad(net) => self.add_once(net, number, limit),
            Block::OutputPad(_) => Ok(()),
            Block::Cluster(_) => self.note_bles(block.bles(), number, limit),
        }
    }

    /// Adds the block's number to the lists of the nets that are wanted at it.
    fn note_reader(
        &mut self,
        arch: &Arch,
        block: &LaidBlock,
        number: usize,
        limit: usize,
    ) -> Result<(), AllocError>
        requires { HaveRoom limit self.old }
        ensures { OnOk result (NotesIn number limit (λ net. wants arch.now net block.now) self.old self.new) }
    {
        match block.block() {
            Block::InputPad(_) => Ok(()),
            Block::OutputPad(net) => self.add_once(net, number, limit),
            Block::Cluster(_) => {
                self.note_pins(arch, block, PinClass::Input, number, limit)?;
                self.note_pins(arch, block, PinClass::Clock, number, limit)
            }
        }
    }
}

/// For each net below the limit, the numbers of the blocks that drive it.
fn drivers_by_net(alloc: Global, blocks: &[LaidBlock], limit: usize) -> Result<Lists, AllocError>
    ensures { IfOk result (AreListsOf drives blocks.now limit) }
{
    let mut found = NetLists::new(alloc, limit)?;
    for (number, block) in blocks.iter().enumerate() {
        found.marks.clear();
        found.note_driver(block, number, limit)?;
    }
    Ok(found.lists)
}

/// For each net below the limit, the numbers of the blocks at which it is wanted.
fn readers_by_net(
    alloc: Global,
    arch: &Arch,
    blocks: &[LaidBlock],
    limit: usize,
) -> Result<Lists, AllocError>
    ensures { IfOk result (AreListsOf (wants arch.now) blocks.now limit) }
{
    let mut found = NetLists::new(alloc, limit)?;
    for (number, block) in blocks.iter().enumerate() {
        found.marks.clear();
        found.note_reader(arch, block, number, limit)?;
    }
    Ok(found.lists)
}

/// Groups the blocks of a layout by the nets that they drive and that are wanted at them. Takes
/// time proportional to the number of their pins and BLEs, and of the nets.
pub(crate) fn blocks_by_net(
    alloc: Global,
    arch: &Arch,
    layout: &Layout,
) -> Result<NetBlocks, AllocError>
    ensures { IfOk result (λ index. AreBlocksOf arch.now layout.now.blocks layout.now.nets index) }
{
    let limit = net_limit(layout.nets());
    let drivers = drivers_by_net(alloc, layout.blocks(), limit)?;
    let readers = readers_by_net(alloc, arch, layout.blocks(), limit)?;
    Ok(NetBlocks { drivers, readers })
}
