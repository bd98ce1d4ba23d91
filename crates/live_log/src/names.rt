//! What is known of the names that speak in a log.
use line_text::NameSet;
use std::alloc::{AllocError, Global};

/// What is known of a name.
#[derive(Clone, Copy)]
pub(crate) struct Who {
    /// The group of the lines that made its tenancy what it is.
    pub(crate) life: usize,
    /// Whether the tenancy has a netlist.
    pub(crate) is_loaded: bool,
    /// The groups of what was done with the netlist that it has.
    pub(crate) work: Work,
    /// The group of the lines of the text that its session is in.
    pub(crate) text: Option<usize>,
    /// Whether a job of its tenancy may be running.
    pub(crate) is_busy: bool,
    /// Whether the operator took a job of its tenancy.
    pub(crate) is_taken: bool,
}

/// The groups of the lines with which a tenancy's present netlist was loaded, packed, placed and
/// routed, each inside of those before it. `None` for what was not begun, or was given up.
#[derive(Clone, Copy)]
pub(crate) struct Work {
    /// That of the netlist, if it came by a `change`.
    pub(crate) netlist: Option<usize>,
    pub(crate) packing: Option<usize>,
    pub(crate) layout: Option<usize>,
    pub(crate) routing: Option<usize>,
}

/// Nothing was done.
pub(crate) const NO_WORK: Work = Work {
    netlist: None,
    packing: None,
    layout: None,
    routing: None,
};

impl Who {
    /// What is known of a name whose tenancy begins with that group of lines.
    pub(crate) fn new(life: usize) -> Self {
        Who {
            life,
            is_loaded: false,
            work: NO_WORK,
            text: None,
            is_busy: false,
            is_taken: false,
        }
    }

    /// The group around the lines of a packing.
    pub(crate) fn netlist(&self) -> usize {
        self.work.netlist.unwrap_or(self.life)
    }

    /// The group around the lines of a placing.
    pub(crate) fn packing(&self) -> usize {
        self.work.packing.unwrap_or(self.netlist())
    }

    /// The group around the lines of a routing.
    pub(crate) fn layout(&self) -> usize {
        self.work.layout.unwrap_or(self.packing())
    }

    /// The innermost group that was begun: that of the lines that a running job takes.
    pub(crate) fn innermost(&self) -> usize {
        self.work.routing.unwrap_or(self.layout())
    }
}

/// The names, each with what is known of it.
#[derive(Drop)]
pub(crate) struct Names<'l> {
    names: NameSet<'l>,
    known: Vec<Who>,
}

impl<'l> Names<'l> {
    /// No name.
    pub(crate) fn new(alloc: Global) -> Self {
        Names {
            names: NameSet::new(alloc),
            known: Vec::new(alloc),
        }
    }

    /// What is known of a name, if it was noted before.
    pub(crate) fn entry_of(&self, name: &[u8]) -> Option<Who> {
        self.known.get(self.names.number(name)).copied()
    }

    /// Notes what is known of a name.
    pub(crate) fn note(&mut self, name: &'l [u8], who: Who) -> Result<(), AllocError> {
        let number = self.names.number(name);
        if let Some(known) = self.known.get_mut(number) {
            *known = who;
            return Ok(());
        }
        self.known.reserve(1)?;
        self.names.add(name)?;
        self.known.push(who)?;
        Ok(())
    }
}
