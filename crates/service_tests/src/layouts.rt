//! The offsets of strips, and who owns what.
use crate::cores::architecture;
use device_book::Book;
use rr_graph::{Resource, ResourceKind};
use std::alloc::Global;
use strips::{NoRoom, PlacedStrip, StripPlan};

/// Places a strip of that width at the least offset at which it fits, and returns the offset.
fn place_strip(layout: &mut StripPlan, id: u32, width: u32) -> Option<u32> {
    if layout.is_full() || layout.offset(id).is_some() {
        return None;
    }
    let offset = layout.first_fit(width)?;
    layout.place(PlacedStrip { id, offset, width });
    Some(offset)
}

/// Whether a strip that is there moves to that offset, or doesn't fit there.
fn moves(layout: &mut StripPlan, id: u32, offset: u32) -> Option<Result<(), NoRoom>> {
    if layout.offset(id).is_some() {
        Some(layout.move_to(id, offset))
    } else {
        None
    }
}

/// Whether a strip takes the place of one that is gone, and the other moves next to it.
fn takes_the_place(layout: &mut StripPlan) -> bool {
    let is_placed = place_strip(layout, 1, 4) == Some(0)
        && place_strip(layout, 2, 4) == Some(5)
        && place_strip(layout, 3, 1) == None;
    layout.remove(1);
    is_placed
        && place_strip(layout, 3, 3) == Some(0)
        && layout.offset(2) == Some(5)
        && layout.is_bad_width(10)
        && moves(layout, 2, 3) == Some(Err(NoRoom))
        && moves(layout, 2, 4) == Some(Ok(()))
        && layout.offset(2) == Some(4)
}

#[test]
fn a_strip_takes_the_place_of_one_that_is_gone(rt: HostRuntime) {
    let mut layout = StripPlan::new(9);
    let is_so = takes_the_place(&mut layout);
    drop(layout);
    assert!(rt; is_so);
}

/// Whether nobody owns a pad of a new device.
fn is_nobodys(alloc: Global) -> bool {
    match architecture(alloc) {
        Some(arch) => {
            let book = Book::new(alloc, &arch, 1, 1);
            drop(arch);
            match book {
                Ok(book) => is_free(&book),
                Err(_) => false,
            }
        }
        None => false,
    }
}

fn is_free(book: &Book) -> bool {
    let pad = Resource {
        x: 1,
        kind: ResourceKind::Pad,
        y: 0,
        n: 0,
    };
    book.owner(pad) == None
}

#[test]
fn a_new_device_is_nobodys(rt: HostRuntime) {
    assert!(rt; is_nobodys(rt.alloc()));
}
