//! Lists places in order.
ghost use Rattle.std.specs.Prelude.{◌≡◌, ◌<◌, ◌≤◌, Contains, length, slice_get, Some};
ghost use Rattle.grid.specs.declared.TheConstants.{MAX_ROWS};
ghost use Rattle.grid.specs.Sizes.{IsStripSize};
ghost use Rattle.grid.specs.Places.{column_len, place_in, places_of};
ghost use Rattle.grid.specs.Listed.{places_in_order};
ghost use Rattle.grid.specs.Numbers.{number_in_column};
ghost use Rattle.grid.specs.PlaceLaws.{IsInRow};

use crate::Strip;
use crate::place::{Kind, Place, Places};

impl Strip {
    /// The places of this kind, by column, then row, then number. Takes no memory.
    pub fn places(self, kind: Kind) -> Places
        requires { IsStripSize self }
        ensures { places_in_order result ≡ places_of self kind }
    {
        Places { strip: self, kind }
    }
}

impl Places {
    /// The number of places.
    pub fn len(self) -> usize
        ensures { result ≡ length (places_in_order self) }
    {
        self.strip.width as usize * self.column_len() as usize
    }

    /// The place with this number, from 0.
    pub fn place(self, number: usize) -> Place
        requires { number < length (places_in_order self) }
        ensures { slice_get (places_in_order self) number ≡ Some result }
    {
        let column_len = self.column_len() as usize;
        self.place_in(
            (number / column_len) as u32 + 1,
            (number % column_len) as u32,
        )
    }

    /// The number of a place, computed by arithmetic.
    pub fn number_of(self, place: Place) -> usize
        requires { Contains (places_in_order self) place }
        ensures { slice_get (places_in_order self) result ≡ Some place }
    {
        (place.x as usize - 1) * self.column_len() as usize + self.number_in_column(place) as usize
    }

    /// The number of places of each column.
    fn column_len(self) -> u32
        ensures count { result ≡ column_len self.strip self.kind }
        ensures some { 0 < result }
        ensures few { result ≤ MAX_ROWS }
    {
        match self.kind {
            Kind::Logic => self.strip.rows,
            Kind::Pad => 2 * self.strip.io_rat,
        }
    }

    /// The place with this number in a column.
    fn place_in(self, x: u32, number: u32) -> Place
        requires { number < column_len self.strip self.kind }
        ensures { result ≡ place_in self.strip self.kind x number }
    {
        let Strip { rows, io_rat, .. } = self.strip;
        match self.kind {
            Kind::Logic => Place {
                x,
                y: number + 1,
                subblock: 0,
            },
            Kind::Pad if number < io_rat => Place {
                x,
                y: 0,
                subblock: number,
            },
            Kind::Pad => Place {
                x,
                y: rows + 1,
                subblock: number - io_rat,
            },
        }
    }

    /// The number of a place in its column.
    fn number_in_column(self, place: Place) -> u32
        requires { IsInRow self.strip self.kind place }
        ensures { result ≡ number_in_column self.strip self.kind place }
    {
        match self.kind {
            Kind::Logic => place.y - 1,
            Kind::Pad if place.y == 0 => place.subblock,
            Kind::Pad => self.strip.io_rat + place.subblock,
        }
    }
}
