//! Placing, pass by pass.
ghost use Rattle.std.specs.Prelude.{◌≡◌, ◌*◌, ◌<◌, ◌≤◌, length, IfOk, slice_get, Some};
ghost use Rattle.std.specs.List.{zip};
ghost use Rattle.strip_place.specs.Prelude.{blocks_of, keys_of, Fits, fit_of, IsStripSize, in_order, ArePlaced};
ghost use Rattle.strip_place.specs.Anneal.{one_more, end_of, after_words, draw_of, places_by_block};
ghost use Rattle.strip_place.specs.Keeping.{AreKeptOn};
ghost use Rattle.strip_place.specs.Pass.{cost_of, pass_of};
ghost use Rattle.strip_place.specs.Task.{task_of};

use crate::board::{Board, Words};
use crate::start::start_board;
use cluster::{Packed, SharedPacked, laws_of_packing};
use grid::{Place, Strip, laws_of_places};
use kept_places::{Kept, KeptPlace};
use rand_core::utils::NextWord;
use rand_pcg::Pcg32;
use std::alloc::{AllocError, Global};
use std::marker::Model;

/// The most passes of a placing.
pub const MAX_PASSES: u32 = 512;

/// The greatest effort of a placing.
pub const MAX_EFFORT: u32 = 100;

/// The result of a pass.
#[derive(Clone, Copy, PartialEq, Eq)]
pub enum PassEnd {
    /// More passes follow.
    More,
    /// It was the last pass.
    Last,
}

/// The blocks of a packed circuit on a strip, after some passes.
#[derive(Drop)]
pub struct Placing {
    packed: SharedPacked,
    kept: Kept,
    board: Board,
    seed: u64,
    effort: u32,
    passes: u32,
    words: Pcg32,
    temperature: u32,
    finished: bool,
}

impl Model for Placing {
    ghost use Rattle.strip_place.specs.Anneal.{PlacingUnderWay};
    ghost use Rattle.strip_place.specs.UnderWay.{IsUnderWay};

    ghost Value = { PlacingUnderWay };

    ghost view = { λ p. record { packed = p.packed; strip = p.board.strip; kept = p.kept; seed = p.seed; effort = p.effort; passes = p.passes } };

    ghost invariant = { λ p. IsUnderWay p.packed p.kept p.board p.seed p.effort p.passes p.words
        p.temperature p.finished };
}

impl Placing {
    /// The packed circuit with each block at its start: on the place that is kept for it, or else,
    /// block by block, on the least free one of its kind.
    pub fn start(
        alloc: Global,
        packed: &SharedPacked,
        strip: Strip,
        kept: &Kept,
        seed: u64,
        effort: u32,
    ) -> Result<Self, AllocError>
        requires size { IsStripSize strip }
        requires fits { fit_of strip packed.now ≡ Fits }
        requires kept { AreKeptOn strip kept.now }
        requires effort { effort ≤ MAX_EFFORT }
        ensures { IfOk result (λ placing.
            placing ≡ record {
              packed = packed.now;
              strip = strip;
              kept = kept.now;
              seed = seed;
              effort = effort;
              passes = 0;
            }) }
    {
        let shared = packed.clone()?;
        let stays = kept.clone()?;
        let board = start_board(alloc, packed.packed(), strip, kept)?;
        Ok(Placing {
            packed: shared,
            kept: stays,
            board,
            seed,
            effort,
            passes: 0,
            words: Pcg32::new(seed, 54),
            temperature: strip.width + strip.rows,
            finished: false,
        })
    }

    /// Makes a pass, and returns whether it was the last. After the last pass it changes nothing.
    /// Takes no memory.
    pub fn pass(&mut self) -> PassEnd
        ensures new { self.new ≡ one_more self.old }
        ensures end { result ≡ end_of self.new }
    {
        if self.finished {
            return PassEnd::Last;
        }
        let draws = self.effort as usize * self.board.len();
        make_draws(&mut self.board, &mut self.words, self.temperature, draws);
        self.passes += 1;
        if self.temperature == 0 {
            self.finished = true;
            return PassEnd::Last;
        }
        self.temperature = 9 * self.temperature / 10;
        PassEnd::More
    }

    /// The packed circuit whose blocks are placed.
    pub fn packed(&self) -> &Packed
        ensures { result.now ≡ self.now.packed }
    {
        self.packed.packed()
    }

    /// The packed circuit, for sharing.
    pub fn shared_packed(&self) -> &SharedPacked
        ensures { result.now ≡ self.now.packed }
    {
        &self.packed
    }

    /// The strip on which the blocks are placed.
    pub fn strip(&self) -> Strip
        ensures value { result ≡ self.now.strip }
        ensures size { IsStripSize result }
    {
        self.board.strip()
    }

    /// The place of a block.
    pub fn place_of(&self, block: usize) -> Place
        requires { block < length (blocks_of self.now.packed) }
        ensures { slice_get (places_by_block self.now) block ≡ Some result }
    {
        self.board.place(block)
    }

    /// The places of the blocks, by block number.
    pub fn places(&self, alloc: Global) -> Result<Vec<Place>, AllocError>
        ensures placed { IfOk result (λ places.
            ArePlaced self.now.strip self.now.packed places.items) }
        ensures exact { IfOk result (λ places. places.items ≡ places_by_block self.now) }
    {
        self.laws();
        let mut places = Vec::new(alloc);
        for block in 0..self.packed().block_count() {
            places.push(self.place_of(block))?;
        }
        Ok(places)
    }

    /// The cost of the places: the sum, over all nets that are not global, of the width plus the
    /// height of the bounding box of the net's blocks. Takes no memory.
    pub fn cost(&self) -> u64
        ensures { result ≡ cost_of (task_of self.now.packed).nets (places_by_block self.now) }
    {
        self.board.cost()
    }

    /// The places, as a map from the blocks' keys, to be kept.
    pub fn to_kept_places(&self, alloc: Global) -> Result<Kept, AllocError>
        ensures exact { IfOk result (λ kept.
            kept ≡ in_order (zip (keys_of self.now.packed) (places_by_block self.now))) }
        ensures lawful { IfOk result (λ kept. AreKeptOn self.now.strip kept) }
    {
        self.laws();
        laws_of_packing();
        let packed = self.packed();
        let _ = packed.circuit();
        let mut entries = Vec::new(alloc);
        for block in 0..packed.block_count() {
            entries.push(KeptPlace {
                key: packed.key(block),
                place: self.place_of(block),
            })?;
        }
        Kept::of(alloc, entries)
    }

    /// Each block has a place of its kind, and no two blocks have the same place. Computes nothing.
    pub fn laws(&self)
        ensures { ArePlaced self.now.strip self.now.packed (places_by_block self.now) }
    {
        laws_of_places();
        let _ = self.board.len();
    }
}

fn make_draws(board: &mut Board, words: &mut Pcg32, temperature: u32, draws: usize)
    requires { 0 < draws → 0 < length board.old.task.kinds }
    ensures board { board.new ≡ record board.old {
      places = pass_of board.old.strip board.old.task
          temperature (draw_of words.old) draws board.old.places;
    } }
    ensures words { words.new ≡ after_words words.old (3 * draws) }
{
    for _ in 0..draws {
        let u = words.next_word();
        let v = words.next_word();
        let a = words.next_word();
        board.draw(temperature, Words { u, v, a });
    }
}
