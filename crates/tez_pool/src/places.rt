//! The places by number, with the least free one.
ghost use Rattle.std.specs.Prelude.{◌≡◌, ◌<◌, ◌^◌, true, length, map, position, slice_get, slice_set, replicate, IfOk, Some};
ghost use Rattle.tez_lists.specs.Numbers.{numbers_from};
ghost use Rattle.tez_pool.specs.Table.{free, is_free};

use crate::place::Place;
use std::alloc::{AllocError, Global};
use std::marker::Model;
use tez_tournament::Tournament;

/// The places, of which contracts see the list.
#[derive(Drop)]
pub(crate) struct Places {
    all: Vec<Place>,
    free: Tournament,
}

impl Model for Places {
    ghost use Rattle.std.specs.Prelude.{◌≡◌, ◌<◌, ◌^◌, List, length, map};
    ghost use Rattle.tez_pool.specs.declared.place.Place.{Place};
    ghost use Rattle.tez_pool.specs.Table.{is_free};

    ghost Value = { List Place };

    ghost view = { λ p. p.all.items };

    ghost invariant = { λ p. (p.free ≡ map is_free p.all.items) × (length p.all.items < 2 ^ 32) };
}

impl Places {
    /// Free places, with their own numbers as the numbers of their containers.
    pub fn new(alloc: Global, count: u32) -> Result<Places, AllocError>
        ensures { IfOk result (λ p. p ≡ map free (numbers_from 0 count)) }
    {
        Ok(Places {
            all: free_places(alloc, count)?,
            free: all_present(alloc, count)?,
        })
    }

    pub fn as_slice(&self) -> &[Place]
        ensures value { result.now ≡ self.now }
        ensures small { length self.now < 2 ^ 32 }
    {
        self.all.as_slice()
    }

    pub fn len(&self) -> u32
        ensures { result ≡ length self.now }
    {
        self.all.len() as u32
    }

    /// The least free place.
    pub fn first_free(&self) -> Option<u32>
        ensures { result ≡ position is_free self.now }
    {
        self.free.least()
    }

    pub fn get(&self, place: u32) -> Place
        requires { place < length self.now }
        ensures { slice_get self.now place ≡ Some result }
    {
        self.all[place as usize]
    }

    /// Puts another value at a place. Takes logarithmic time in the places.
    pub fn set(&mut self, place: u32, value: Place)
        requires { place < length self.old }
        ensures { self.new ≡ slice_set self.old place value }
    {
        self.all[place as usize] = value;
        self.free.set(place, value.is_free());
    }
}

fn free_places(alloc: Global, count: u32) -> Result<Vec<Place>, AllocError>
    ensures { IfOk result (λ all. all.items ≡ map free (numbers_from 0 count)) }
{
    let mut all = Vec::with_capacity(alloc, count as usize)?;
    for place in 0..count {
        all.push(Place::free(place as u128))?;
    }
    Ok(all)
}

fn all_present(alloc: Global, count: u32) -> Result<Tournament, AllocError>
    ensures { IfOk result (λ t. t ≡ replicate count true) }
{
    let mut all = Tournament::new(alloc, count)?;
    for place in 0..count {
        all.set(place, true);
    }
    Ok(all)
}
