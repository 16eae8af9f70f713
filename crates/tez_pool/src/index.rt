//! An index from attempts to places. An entry stays when its attempt leaves the place, and counts
//! for nothing then. The index is made again from the places when its room is used up; with room
//! for twice as many entries as places, that is once in as many new entries at most.
ghost use Rattle.std.specs.Prelude.{◌≡◌, ℕ, ◌+◌, ◌<◌, ◌≤◌, ◌^◌, length, cond, Some, None};
ghost use Rattle.std.specs.HashMap.{get, hash_map_len, spare};
ghost use Rattle.tez_ids.specs.declared.AttemptId.{AttemptId};
ghost use Rattle.tez_pool.specs.Table.{place_held, who};
ghost use Rattle.tez_pool.specs.Index.{equal, capacity, entry, is_held_at, IsIndex};

use crate::place::Place;
use std::collections::HashMap;
use tez_ids::AttemptId;

pub(crate) type Index = HashMap<AttemptId, u32>;

/// The place that an attempt holds.
pub(crate) fn find(index: &Index, places: &[Place], attempt: AttemptId) -> Option<u32>
    requires { IsIndex places.now index.now }
    ensures { result ≡ place_held places.now attempt }
{
    let place = match index.get(&attempt) {
        Some(place) => *place,
        None => return None,
    };
    if is_held_at(places, place, attempt) {
        Some(place)
    } else {
        None
    }
}

fn is_held_at(places: &[Place], place: u32, attempt: AttemptId) -> bool
    ensures { result ≡ is_held_at places.now place attempt }
{
    match places.get(place as usize) {
        Some(held) => held.is_held_by(attempt),
        None => false,
    }
}

/// Notes the place that an attempt is to hold. Takes no memory.
pub(crate) fn note(index: &mut Index, places: &[Place], attempt: AttemptId, place: u32)
    requires index { IsIndex places.now index.old }
    requires small { length places.now < 2 ^ 32 }
    requires absent { place_held places.now attempt ≡ None }
    ensures kept { IsIndex places.now index.new }
    ensures noted { get equal index.new attempt ≡ Some place }
{
    make_room(index, places);
    put(index, attempt, place);
}

fn make_room(index: &mut Index, places: &[Place])
    requires index { IsIndex places.now index.old }
    requires small { length places.now < 2 ^ 32 }
    ensures kept { IsIndex places.now index.new }
    ensures room { 0 < spare index.new }
{
    if index.len() == index.capacity() {
        rebuild(index, places);
    }
}

// Makes the index again from the places.
fn rebuild(index: &mut Index, places: &[Place])
    requires index { IsIndex places.now index.old }
    requires small { length places.now < 2 ^ 32 }
    ensures kept { IsIndex places.now index.new }
    ensures few { hash_map_len index.new ≤ length places.now }
{
    index.clear();
    for (at, place) in places.iter().enumerate() {
        enter(index, place, at as u32);
    }
}

// Enters the holder of a place, where there is one.
fn enter(index: &mut Index, place: &Place, at: u32)
    requires { 0 < spare index.old }
    ensures updates { (q : AttemptId) → get equal index.new q ≡ entry (who place.now) at q (get equal index.old q) }
    ensures room { capacity index.old ≤ capacity index.new }
    ensures len { hash_map_len index.new ≤ hash_map_len index.old + 1 }
{
    match place.who() {
        Some(attempt) => put(index, attempt, at),
        None => {}
    }
}

fn put(index: &mut Index, attempt: AttemptId, place: u32)
    requires { 0 < spare index.old }
    ensures updates { (q : AttemptId) → get equal index.new q ≡ cond (equal attempt q) (Some place) (get equal index.old q) }
    ensures room { capacity index.old ≤ capacity index.new }
    ensures len { hash_map_len index.new ≤ hash_map_len index.old + 1 }
{
    if let Some(found) = index.get_mut(&attempt) {
        *found = place;
        return;
    }
    match index.insert(attempt, place) {
        Ok(_) => {}
        Err(_) => {}
    }
}
