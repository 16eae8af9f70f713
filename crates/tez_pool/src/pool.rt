//! The places and the nodes.
ghost use Rattle.std.specs.Prelude.{◌≡◌, ℕ, ◌+◌, ◌*◌, ◌/◌, ◌<◌, ◌≤◌, ◌≢◌, ◌^◌, ◌↔◌, IsTrue, [], Some, None, position, length, slice_get, count_by, ◌++◌, option_to_list, IsSome, OnOk, IfOk, IfSome, IfNone, OnErr};
ghost use Rattle.std.specs.List.{filter_map};
ghost use Rattle.std.specs.Option.{option_map};
ghost use Rattle.tez_lists.specs.Tables.{each_from};
ghost use Rattle.tez_ids.specs.declared.AttemptId.{AttemptId};
ghost use Rattle.tez_pool.specs.Table.{new_pool, is_free, is_taken, who, place_held, place_of, held_on, after_place, container_given, after_sent, numbers_for, after_release, cleared, after_clear, lose_place, after_loss};
ghost use Rattle.tez_pool.specs.Index.{held_at};
ghost use Rattle.tez_pool.specs.Victim.{AreIn, IsGreatest, candidates};

use crate::index::{self, Index};
use crate::place::Place;
use crate::places::Places;
use crate::victim;
use std::alloc::{AllocError, Global};
use std::collections::HashMap;
use std::marker::Model;
use tez_ids::{AttemptId, ContainerId, NodeId};
use tez_plan::Plan;

/// The places of the nodes: who holds each of them, and the number of its container. Place p is
/// on the node of slot `p / per_node`. Containers are numbered in the order in which they are
/// given, and no number is given twice.
#[derive(Drop)]
pub struct Pool {
    places: Places,
    index: Index,
    lives: Vec<u64>,
    next: u128,
    per_node: u16,
    reuse: bool,
}

impl Model for Pool {
    ghost use Rattle.tez_pool.specs.State.{PoolState};
    ghost use Rattle.tez_pool.specs.Kept.{IsKept};

    ghost Value = { PoolState };

    ghost view = { λ m. record { places = m.places; lives = m.lives.items; next = m.next; per_node = m.per_node; reuse = m.reuse } };

    ghost invariant = { λ m. IsKept m.places m.lives.items m.per_node m.index };
}

impl Pool {
    /// A pool of free places, with nodes in their first lives. With `reuse` a place that is freed
    /// keeps its container, else it gets a new one.
    pub fn new(alloc: Global, nodes: u16, per_node: u16, reuse: bool) -> Result<Pool, AllocError>
        ensures { IfOk result (λ p. p ≡ new_pool nodes per_node reuse) }
    {
        let count = nodes as u32 * per_node as u32;
        Ok(Pool {
            places: Places::new(alloc, count)?,
            index: HashMap::with_capacity(alloc, 2 * count as usize + 1)?,
            lives: vec![in alloc; 0; nodes as usize]?,
            next: count as u128,
            per_node,
            reuse,
        })
    }

    /// How many places there are.
    pub fn places(&self) -> u32
        ensures { result ≡ length self.now.places }
    {
        self.places.len()
    }

    /// The container that is given next.
    pub fn next_container(&self) -> ContainerId
        ensures { result.0 ≡ self.now.next }
    {
        ContainerId(self.next)
    }

    /// The least free place.
    pub fn free_place(&self) -> Option<u32>
        ensures { result ≡ position is_free self.now.places }
    {
        self.places.first_free()
    }

    /// The place of an attempt, and whether its order went out. An attempt holds one place at most.
    pub fn place_of(&self, attempt: AttemptId) -> Option<(u32, bool)>
        ensures value { result ≡ place_of self.now.places attempt }
        ensures once { (p : ℕ) → held_at self.now.places p ≡ Some attempt → place_held self.now.places attempt ≡ Some p }
    {
        match self.find(attempt) {
            Some(place) => Some((place, self.places.get(place).is_sent())),
            None => None,
        }
    }

    /// The present number of a place's container.
    pub fn container_of(&self, place: u32) -> ContainerId
        requires { place < length self.now.places }
        ensures { option_map (λ x. x.container) (slice_get self.now.places place) ≡ Some result }
    {
        self.places.get(place).container
    }

    /// Who holds a place.
    pub fn holder(&self, place: u32) -> Option<AttemptId>
        requires { place < length self.now.places }
        ensures { option_map who (slice_get self.now.places place) ≡ Some result }
    {
        self.places.get(place).who()
    }

    /// The node of a place.
    pub fn node_of(&self, place: u32) -> NodeId
        requires { place < length self.now.places }
        ensures slot { result.slot ≡ place / self.now.per_node }
        ensures life { slice_get self.now.lives result.slot ≡ Some result.life }
        ensures there { result.slot < length self.now.lives }
    {
        let slot = place / self.per_node as u32;
        NodeId {
            slot: slot as u16,
            life: self.lives[slot as usize],
        }
    }

    /// The life of the node of a slot. None where there is no such slot, and then it has no places.
    pub fn life_of(&self, slot: u16) -> Option<u64>
        ensures life { result ≡ slice_get self.now.lives slot }
        ensures nobody { IfNone result (held_on self.now slot ≡ []) }
    {
        match self.lives.get(slot as usize) {
            Some(life) => Some(*life),
            None => None,
        }
    }

    /// Gives a place to an attempt, which waits there until its order goes out. Answers the
    /// container, and nothing where the place is taken or not there. Takes logarithmic time in the
    /// number of places, averaged over as many calls as there are places.
    pub fn place(&mut self, attempt: AttemptId, place: u32) -> Option<ContainerId>
        requires { place_held self.old.places attempt ≡ None }
        ensures after { self.new ≡ after_place self.old attempt place }
        ensures container { result ≡ container_given self.old.places place }
    {
        let found = match self.places.as_slice().get(place as usize) {
            Some(found) if found.is_free() => *found,
            _ => return None,
        };
        index::note(&mut self.index, self.places.as_slice(), attempt, place);
        self.places.set(place, found.taken(attempt));
        Some(found.container)
    }

    /// The order of an attempt went out. Changes nothing where the attempt holds no place.
    pub fn sent(&mut self, attempt: AttemptId)
        ensures { self.new ≡ after_sent self.old attempt }
    {
        match self.find(attempt) {
            Some(place) => {
                let sent = self.places.get(place).sent(attempt);
                self.places.set(place, sent);
            }
            None => {}
        }
    }

    /// The place of an attempt is free. Changes nothing where the attempt holds no place. Takes
    /// logarithmic time in the number of places.
    pub fn release(&mut self, attempt: AttemptId)
        requires { self.old.next < 2 ^ 127 }
        ensures { self.new ≡ after_release self.old attempt }
    {
        match self.find(attempt) {
            Some(place) => {
                let freed = self.places.get(place).freed(self.reuse, self.next);
                self.places.set(place, freed);
                self.next += numbers_for(self.reuse, 1);
            }
            None => {}
        }
    }

    /// Every place is free, as after the end of all that ran.
    pub fn clear(&mut self)
        requires { self.old.next < 2 ^ 127 }
        ensures { self.new ≡ after_clear self.old }
    {
        self.next = clear_places(&mut self.places, self.reuse, self.next);
        self.index.clear();
    }

    /// Whether the vertices of all that hold places are in a plan.
    pub fn is_within(&self, plan: &Plan) -> bool
        ensures { IsTrue result ↔ AreIn plan.now self.now.places }
    {
        let vertices = plan.vertices().len();
        victim::are_within(self.places.as_slice(), vertices)
    }

    /// Of the attempts that wait at a place and are deeper than `depth`, the deepest, and of
    /// those the greatest. Takes time in the number of places.
    pub fn victim(&self, plan: &Plan, depth: u32) -> Option<AttemptId>
        requires { AreIn plan.now self.now.places }
        ensures some { IfSome result (IsGreatest plan.now (candidates plan.now depth self.now.places)) }
        ensures none { IfNone result (candidates plan.now depth self.now.places ≡ []) }
    {
        victim::victim(plan, self.places.as_slice(), depth)
    }

    /// The attempts at the places of a node, by place. Takes memory where there are any.
    pub fn held(&self, alloc: Global, slot: u16) -> Result<Vec<AttemptId>, AllocError>
        requires { slot < length self.now.lives }
        ensures found { IfOk result (λ found. found.items ≡ held_on self.now slot) }
        ensures some { OnErr result (held_on self.now slot ≢ []) }
    {
        let per_node = self.per_node as usize;
        let first = slot as usize * per_node;
        holders(alloc, &self.places.as_slice()[first..first + per_node])
    }

    /// A node is lost, and the next one stands in its slot: its places are free, with new
    /// containers. Takes time in the number of its places.
    pub fn lose_node(&mut self, slot: u16)
        requires slot { slot < length self.old.lives }
        requires life { IfSome (slice_get self.old.lives slot) (λ life. life + 1 < 2 ^ 64) }
        requires room { self.old.next < 2 ^ 127 }
        ensures { self.new ≡ after_loss self.old slot }
    {
        lose_places(&mut self.places, self.per_node, slot, self.next);
        self.lives[slot as usize] += 1;
        self.next += self.per_node as u128;
    }

    fn find(&self, attempt: AttemptId) -> Option<u32>
        ensures found { result ≡ place_held self.now.places attempt }
        ensures once { (p : ℕ) → held_at self.now.places p ≡ Some attempt → place_held self.now.places attempt ≡ Some p }
    {
        index::find(&self.index, self.places.as_slice(), attempt)
    }
}

// How many numbers are given to freed places.
fn numbers_for(reuse: bool, freed: u128) -> u128
    ensures { result ≡ numbers_for reuse freed }
{
    if reuse { 0 } else { freed }
}

fn holders(alloc: Global, places: &[Place]) -> Result<Vec<AttemptId>, AllocError>
    ensures found { IfOk result (λ found. found.items ≡ filter_map who places.now) }
    ensures some { OnErr result (filter_map who places.now ≢ []) }
{
    let mut found = Vec::new(alloc);
    for place in places {
        add(&mut found, place.who())?;
    }
    Ok(found)
}

fn add(found: &mut Vec<AttemptId>, holder: Option<AttemptId>) -> Result<(), AllocError>
    ensures found { OnOk result (found.new.items ≡ found.old.items ++ option_to_list holder) }
    ensures some { OnErr result (IsSome holder) }
{
    if let Some(attempt) = holder {
        found.push(attempt)?;
    }
    Ok(())
}

// Frees every place, and answers the next number.
fn clear_places(places: &mut Places, reuse: bool, next: u128) -> u128
    requires { next < 2 ^ 127 }
    ensures places { places.new ≡ cleared reuse next places.old }
    ensures next { result ≡ next + numbers_for reuse (count_by is_taken places.old) }
{
    let mut number = next;
    for place in 0..places.len() {
        let old = places.get(place);
        places.set(place, old.cleared(reuse, number));
        number += numbers_for(reuse, old.holders());
    }
    number
}

// Frees the places of a node, with new numbers.
fn lose_places(places: &mut Places, per_node: u16, slot: u16, next: u128)
    requires inside { slot * per_node + per_node ≤ length places.old }
    requires some { per_node ≡ 0 → length places.old ≡ 0 }
    requires room { next < 2 ^ 127 }
    ensures { places.new ≡ each_from 0 (lose_place per_node slot next) places.old }
{
    let first = slot as u32 * per_node as u32;
    for i in 0..per_node {
        places.set(first + i as u32, Place::free(next + i as u128));
    }
}
