// What a book tells.
ghost use Rattle.std.specs.Prelude.{◌≡◌, ◌<◌, ◌≤◌, [], length};
ghost use Rattle.tez_crew.specs.Books.{book_places, book_put, book_taken, book_own};

use crate::book::CrewBook;
use std::alloc::Global;
use tez_ids::AttemptId;

impl CrewBook {
    /// A book with no places, which names nothing.
    pub fn new(alloc: Global) -> CrewBook
        ensures { (book_places result ≡ 0) × (book_own result ≡ []) }
    {
        CrewBook {
            rows: Vec::new(alloc),
            own: Vec::new(alloc),
        }
    }

    pub fn places(&self) -> u32
        ensures places { result ≡ book_places self.now }
        ensures few { result ≤ 64 }
    {
        self.rows.len() as u32
    }

    /// The attempts whose orders were put to a place, in order.
    pub fn put(&self, place: u32) -> &[AttemptId]
        requires { place < book_places self.now }
        ensures { result.now ≡ book_put self.now place }
    {
        self.rows[place as usize].put.as_slice()
    }

    /// How many of the orders put to a place its container took, from the first.
    pub fn taken(&self, place: u32) -> u64
        requires { place < book_places self.now }
        ensures taken { result ≡ book_taken self.now place }
        ensures within { result ≤ length (book_put self.now place) }
    {
        self.rows[place as usize].taken
    }

    /// The attempts whose orders the dispatcher worked, in order.
    pub fn own(&self) -> &[AttemptId]
        ensures { result.now ≡ book_own self.now }
    {
        self.own.as_slice()
    }
}
