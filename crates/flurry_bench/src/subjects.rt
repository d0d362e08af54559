//! The maps that are measured: maps of numbers that threads share, and maps of one owner, with a lock around them or without.

use flurry_base::hash::KeyHasher;
use flurry_seq::SeqMap;
use flurry_shared::HashMap as SharedMap;
use std::alloc::{AllocError, Allocator};
use std::cell::RefCell;
use std::collections::{BTreeMap, HashMap};
use std::hash::BuildHasher;
use std::sync::{Arc, Mutex, RwLock, Wait};

/// A map that can be created empty.
pub trait Make<A: Allocator>: Sized {
    /// Creates an empty map. It has room for `room` pairs if such a map can have room, and its growths are divided among `processors`
    /// threads if it can use them.
    ///
    /// # Errors
    ///
    /// Returns [`AllocError`] if memory for the map cannot be allocated.
    fn make(alloc: A, room: usize, processors: usize) -> Result<Self, AllocError>;
}

/// A map that is used through a shared reference.
pub trait Subject: Sized {
    fn get<R: Wait>(&self, rt: &R, key: u64) -> Result<Option<u64>, AllocError>;

    /// Inserts a pair, and returns the value that the key had.
    fn insert<R: Wait>(&self, rt: &R, key: u64, value: u64) -> Result<Option<u64>, AllocError>;

    /// Removes the pair of a key, and returns the value that the key had.
    fn remove<R: Wait>(&self, rt: &R, key: u64) -> Result<Option<u64>, AllocError>;
}

/// A map of one owner.
pub trait Owned {
    fn get(&self, key: u64) -> Option<u64>;

    /// Inserts a pair, and returns the value that the key had.
    fn insert(&mut self, key: u64, value: u64) -> Result<Option<u64>, AllocError>;

    /// Removes the pair of a key, and returns the value that the key had.
    fn remove(&mut self, key: u64) -> Option<u64>;
}

// Returns the number in the `Arc`.
fn number<A: Allocator>(owner: Option<Arc<u64, A>>) -> Option<u64> {
    match owner {
        Some(number) => Some(*number),
        None => None,
    }
}

impl<S: KeyHasher<u64>, A: Allocator + Copy> Subject for SharedMap<u64, u64, S, A> {
    fn get<R: Wait>(&self, rt: &R, key: u64) -> Result<Option<u64>, AllocError> {
        Ok(number(SharedMap::get(self, rt, &key)?))
    }

    fn insert<R: Wait>(&self, rt: &R, key: u64, value: u64) -> Result<Option<u64>, AllocError> {
        Ok(number(SharedMap::insert(self, rt, key, value)?))
    }

    fn remove<R: Wait>(&self, rt: &R, key: u64) -> Result<Option<u64>, AllocError> {
        Ok(number(SharedMap::remove(self, rt, &key)))
    }
}

impl<M: Owned> Subject for RwLock<M> {
    fn get<R: Wait>(&self, rt: &R, key: u64) -> Result<Option<u64>, AllocError> {
        Ok(self.read(rt).get(key))
    }

    fn insert<R: Wait>(&self, rt: &R, key: u64, value: u64) -> Result<Option<u64>, AllocError> {
        self.write(rt).insert(key, value)
    }

    fn remove<R: Wait>(&self, rt: &R, key: u64) -> Result<Option<u64>, AllocError> {
        Ok(self.write(rt).remove(key))
    }
}

impl<M: Owned> Subject for Mutex<M> {
    fn get<R: Wait>(&self, rt: &R, key: u64) -> Result<Option<u64>, AllocError> {
        Ok(self.lock(rt).get(key))
    }

    fn insert<R: Wait>(&self, rt: &R, key: u64, value: u64) -> Result<Option<u64>, AllocError> {
        self.lock(rt).insert(key, value)
    }

    fn remove<R: Wait>(&self, rt: &R, key: u64) -> Result<Option<u64>, AllocError> {
        Ok(self.lock(rt).remove(key))
    }
}

/// A map that one thread uses alone, without a lock around it.
impl<M: Owned> Subject for RefCell<M> {
    fn get<R: Wait>(&self, _rt: &R, key: u64) -> Result<Option<u64>, AllocError> {
        let Ok(map) = self.try_borrow() else {
            return Err(AllocError);
        };
        Ok(map.get(key))
    }

    fn insert<R: Wait>(&self, _rt: &R, key: u64, value: u64) -> Result<Option<u64>, AllocError> {
        let Ok(mut map) = self.try_borrow_mut() else {
            return Err(AllocError);
        };
        map.insert(key, value)
    }

    fn remove<R: Wait>(&self, _rt: &R, key: u64) -> Result<Option<u64>, AllocError> {
        let Ok(mut map) = self.try_borrow_mut() else {
            return Err(AllocError);
        };
        Ok(map.remove(key))
    }
}

impl<S: KeyHasher<u64>, A: Allocator + Copy> Owned for SeqMap<u64, u64, S, A> {
    fn get(&self, key: u64) -> Option<u64> {
        SeqMap::get(self, &key).map(|value| **value)
    }

    fn insert(&mut self, key: u64, value: u64) -> Result<Option<u64>, AllocError> {
        Ok(number(SeqMap::insert(self, key, value)?))
    }

    fn remove(&mut self, key: u64) -> Option<u64> {
        number(SeqMap::remove(self, &key))
    }
}

impl<S: BuildHasher, A: Allocator + Copy> Owned for HashMap<u64, u64, S, A> {
    fn get(&self, key: u64) -> Option<u64> {
        HashMap::get(self, &key).copied()
    }

    fn insert(&mut self, key: u64, value: u64) -> Result<Option<u64>, AllocError> {
        Ok(HashMap::insert(self, key, value)?)
    }

    fn remove(&mut self, key: u64) -> Option<u64> {
        HashMap::remove(self, &key)
    }
}

impl<A: Allocator + Copy> Owned for BTreeMap<u64, u64, A> {
    fn get(&self, key: u64) -> Option<u64> {
        BTreeMap::get(self, &key).copied()
    }

    fn insert(&mut self, key: u64, value: u64) -> Result<Option<u64>, AllocError> {
        Ok(BTreeMap::insert(self, key, value)?)
    }

    fn remove(&mut self, key: u64) -> Option<u64> {
        BTreeMap::remove(self, &key)
    }
}

impl<S: KeyHasher<u64> + Default + Drop, A: Allocator + Copy> Make<A>
    for SharedMap<u64, u64, S, A> {
    fn make(alloc: A, room: usize, processors: usize) -> Result<Self, AllocError> {
        let map = SharedMap::with_capacity_and_hasher(alloc, room, S::default())?;
        Ok(map.with_processors(processors))
    }
}

impl<S: KeyHasher<u64> + Default + Drop, A: Allocator + Copy> Make<A> for SeqMap<u64, u64, S, A> {
    fn make(alloc: A, room: usize, _processors: usize) -> Result<Self, AllocError> {
        SeqMap::with_capacity_and_hasher(alloc, room, S::default())
    }
}

impl<S: BuildHasher + Default + Drop, A: Allocator + Copy> Make<A> for HashMap<u64, u64, S, A> {
    fn make(alloc: A, room: usize, _processors: usize) -> Result<Self, AllocError> {
        HashMap::with_capacity_and_hasher(alloc, room, S::default())
    }
}

impl<A: Allocator + Copy> Make<A> for BTreeMap<u64, u64, A> {
    fn make(alloc: A, _room: usize, _processors: usize) -> Result<Self, AllocError> {
        Ok(BTreeMap::new(alloc))
    }
}

impl<A: Allocator, M: Make<A>> Make<A> for RwLock<M> {
    fn make(alloc: A, room: usize, processors: usize) -> Result<Self, AllocError> {
        Ok(RwLock::new(M::make(alloc, room, processors)?))
    }
}

impl<A: Allocator, M: Make<A>> Make<A> for Mutex<M> {
    fn make(alloc: A, room: usize, processors: usize) -> Result<Self, AllocError> {
        Ok(Mutex::new(M::make(alloc, room, processors)?))
    }
}

impl<A: Allocator, M: Make<A>> Make<A> for RefCell<M> {
    fn make(alloc: A, room: usize, processors: usize) -> Result<Self, AllocError> {
        Ok(RefCell::new(M::make(alloc, room, processors)?))
    }
}
