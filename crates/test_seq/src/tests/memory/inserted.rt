//! Insertions.

use super::{
    NumberMap, Refused, assert_same, assert_same_at, map_of, metered, number_at, refuse_each,
    size_of, taken,
};
use flurry_base::hash::LowHashBuilder;
use flurry_base::reply::KeptReply;
use flurry_bins::bin::Node;
use metered_alloc::MeteredAlloc;
use std::alloc::{AllocError, Allocator, Global};
use std::process::Abort;
use std::sync::Arc;

// An insertion of a key and a value.
#[derive(Clone, Copy)]
enum Write {
    Insert(u64, u64),
    TryInsert(u64, u64),
    InsertArc(u64, u64),
    InsertNode(u64, u64),
}

// Returns a key and a value, each in an `Arc`.
fn owners<A: Allocator + Copy>(
    memory: A,
    key: u64,
    value: u64,
) -> Result<(Arc<u64, A>, Arc<u64, A>), AllocError> {
    let key = Arc::new(memory, key)?;
    let value = Arc::new(memory, value)?;
    Ok((key, value))
}

// Inserts a key and a value that are each in an `Arc`, and returns the old value. It also fails if memory for one of the `Arc`s cannot be
// allocated.
fn insert_arc<A: Allocator + Copy>(
    map: &mut NumberMap<LowHashBuilder, A>,
    key: u64,
    value: u64,
) -> Result<Option<u64>, AllocError> {
    let memory = *map.allocator();
    let (key, value) = owners(memory, key, value)?;
    let old = map.insert_arc(key, value)?;
    Ok(taken(old))
}

// Inserts a key and a value by a node, which is made under another hash, and returns the old value. It also fails if memory for the node
// cannot be allocated.
fn insert_node<A: Allocator + Copy>(
    map: &mut NumberMap<LowHashBuilder, A>,
    key: u64,
    value: u64,
) -> Result<Option<u64>, AllocError> {
    let node = Node::of_pair(*map.allocator(), 77, key, value, 0)?;
    let old = map.insert_node(node)?;
    Ok(taken(old))
}

// Inserts a key and a value, and returns the old value.
fn insert<A: Allocator + Copy>(
    map: &mut NumberMap<LowHashBuilder, A>,
    key: u64,
    value: u64,
) -> Result<Option<u64>, AllocError> {
    let old = map.insert(key, value)?;
    Ok(taken(old))
}

// Returns the reply of `try_insert`, or `None` if it fails.
fn try_insert<A: Allocator + Copy>(
    map: &mut NumberMap<LowHashBuilder, A>,
    key: u64,
    value: u64,
) -> Option<KeptReply<u64, u64>> {
    match map.try_insert(key, value) {
        Ok(Ok(new)) => Some(KeptReply::New(*new)),
        Ok(Err(error)) => Some(KeptReply::Exists {
            current: *error.current,
            not_inserted: error.not_inserted,
        }),
        Err(_) => None,
    }
}

// Returns the reply of an insertion, or `None` if it fails.
fn reply_of<A: Allocator + Copy>(
    map: &mut NumberMap<LowHashBuilder, A>,
    write: Write,
) -> Option<KeptReply<u64, u64>> {
    let answer = match write {
        Write::Insert(key, value) => insert(map, key, value),
        Write::TryInsert(key, value) => return try_insert(map, key, value),
        Write::InsertArc(key, value) => insert_arc(map, key, value),
        Write::InsertNode(key, value) => insert_node(map, key, value),
    };
    match answer {
        Ok(old) => Some(KeptReply::Value(old)),
        Err(_) => None,
    }
}

// The numbers of bins and pairs, and the numbers at the keys 0, 1 and 2.
type Stands = ((usize, usize), [Option<u64>; 3]);

fn stands<A: Allocator + Copy>(map: &NumberMap<LowHashBuilder, A>) -> Stands {
    (
        size_of(map),
        [number_at(map, 0), number_at(map, 1), number_at(map, 2)],
    )
}

// An insertion into a map of `keys` keys: what the map has if the insertion fails, what the insertion replies if it succeeds, also after it
// has failed, and what the map has then.
#[derive(Drop)]
struct Inserts {
    keys: u64,
    write: Write,
    kept: Stands,
    reply: KeptReply<u64, u64>,
    written: Stands,
}

impl Refused for Inserts {
    fn run_refusing<A: Allocator + Copy>(
        &self,
        rt: &impl Abort,
        metered: &MeteredAlloc<Global>,
        memory: A,
        k: u64,
    ) -> bool {
        let mut map = map_of(rt, memory, self.keys);
        let before = metered.live_blocks();
        metered.refuse_at(k);
        let mut reply = reply_of(&mut map, self.write);
        let refused = metered.was_refused();
        metered.refuse_nothing();
        if refused {
            assert_same_at(rt, k, (reply, stands(&map)), (None, self.kept));
            assert_same_at(rt, k, metered.live_blocks(), before);
            reply = reply_of(&mut map, self.write);
        }
        assert_same_at(
            rt,
            k,
            (reply, stands(&map)),
            (Some(self.reply), self.written),
        );
        refused
    }
}

#[test]
fn insert_into_a_new_map(rt: HostRuntime) {
    let call = Inserts {
        keys: 0,
        write: Write::Insert(1, 1),
        kept: ((0, 0), [None, None, None]),
        reply: KeptReply::Value(None),
        written: ((16, 1), [None, Some(1), None]),
    };
    refuse_each(&rt, rt.alloc(), &call);
}

#[test]
fn insert_of_a_present_key(rt: HostRuntime) {
    let call = Inserts {
        keys: 2,
        write: Write::Insert(1, 5),
        kept: ((16, 2), [Some(0), Some(1), None]),
        reply: KeptReply::Value(Some(1)),
        written: ((16, 2), [Some(0), Some(5), None]),
    };
    refuse_each(&rt, rt.alloc(), &call);
}

#[test]
fn insert_into_a_table(rt: HostRuntime) {
    let call = Inserts {
        keys: 2,
        write: Write::Insert(2, 5),
        kept: ((16, 2), [Some(0), Some(1), None]),
        reply: KeptReply::Value(None),
        written: ((16, 3), [Some(0), Some(1), Some(5)]),
    };
    refuse_each(&rt, rt.alloc(), &call);
}

#[test]
fn insert_arc_into_a_new_map(rt: HostRuntime) {
    let call = Inserts {
        keys: 0,
        write: Write::InsertArc(1, 5),
        kept: ((0, 0), [None, None, None]),
        reply: KeptReply::Value(None),
        written: ((16, 1), [None, Some(5), None]),
    };
    refuse_each(&rt, rt.alloc(), &call);
}

#[test]
fn insert_node_into_a_new_map(rt: HostRuntime) {
    let call = Inserts {
        keys: 0,
        write: Write::InsertNode(1, 5),
        kept: ((0, 0), [None, None, None]),
        reply: KeptReply::Value(None),
        written: ((16, 1), [None, Some(5), None]),
    };
    refuse_each(&rt, rt.alloc(), &call);
}

#[test]
fn try_insert_of_a_new_key(rt: HostRuntime) {
    let call = Inserts {
        keys: 0,
        write: Write::TryInsert(1, 5),
        kept: ((0, 0), [None, None, None]),
        reply: KeptReply::New(5),
        written: ((16, 1), [None, Some(5), None]),
    };
    refuse_each(&rt, rt.alloc(), &call);
}

// Inserts a present key while every request fails. Returns how many requests that makes, and the reply.
fn try_without<A: Allocator + Copy>(
    rt: &impl Abort,
    metered: &MeteredAlloc<Global>,
    memory: A,
) -> (u64, Option<KeptReply<u64, u64>>) {
    let mut map = map_of(rt, memory, 2);
    metered.refuse_from(0);
    let reply = reply_of(&mut map, Write::TryInsert(1, 5));
    let asked = metered.requests();
    metered.refuse_nothing();
    (asked, reply)
}

// It makes a clone of the `Arc` of the value that is present, and takes no memory.
#[test]
fn try_insert_of_a_present_key(rt: HostRuntime) {
    let rt = &rt;
    let memory = metered(rt, rt.alloc());
    let exists = KeptReply::Exists {
        current: 1,
        not_inserted: 5,
    };
    assert_same(rt, try_without(rt, memory, memory), (0, Some(exists)));
}
