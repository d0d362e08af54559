//! Insertions into an owned map.
ghost use Rattle.std.specs.Prelude.{◌≡◌, ◌<◌, ◌+◌, length, OnOk, OnErr, IfOk, IsOkAnd, IsErrAnd, MatchOption, Option, Some, None, Ok, IsSome, IsNone, IsOk, IsTrue, is_some, ◌==◌};
ghost use Rattle.std.specs.Option.{option_map};
ghost use Rattle.std.specs.Arc.{arc_value};
ghost use Rattle.flurry_bins.specs.Chain.{entry_of};
ghost use Rattle.flurry_base.specs.FiniteMap.{IsFiniteMap, pair_at, value_at, with_pair};
ghost use Rattle.flurry_seq.specs.Growth.{IsTableAfter};
ghost use Rattle.flurry_seq.specs.Contents.{first_bins};
ghost use Rattle.flurry_base.specs.declared.sizes.TheConstants.{FIRST_BINS, MIN_TREEIFY_BINS, TREEIFY_LEN, MAX_LEN};

use super::SeqMap;
use flurry_base::TryInsertError;
use flurry_base::hash::KeyHasher;
use flurry_base::sizes::{FIRST_BINS, MAX_LEN};
use flurry_bins::bin::{Entry, Node};
use std::alloc::{AllocError, Allocator};
use std::sync::Arc;

impl<K: Ord + Drop, V: Drop, S: KeyHasher<K>, A: Allocator + Copy> SeqMap<K, V, S, A> {
    /// Inserts a pair, and returns the value that the key had, or `None` if the key was absent. If the key is present, the stored key
    /// stays, and `key` is dropped. A new key may enlarge the table; if memory for the larger table cannot be allocated, the map keeps the
    /// old table.
    ///
    /// ```
    /// let mut map: SeqMap<u64, u64> = SeqMap::new(rt.alloc());
    /// assert!(rt; map.insert(37, 1)?.is_none());
    /// assert_eq!(rt; map.insert(37, 2)?.map(|old| *old), Some(1));
    /// assert_eq!(rt; map.len(), 1);
    /// ```
    ///
    /// # Errors
    ///
    /// Returns [`AllocError`] if memory for the pair or for a first table cannot be allocated, or if the key is new and the map has
    /// [`MAX_LEN`] pairs. The map is unchanged, and the key and the value are dropped.
    pub fn insert(&mut self, key: K, value: V) -> Result<Option<Arc<V, A>>, AllocError>
        ensures old { IfOk result (λ old. option_map arc_value old ≡ value_at K.cmp self.old.pairs key) }
        ensures pairs { OnOk result (self.new.pairs ≡ with_pair K.cmp self.old.pairs key value) }
        ensures hasher { self.new.hasher ≡ self.old.hasher }
        ensures bins { IfOk result (λ old. IsSome old → self.new.bins ≡ self.old.bins) }
        ensures grown { IfOk result (λ old. IsNone old
            → IsTableAfter (first_bins self.old.bins FIRST_BINS) (length self.new.pairs) self.new.bins) }
        ensures err { OnErr result (self.new ≡ self.old) }
        ensures ascend { IsFiniteMap K.cmp self.old.pairs }
    {
        let hash = self.hash_of(&key);
        if self.capacity() == 0 || self.len() == MAX_LEN {
            return self.look_and_insert(hash, key, value);
        }
        let value = Arc::new(*self.allocator(), value)?;
        self.insert_pair_in_bin(hash, key, value)
    }

    // Sets the value of a key whose hash is `hash`, when there may be no table or no room. Looks for the key before it allocates memory.
    fn look_and_insert(
        &mut self,
        hash: u64,
        key: K,
        value: V,
    ) -> Result<Option<Arc<V, A>>, AllocError>
        requires { hash ≡ S.hash_of self.old.hasher key }
        ensures old { IfOk result (λ old. option_map arc_value old ≡ value_at K.cmp self.old.pairs key) }
        ensures pairs { OnOk result (self.new.pairs ≡ with_pair K.cmp self.old.pairs key value) }
        ensures hasher { self.new.hasher ≡ self.old.hasher }
        ensures bins { IfOk result (λ old. IsSome old → self.new.bins ≡ self.old.bins) }
        ensures grown { IfOk result (λ old. IsNone old
            → IsTableAfter (first_bins self.old.bins FIRST_BINS) (length self.new.pairs) self.new.bins) }
        ensures err { OnErr result (self.new ≡ self.old) }
    {
        if self.find(hash, &key).is_some() {
            let value = Arc::new(*self.allocator(), value)?;
            return Ok(Some(self.swap_value(hash, &key, value)));
        }
        let node = Node::of_pair(*self.allocator(), hash, key, value, 0)?;
        self.add(node)?;
        Ok(None)
    }

    // Sets the value of a key whose hash is `hash`, when there is a table and room, in one pass down the key's bin.
    fn insert_pair_in_bin(
        &mut self,
        hash: u64,
        key: K,
        value: Arc<V, A>,
    ) -> Result<Option<Arc<V, A>>, AllocError>
        requires hash { hash ≡ S.hash_of self.old.hasher key }
        requires table { 0 < self.old.bins }
        requires room { length self.old.pairs < MAX_LEN }
        ensures old { IfOk result (λ old. option_map arc_value old ≡ value_at K.cmp self.old.pairs key) }
        ensures pairs { OnOk result (self.new.pairs ≡ with_pair K.cmp self.old.pairs key (arc_value value)) }
        ensures hasher { self.new.hasher ≡ self.old.hasher }
        ensures bins { IfOk result (λ old. IsSome old → self.new.bins ≡ self.old.bins) }
        ensures grown { IfOk result (λ old. IsNone old
            → IsTableAfter (first_bins self.old.bins FIRST_BINS) (length self.new.pairs) self.new.bins) }
        ensures err { OnErr result (self.new ≡ self.old) }
    {
        match self.table.insert(hash, key, value)? {
            (Some(old), _) => Ok(Some(old)),
            (None, asks) => {
                self.len += 1;
                self.grow(asks);
                Ok(None)
            }
        }
    }

    /// Inserts a pair as [`SeqMap::insert`] does, with the key and the value in `Arc`s that may have other owners. Returns the value that
    /// the key had, or `None` if the key was absent.
    ///
    /// # Errors
    ///
    /// Returns [`AllocError`] if memory for the pair's node or for a first table cannot be allocated, or if the key is new and the map has
    /// [`MAX_LEN`] pairs. The map is unchanged.
    pub fn insert_arc(
        &mut self,
        key: Arc<K, A>,
        value: Arc<V, A>,
    ) -> Result<Option<Arc<V, A>>, AllocError>
        ensures old { IfOk result (λ old. option_map arc_value old ≡ value_at K.cmp self.old.pairs (arc_value key)) }
        ensures pairs { OnOk result
            (self.new.pairs ≡ with_pair K.cmp self.old.pairs (arc_value key) (arc_value value)) }
        ensures hasher { self.new.hasher ≡ self.old.hasher }
        ensures bins { IfOk result (λ old. IsSome old → self.new.bins ≡ self.old.bins) }
        ensures grown { IfOk result (λ old. IsNone old
            → IsTableAfter (first_bins self.old.bins FIRST_BINS) (length self.new.pairs) self.new.bins) }
        ensures err { OnErr result (self.new ≡ self.old) }
        ensures ascend { IsFiniteMap K.cmp self.old.pairs }
    {
        let hash = self.hash_of(key.as_ref());
        if self.find(hash, key.as_ref()).is_some() {
            return Ok(Some(self.swap_value(hash, key.as_ref(), value)));
        }
        let entry = Entry {
            hash,
            key,
            value,
            number: 0,
        };
        let node = Node::new(*self.allocator(), entry)?;
        self.add(node)?;
        Ok(None)
    }

    /// Inserts the pair of a node that is in no bin, as [`SeqMap::insert`] does. Returns the value that the key had, or `None` if the key
    /// was absent. The node gets the hash that the map's hasher gives its key. If the key is present, its value is replaced, and the node
    /// is dropped.
    ///
    /// # Errors
    ///
    /// Returns [`AllocError`] if memory for a first table cannot be allocated, or if the key is new and the map has [`MAX_LEN`] pairs.
    /// The map is unchanged, and the node is dropped.
    pub fn insert_node(
        &mut self,
        node: Box<Node<K, V, A>, A>,
    ) -> Result<Option<Arc<V, A>>, AllocError>
        requires number { (entry_of node.value).number ≡ 0 }
        ensures old { let e = entry_of node.value in
            IfOk result (λ old. option_map arc_value old ≡ value_at K.cmp self.old.pairs (arc_value e.key)) }
        ensures pairs { let e = entry_of node.value in
            OnOk result (self.new.pairs ≡ with_pair K.cmp self.old.pairs (arc_value e.key) (arc_value e.value)) }
        ensures hasher { self.new.hasher ≡ self.old.hasher }
        ensures bins { IfOk result (λ old. IsSome old → self.new.bins ≡ self.old.bins) }
        ensures grown { IfOk result (λ old. IsNone old
            → IsTableAfter (first_bins self.old.bins FIRST_BINS) (length self.new.pairs) self.new.bins) }
        ensures err { OnErr result (self.new ≡ self.old) }
        ensures ascend { IsFiniteMap K.cmp self.old.pairs }
    {
        let mut node = node;
        let key = node.entry().key.as_ref();
        let hash = self.hash_of(key);
        if self.find(hash, key).is_some() {
            let Entry { key, value, .. } = Box::into_inner(node).into_entry();
            let old = self.swap_value(hash, key.as_ref(), value);
            return Ok(Some(old));
        }
        node.rehash(hash);
        self.add(node)?;
        Ok(None)
    }

    /// Inserts a pair if the key is absent, and returns a clone of the value's `Arc`. If the key is present, nothing changes: the returned
    /// [`TryInsertError`] has a clone of the current value's `Arc`, and `value`; `key` is dropped.
    ///
    /// ```
    /// let mut map: SeqMap<u64, u64> = SeqMap::new(rt.alloc());
    /// assert_eq!(rt; map.try_insert(37, 1)?.ok().map(|new| *new), Some(1));
    /// let refused = map.try_insert(37, 2)?.err();
    /// assert_eq!(rt;
    ///     refused.map(|it| (*it.current, it.not_inserted)),
    ///     Some((1, 2))
    /// );
    /// ```
    ///
    /// # Errors
    ///
    /// Returns [`AllocError`] in the cases of [`SeqMap::insert`], and also if cloning the `Arc` of the returned value fails. The map is
    /// unchanged, and the key and the value are dropped.
    pub fn try_insert(
        &mut self,
        key: K,
        value: V,
    ) -> Result<Result<Arc<V, A>, TryInsertError<V, A>>, AllocError>
        ensures reply { IfOk result (λ reply. MatchOption (value_at K.cmp self.old.pairs key)
            (IsOkAnd reply (λ new. arc_value new ≡ value) × (self.new.pairs ≡ with_pair K.cmp self.old.pairs key value))
            (λ current. IsErrAnd reply (λ e. (arc_value e.current ≡ current) × (e.not_inserted ≡ value))
            × (self.new ≡ self.old))) }
        ensures grown { IfOk result (λ reply. IsOk reply
            → IsTableAfter (first_bins self.old.bins FIRST_BINS) (length self.new.pairs) self.new.bins) }
        ensures hasher { self.new.hasher ≡ self.old.hasher }
        ensures err { OnErr result (self.new ≡ self.old) }
        ensures ascend { IsFiniteMap K.cmp self.old.pairs }
    {
        let hash = self.hash_of(&key);
        if let Some(entry) = self.find(hash, &key) {
            let current = Arc::try_clone(&entry.value)?;
            return Ok(Err(TryInsertError {
                current,
                not_inserted: value,
            }));
        }
        let node = Node::of_pair(*self.allocator(), hash, key, value, 0)?;
        let value = Arc::try_clone(&node.entry().value)?;
        self.add(node)?;
        Ok(Ok(value))
    }

    // Adds a node with a new key, and enlarges the table if that is due.
    pub(crate) fn add(&mut self, node: Box<Node<K, V, A>, A>) -> Result<(), AllocError>
        requires hash { let e = entry_of node.value in e.hash ≡ S.hash_of self.old.hasher (arc_value e.key) }
        requires absent { pair_at K.cmp self.old.pairs (arc_value (entry_of node.value).key) ≡ None }
        requires number { (entry_of node.value).number ≡ 0 }
        ensures pairs { let e = entry_of node.value in
            OnOk result (self.new.pairs ≡ with_pair K.cmp self.old.pairs (arc_value e.key) (arc_value e.value)) }
        ensures bins { OnOk result
            (IsTableAfter (first_bins self.old.bins FIRST_BINS) (length self.new.pairs) self.new.bins) }
        ensures hasher { self.new.hasher ≡ self.old.hasher }
        ensures err { OnErr result (self.new ≡ self.old) }
    {
        let asks = self.put(node)?;
        self.grow(asks);
        Ok(())
    }

    // Puts a node with a new key into its bin. Returns whether the bin asks for a larger table.
    fn put(&mut self, node: Box<Node<K, V, A>, A>) -> Result<bool, AllocError>
        requires hash { let e = entry_of node.value in e.hash ≡ S.hash_of self.old.hasher (arc_value e.key) }
        requires absent { pair_at K.cmp self.old.pairs (arc_value (entry_of node.value).key) ≡ None }
        requires number { (entry_of node.value).number ≡ 0 }
        ensures pairs { let e = entry_of node.value in
            OnOk result (self.new.pairs ≡ with_pair K.cmp self.old.pairs (arc_value e.key) (arc_value e.value)) }
        ensures bins { OnOk result (self.new.bins ≡ first_bins self.old.bins FIRST_BINS) }
        ensures asks { IfOk result (λ asks. IsTrue asks
            → (self.new.bins < MIN_TREEIFY_BINS) × (TREEIFY_LEN < length self.new.pairs)) }
        ensures table { OnOk result (0 < self.new.bins) }
        ensures hasher { self.new.hasher ≡ self.old.hasher }
        ensures err { OnErr result (self.new ≡ self.old) }
    {
        if self.len == MAX_LEN {
            return Err(AllocError);
        }
        self.ensure_table(FIRST_BINS)?;
        let asks = self.table.put(node);
        self.len += 1;
        Ok(asks)
    }
}
