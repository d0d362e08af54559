//! The laws over every run, and that their finite map is that of the owned map.
ghost use Rattle.std.specs.Prelude.{◌≡◌, ℕ, pos, neg_ℤ, ◌≤ℤ◌, Bool, true, ◌<◌, ◌≤◌, List, ◌++◌, length, Option, Some, None, if◌then◌else◌};
ghost use Rattle.flurry_base.specs.declared.reply.KeptReply.{KeptReply};
ghost use Rattle.flurry_base.specs.FiniteMap.{IsFiniteMap, map_of_pairs};
ghost use Rattle.flurry_base.specs.declared.call.Call.{Call};
ghost use Rattle.flurry_steps_theory.specs.Map.{Pairs, same, answers};
ghost use Rattle.flurry_steps_theory.specs.OneKeyCalls.{HasSamePairs, AgreesOn};
ghost use Rattle.flurry_steps_theory.specs.Trace.{pairs};
ghost use Rattle.flurry_steps_theory.specs.Machine.{Finished, Transition, WasPublished};
ghost use Rattle.flurry_steps_theory.specs.Invariant.{Inv, CanAll, after_all, new_world};
ghost use Rattle.flurry_base.specs.declared.sizes.TheConstants.{MAX_TABLE};

use flurry_base::Verdict;

/// States that the trace is lawful, whichever steps the parties do, and in any order. Does nothing; its contract is a law.
///
/// Each reply is that of the finite map at the deciding step of its call. Growths move each bin once and publish complete tables. Walks
/// give pairs that are present, give no class twice, and miss no class that stayed. The live bins hold the map, and the unclaimed,
/// claimed and reported bins make up the growing table without overlap. While all of them are reported, exactly one party is told to
/// publish the next table, and otherwise none is. A conditional removal removes only a pair that nobody has written or removed since its
/// walk read it, and, within the first 2^62 labels, it removes every such pair. A call fails for lack of memory only if the map allows
/// that failure. A look-up decides or fails by its 32nd step, and replies at the next one. The number of pairs is the count plus what is
/// still to be counted.
pub fn every_interleaving<K: Ord, V, F: Fn(&K, Option<&V>) -> Verdict<V>>()
    ensures { (hash : K → ℕ) → ((j k : K) → same K.cmp j k ≡ true → hash j ≡ hash k)
        → (e : ℕ) (b : Bool) → e ≤ MAX_TABLE → (steps : List (ℕ × Transition K V F))
        → CanAll K.cmp hash (answers F.Fn) (new_world e b) steps
        → (home : ℕ → ℕ)
        × Inv K.cmp hash (answers F.Fn) (if b then Some e else None) home
        (after_all K.cmp hash (answers F.Fn) (new_world e b) steps) }
{}

/// States that a call may start at an exponent that was published after some steps of a run, also after any further steps. So a party may
/// take the exponent from wherever it was written down, without the control's lock. Does nothing; its contract is a law.
pub fn exponents_stay_published<K: Ord, V, F: Fn(&K, Option<&V>) -> Verdict<V>>()
    ensures { (hash : K → ℕ) → ((j k : K) → same K.cmp j k ≡ true → hash j ≡ hash k)
        → (e : ℕ) (b : Bool) → e ≤ MAX_TABLE → (more steps : List (ℕ × Transition K V F))
        → CanAll K.cmp hash (answers F.Fn) (new_world e b) (more ++ steps)
        → (x : ℕ) → (after_all K.cmp hash (answers F.Fn) (new_world e b) steps).published ≡ Some x
        → WasPublished K.cmp hash (answers F.Fn)
        (after_all K.cmp hash (answers F.Fn) (new_world e b) (more ++ steps)) x }
{}

/// States that the count is the number of pairs once every party that started has finished, whichever party counted for which: no party
/// replies, ends or fails while pairs that it added or removed are still to be counted. Does nothing; its contract is a law.
pub fn count_is_exact<K: Ord, V, F: Fn(&K, Option<&V>) -> Verdict<V>>()
    ensures { (hash : K → ℕ) → ((j k : K) → same K.cmp j k ≡ true → hash j ≡ hash k)
        → (e : ℕ) (b : Bool) → e ≤ MAX_TABLE → (steps : List (ℕ × Transition K V F))
        → CanAll K.cmp hash (answers F.Fn) (new_world e b) steps
        → ((p : ℕ) → p < (after_all K.cmp hash (answers F.Fn) (new_world e b) steps).parties
        → (after_all K.cmp hash (answers F.Fn) (new_world e b) steps).mode p ≡ Finished)
        → pos (length (pairs K.cmp hash (after_all K.cmp hash (answers F.Fn) (new_world e b) steps).trace))
        ≡ (after_all K.cmp hash (answers F.Fn) (new_world e b) steps).count }
{}

/// States that the count is never further from 0 than the number of labels, so that 64 bits hold it in any run of fewer than 2^63 steps.
/// Does nothing; its contract is a law.
pub fn count_stays_within_labels<K: Ord, V, F: Fn(&K, Option<&V>) -> Verdict<V>>()
    ensures { (hash : K → ℕ) → ((j k : K) → same K.cmp j k ≡ true → hash j ≡ hash k)
        → (e : ℕ) (b : Bool) → e ≤ MAX_TABLE → (steps : List (ℕ × Transition K V F))
        → CanAll K.cmp hash (answers F.Fn) (new_world e b) steps
        → ((after_all K.cmp hash (answers F.Fn) (new_world e b) steps).count ≤ℤ pos
        (length (after_all K.cmp hash (answers F.Fn) (new_world e b) steps).trace))
        × (neg_ℤ (pos (length (after_all K.cmp hash (answers F.Fn) (new_world e b) steps).trace)) ≤ℤ
        (after_all K.cmp hash (answers F.Fn) (new_world e b) steps).count) }
{}

/// States that the reply of the finite map means the same in the laws of a run as for a caller of the owned map. Does nothing; its
/// contract is a law.
///
/// A one-key call has one definition on the owned map, in the order of its keys, and one on the pairs along a trace, which have no order.
/// If both have the same pair at each class, each may reply exactly what the other may, and both have the same pairs after the call. Any
/// pairs are those of some finite map, and a list that is looked up in either way has the same pair at each class.
pub fn one_key_calls_agree<K: Ord, V, F: Fn(&K, Option<&V>) -> Verdict<V>>()
    ensures calls { (c : Call K V F) (m : List (K × V)) (n : Pairs K V) (r : KeptReply K V)
        → IsFiniteMap K.cmp m → HasSamePairs K.cmp m n
        → AgreesOn K.cmp (answers F.Fn) c m n r }
    ensures maps { (n : Pairs K V) → IsFiniteMap K.cmp (map_of_pairs K.cmp n)
        × HasSamePairs K.cmp (map_of_pairs K.cmp n) n }
    ensures lookups { (m : List (K × V)) → HasSamePairs K.cmp m m }
{}
