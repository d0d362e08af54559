//! A function that a call of one key calls on the pair of its key.
ghost use Rattle.std.specs.Prelude.{◌≡◌, Option, IsSome};
ghost use Rattle.std.specs.Option.{option_copied};
ghost use Rattle.flurry_base.specs.declared.verdict.Verdict.{Verdict};
ghost use Rattle.flurry_base.specs.declared.verdict.Verdict.TheVariants.{Keep, Remove};
ghost use Rattle.flurry_bins_slots.specs.ComputeFn.{AnswersIfPresent};

use flurry_base::Verdict;

/// A function of a key and its value, or none, that says what becomes of the pair.
///
/// Each `FnOnce(&K, &V) -> Option<V>` that may be dropped is one: the value that it returns is the new value, and if it returns `None`,
/// the pair is removed. It keeps an absent key absent.
///
/// ```
/// impl ComputeFn<u64, u64> for AtMost {
///     ghost can_change = { λ _. Unit {0} };
///
///     ghost never_keeps = { λ _. Unit {0} };
///
///     ghost changes = { λ f _ x v. v ≡ verdict_of (option_map (λ w. min w f.0) x) };
///
///     fn change<'a>(self, _key: &'a u64, value: Option<&'a u64>) -> Verdict<u64> {
///         match value {
///             Some(value) => Verdict::Set((*value).min(self.0)),
///             None => Verdict::Remove,
///         }
///     }
/// }
/// ```
pub trait ComputeFn<K, V>: Drop {
    // That the function may be called.
    ghost can_change: { Self → Type 0 };

    // That the function sets a value or removes the pair, if the key is present.
    ghost never_keeps: { Self → Type 0 };

    // What the function may make of the pair of a key.
    ghost changes: { Self → K → Option V → Verdict V → Type 0 };

    /// Calls the function on `key` and its value, or on `key` and `None`. Returns what becomes of the pair.
    fn change<'a>(self, key: &'a K, value: Option<&'a V>) -> Verdict<V>
        requires { can_change self }
        ensures verdict { changes self key.now (option_copied value.entry) result }
        ensures kept { never_keeps self → IsSome value.entry → result ≡ Keep → ⊥ };
}

impl<K, V, F: FnOnce(&K, &V) -> Option<V> + Drop> ComputeFn<K, V> for F {
    ghost can_change = { λ f. F.IsAlwaysCallable f };

    ghost never_keeps = { λ _. Unit {0} };

    ghost changes = { AnswersIfPresent F.FnOnce };

    fn change<'a>(self, key: &'a K, value: Option<&'a V>) -> Verdict<V> {
        match value {
            Some(value) => match self(key, value) {
                Some(new) => Verdict::Set(new),
                None => Verdict::Remove,
            },
            None => Verdict::Keep,
        }
    }
}

/// A stand-in for the function of a call that has none. It removes the pair.
///
/// ```
/// let call: OwnedCall<u64, u64, NoFn> = OwnedCall::Insert(key, value);
/// ```
#[derive(Clone, Copy, Debug)]
pub struct NoFn;

impl<K, V> ComputeFn<K, V> for NoFn {
    ghost can_change = { λ _. Unit {0} };

    ghost never_keeps = { λ _. Unit {0} };

    ghost changes = { λ _ _ _ v. v ≡ Remove };

    fn change<'a>(self, _key: &'a K, _value: Option<&'a V>) -> Verdict<V> {
        Verdict::Remove
    }
}
