//! The functions of the calls that change a pair, as what they make of it.
ghost use Rattle.std.specs.Prelude.{◌≡◌};
ghost use Rattle.std.specs.Option.{option_copied};
ghost use Rattle.flurry_base.specs.Verdicts.{verdict_of};
ghost use Rattle.flurry_shared_view.specs.Alterations.{CalledOn, ComputesBy, MergesBy, UpdatesBy, RemovesIf, ReplacesIf, replacement};

use flurry_base::Verdict;
use flurry_bins_slots::ComputeFn;
use std::marker::Model;

// The function of `compute`, which also sees that there is no value.
#[derive(Drop)]
pub(crate) struct Computing<F> {
    pub(crate) f: F,
}

impl<F> Model for Computing<F> {
    ghost Value = { F };

    ghost view = { λ c. c.f };
}

impl<K, V, F: FnOnce(&K, Option<&V>) -> Option<V> + Drop> ComputeFn<K, V> for Computing<F> {
    ghost can_change = { λ f. F.IsAlwaysCallable f };

    ghost never_keeps = { λ _. Unit {0} };

    ghost changes = { ComputesBy F.FnOnce };

    fn change<'a>(self, key: &'a K, value: Option<&'a V>) -> Verdict<V> {
        set_or_remove(compute_on(self.f, key, value))
    }
}

// The value and the function of `merge`.
#[derive(Drop)]
pub(crate) struct Merging<V, F> {
    pub(crate) value: V,
    pub(crate) f: F,
}

impl<V, F> Model for Merging<V, F> {
    ghost Value = { V × F };

    ghost view = { λ m. (m.value, m.f) };
}

impl<K, V: Drop, F: FnOnce(&V, V) -> Option<V> + Drop> ComputeFn<K, V> for Merging<V, F> {
    ghost can_change = { λ p. F.IsAlwaysCallable p.1 };

    ghost never_keeps = { λ _. Unit {0} };

    ghost changes = { MergesBy F.FnOnce };

    fn change<'a>(self, _key: &'a K, old: Option<&'a V>) -> Verdict<V> {
        let Merging { value, f } = self;
        match old {
            Some(old) => set_or_remove(f(old, value)),
            None => Verdict::Set(value),
        }
    }
}

// The function of `update`.
#[derive(Drop)]
pub(crate) struct Updating<F> {
    pub(crate) f: F,
}

impl<F> Model for Updating<F> {
    ghost Value = { F };

    ghost view = { λ u. u.f };
}

impl<K, V, F: FnOnce(&K, &V) -> V + Drop> ComputeFn<K, V> for Updating<F> {
    ghost can_change = { λ f. F.IsAlwaysCallable f };

    ghost never_keeps = { λ _. Unit {0} };

    ghost changes = { UpdatesBy F.FnOnce };

    fn change<'a>(self, key: &'a K, value: Option<&'a V>) -> Verdict<V> {
        match value {
            Some(value) => Verdict::Set((self.f)(key, value)),
            None => Verdict::Keep,
        }
    }
}

// The test of `remove_if`.
#[derive(Drop)]
pub(crate) struct Removing<F> {
    pub(crate) test: F,
}

impl<F> Model for Removing<F> {
    ghost Value = { F };

    ghost view = { λ r. r.test };
}

impl<K, V, F: FnOnce(&K, &V) -> bool + Drop> ComputeFn<K, V> for Removing<F> {
    ghost can_change = { λ f. F.IsAlwaysCallable f };

    ghost never_keeps = { λ _. ⊥ };

    ghost changes = { RemovesIf F.FnOnce };

    fn change<'a>(self, key: &'a K, value: Option<&'a V>) -> Verdict<V> {
        match value {
            Some(value) => {
                if (self.test)(key, value) {
                    Verdict::Remove
                } else {
                    Verdict::Keep
                }
            }
            None => Verdict::Keep,
        }
    }
}

// The test of `replace_if`, and the value, which stays the caller's until it is stored: so it is not dropped while the bin is locked.
#[derive(Drop)]
pub(crate) struct Replacing<'v, V, F> {
    pub(crate) value: &'v mut Option<V>,
    pub(crate) test: F,
}

impl<'v, V, F> Model for Replacing<'v, V, F> {
    ghost use Rattle.std.specs.Prelude.{Option};

    ghost Value = { Option V × F };

    ghost view = { λ r. (r.value.now, r.test) };
}

impl<'v, K, V: Drop, F: FnOnce(&K, &V) -> bool + Drop> ComputeFn<K, V> for Replacing<'v, V, F> {
    ghost can_change = { λ p. F.IsAlwaysCallable p.1 };

    ghost never_keeps = { λ _. ⊥ };

    ghost changes = { ReplacesIf F.FnOnce };

    fn change<'a>(self, key: &'a K, old: Option<&'a V>) -> Verdict<V> {
        let Replacing { value, test } = self;
        match old {
            Some(old) => {
                if test(key, old) {
                    set_or_keep(value.take())
                } else {
                    Verdict::Keep
                }
            }
            None => Verdict::Keep,
        }
    }
}

// What a function says of a pair by the value that is to stand, or by none.
fn set_or_remove<V>(value: Option<V>) -> Verdict<V>
    ensures { result ≡ verdict_of value }
{
    match value {
        Some(value) => Verdict::Set(value),
        None => Verdict::Remove,
    }
}

// What a function says of a pair by the value that is to stand, or keeps it if there is none.
fn set_or_keep<V>(value: Option<V>) -> Verdict<V>
    ensures { result ≡ replacement value }
{
    match value {
        Some(value) => Verdict::Set(value),
        None => Verdict::Keep,
    }
}

// Calls `f` on a key and on a value, or on none.
fn compute_on<'a, K, V, F: FnOnce(&K, Option<&V>) -> Option<V> + Drop>(
    f: F,
    key: &'a K,
    value: Option<&'a V>,
) -> Option<V>
    requires { F.IsAlwaysCallable f }
    ensures { CalledOn F.FnOnce f key.now (option_copied value.entry) result }
{
    f(key, value)
}
