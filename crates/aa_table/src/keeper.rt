//! What decides whether an entry is kept: a closure of a key and its value, or one of a key.
ghost use Rattle.std.specs.Prelude.{Bool};
ghost use Rattle.std.specs.Fn.{CalledAt};
ghost use Rattle.aa_table.specs.Retaining.{MayReturn};

use std::marker::Model;

// Decides whether an entry is kept, and may change its value.
pub(crate) trait Keeper<K, V>: Drop {
    // it may be called for any entry
    ghost is_callable: { Self → Type 0 };

    // a call for an entry may return this, and leave this value and this keeper
    ghost calls: { Self → K × V → Bool → V → Self → Type 0 };

    fn keeps(&mut self, key: &K, value: &mut V) -> bool
        requires { is_callable self.old }
        ensures callable { is_callable self.new }
        ensures called { calls self.old (key.now, value.old) result value.new self.new };
}

// A closure of a key and its value.
#[derive(Drop)]
pub(crate) struct OnEntry<F> {
    pub(crate) keep: F,
}

impl<F> Model for OnEntry<F> {
    ghost Value = { F };

    ghost view = { λ k. k.keep };
}

impl<K, V, F: FnMut(&K, &mut V) -> bool> Keeper<K, V> for OnEntry<F> {
    ghost is_callable = { F.IsAlwaysCallable };

    ghost calls = { MayReturn F.step };

    #[inline(always)]
    fn keeps(&mut self, key: &K, value: &mut V) -> bool {
        (self.keep)(key, value)
    }
}

// A closure of a key.
#[derive(Drop)]
pub(crate) struct OnKey<F> {
    pub(crate) keep: F,
}

impl<F> Model for OnKey<F> {
    ghost Value = { F };

    ghost view = { λ k. k.keep };
}

impl<K, V, F: FnMut(&K) -> bool> Keeper<K, V> for OnKey<F> {
    ghost is_callable = { F.IsAlwaysCallable };

    ghost calls = { λ f e keep _ g. CalledAt F.FnMut f e.0 keep g };

    #[inline(always)]
    fn keeps(&mut self, key: &K, _value: &mut V) -> bool {
        (self.keep)(key)
    }
}
