// What is true of all keys.
ghost use Rattle.std.specs.Prelude.{◌≡◌};
ghost use Rattle.std.specs.Cmp.{IsTotalOrder};
ghost use Rattle.qg_num.specs.Key.{IsKey, key_at, key_bytes, key_cmp};
ghost use Rattle.qg_num.specs.declared.key.Key.{Key};

use crate::Key;

/// A law: what compares keys is their order, by object, then by type, then by offset; and the order is total.
pub fn key_order()
    ensures compares { ⟦<Key as Ord>⟧.cmp ≡ key_cmp }
    ensures total { IsTotalOrder key_cmp }
{}

/// A law: keys with the same bytes are the same, and a key's bytes are read as the key.
pub fn key_round_trip()
    ensures same { (a b : Key) → IsKey a → IsKey b → key_bytes a ≡ key_bytes b → a ≡ b }
    ensures again { (key : Key) → IsKey key → key_at 0 (key_bytes key) ≡ key }
{}
