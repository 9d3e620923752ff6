//! Numbers in ordered maps.

ghost use Rattle.std.specs.Prelude.{Some, OnOk, OnErr, unwrap_or};
ghost use Rattle.std.specs.BTreeMap.{get, ContainsKey, IsUnchanged, Updates};

use rm_types::NoMemory;
use std::collections::BTreeMap;

// Gives a key the number 0 where the map lacks it.
pub fn admit<K: Ord + Drop>(map: &mut BTreeMap<K, u16>, key: K) -> Result<(), NoMemory>
    ensures ok { OnOk result (Updates K.cmp map.old map.new key (Some (unwrap_or (get K.cmp map.old key) 0))) }
    ensures err { OnErr result (IsUnchanged map.old map.new) }
{
    map.entry(key)?.or_insert(0);
    Ok(())
}

// Sets the number of a key that the map has.
pub fn write<K: Ord>(map: &mut BTreeMap<K, u16>, key: &K, number: u16)
    requires { ContainsKey K.cmp map.old key.now }
    ensures { Updates K.cmp map.old map.new key.now (Some number) }
{
    if let Some(entry) = map.get_mut(key) {
        *entry = number;
    }
}
