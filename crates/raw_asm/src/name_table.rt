//! Values that are found by their names.
ghost use Rattle.std.specs.Prelude.{◌≡◌, ℕ, List, Some, None, OnOk, if◌then◌else◌};
ghost use Rattle.std.specs.Option.{option_or};
ghost use Rattle.std.specs.Str.{bytes_eq};
ghost use Rattle.raw_asm.specs.NameTable.{value_in, HasNames};

use std::alloc::{AllocError, Global};
use std::collections::BTreeMap;

/// Adds a value at a name, unless the map has one there.
pub(crate) fn add_first<'a, V: Copy>(
    map: &mut BTreeMap<&'a [u8], V>,
    name: &'a [u8],
    value: V,
) -> Result<(), AllocError>
    ensures { OnOk result ((other : List ℕ) → value_in map.new other
        ≡ option_or (value_in map.old other) (if bytes_eq name.now other then Some value else None)) }
{
    if map.contains_key(name) {
        return Ok(());
    }
    map.insert(name, value)?;
    Ok(())
}

/// A table of values, each with its name.
pub trait NameTable {
    ghost use Rattle.std.specs.Prelude.{◌≡◌, ℕ, List};

    /// What has a name.
    type Value: Copy + 'static;

    ghost values: { List Self.Value };

    ghost name_of: { Self.Value → List ℕ };

    /// The values in the order of the table.
    fn values() -> &'static [Self::Value]
        ensures { result.now ≡ values };

    /// The name of a value.
    fn name(value: Self::Value) -> &'static str
        ensures { result.now ≡ name_of value };
}

/// Finds the values of a table by their names.
#[derive(Drop)]
pub struct Names<T: NameTable> {
    by_name: BTreeMap<&'static [u8], T::Value>,
    ghost all: { HasNames T.name_of T.values by_name },
}

impl<T: NameTable> Names<T> {
    ghost use Rattle.std.specs.Prelude.{◌≡◌};
    ghost use Rattle.raw_asm.specs.NameTable.{named_in};

    /// The names of the table.
    pub fn new(alloc: Global) -> Result<Names<T>, AllocError> {
        let mut by_name = BTreeMap::new(alloc);
        for value in T::values() {
            add_first(&mut by_name, T::name(*value).as_bytes(), *value)?;
        }
        Ok(Names { by_name })
    }

    /// The first value of the table that has this name.
    pub fn get(&self, name: &[u8]) -> Option<T::Value>
        ensures { result ≡ named_in T.name_of T.values name.now }
    {
        self.by_name.get(name).copied()
    }
}
