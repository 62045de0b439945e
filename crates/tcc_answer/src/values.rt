//! Lists of values of JSON.
ghost use Rattle.std.specs.Prelude.{◌≡◌, IfOk, map};
ghost use Rattle.serde_json.specs.Data.{array};
ghost use Rattle.serde_json.specs.View.{items_of, view};

use serde_json::Value;
use std::alloc::{AllocError, Global};

/// How items are values of JSON.
pub trait Values<T> {
    ghost use Rattle.std.specs.Prelude.{◌≡◌, IfOk};
    ghost use Rattle.serde_json.specs.Data.{Data};
    ghost use Rattle.serde_json.specs.View.{view};

    ghost json: { Self → T → Data };

    /// The value of an item.
    fn value(&self, alloc: Global, item: &T) -> Result<Value, AllocError>
        ensures { IfOk result (λ v. view v ≡ json self.now item.now) };
}

/// The list of the values of items.
pub fn list_json<T, V: Values<T>>(
    alloc: Global,
    values: &V,
    items: &[T],
) -> Result<Value, AllocError>
    ensures { IfOk result (λ v. view v ≡ array (items_of (map (V.json values.now) items.now))) }
{
    let mut list = Vec::new(alloc);
    for item in items {
        list.push(values.value(alloc, item)?)?;
    }
    Ok(Value::Array(list))
}
