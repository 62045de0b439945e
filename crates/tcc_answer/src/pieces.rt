//! Texts that grow by pieces.
ghost use Rattle.std.specs.Prelude.{◌≡◌, ◌++◌, IfOk, OnOk, false, flat_map, map};
ghost use Rattle.serde_json.specs.View.{items_of, view};
ghost use Rattle.serde_json.specs.Written.{compact_text, has_float, items_text};
ghost use Rattle.tcc_answer.specs.private.Pieces.{later_item};

use serde_json::Value;
use std::alloc::Global;
use tcc_txn::NoMemory;

/// Adds the pieces at the end, one after the other.
pub fn push(text: &mut Vec<u8>, pieces: &[&[u8]]) -> Result<(), NoMemory>
    ensures { OnOk result (text.new.items ≡ text.old.items ++ flat_map (λ piece. piece.now) pieces.now) }
{
    for piece in pieces {
        text.extend_from_slice(piece)?;
    }
    Ok(())
}

/// The pieces, one after the other, as a text.
pub fn joined(alloc: Global, pieces: &[&[u8]]) -> Result<Vec<u8>, NoMemory>
    ensures { IfOk result (λ text. text.items ≡ flat_map (λ piece. piece.now) pieces.now) }
{
    let mut text = Vec::new(alloc);
    push(&mut text, pieces)?;
    Ok(text)
}

/// Adds the text of a value without floats.
pub fn push_value(alloc: Global, text: &mut Vec<u8>, value: &Value) -> Result<(), NoMemory>
    requires { has_float (view value.now) ≡ false }
    ensures { OnOk result (text.new.items ≡ text.old.items ++ compact_text (view value.now)) }
{
    let bytes = value.to_string(alloc)?;
    push(text, &[bytes.as_bytes()])
}

/// How items are written as JSON, one at a time.
pub trait Objects<T> {
    ghost use Rattle.std.specs.Prelude.{◌≡◌, ◌++◌, OnOk};
    ghost use Rattle.serde_json.specs.Data.{Data};
    ghost use Rattle.serde_json.specs.Written.{compact_text};

    ghost json: { Self → T → Data };

    /// Adds the object of an item.
    fn push_object(&self, alloc: Global, text: &mut Vec<u8>, item: &T) -> Result<(), NoMemory>
        ensures { OnOk result (text.new.items ≡ text.old.items ++ compact_text (json self.now item.now)) };
}

/// Adds the objects of items, each after a comma.
fn push_later<T, O: Objects<T>>(
    alloc: Global,
    text: &mut Vec<u8>,
    objects: &O,
    items: &[T],
) -> Result<(), NoMemory>
    ensures { OnOk result (text.new.items ≡ text.old.items ++ flat_map (later_item (O.json objects.now)) items.now) }
{
    for item in items {
        push(text, &[b","])?;
        objects.push_object(alloc, text, item)?;
    }
    Ok(())
}

/// Adds the objects of items and the bracket after them: what a list has after its first bracket. It is made step by
/// step, since a value of all items would take many times the room of their text.
pub fn push_objects<T, O: Objects<T>>(
    alloc: Global,
    text: &mut Vec<u8>,
    objects: &O,
    items: &[T],
) -> Result<(), NoMemory>
    ensures { OnOk result (text.new.items ≡ text.old.items ++ items_text false (items_of (map (O.json objects.now) items.now))) }
{
    let Some((first, others)) = items.split_first() else {
        return push(text, &[b"]"]);
    };
    objects.push_object(alloc, text, first)?;
    push_later(alloc, text, objects, others)?;
    push(text, &[b"]"])
}
