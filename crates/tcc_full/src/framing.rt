//! Objects that have one list among their members, as text that is made item by item: a value of all items would take many times
//! the room of their text.
ghost use Rattle.std.specs.Prelude.{◌≡◌, ◌-◌, ◌++◌, IfOk, OnOk, drop, length, map, take};
ghost use Rattle.serde_json.specs.Data.{array};
ghost use Rattle.serde_json.specs.View.{items_of};
ghost use Rattle.serde_json.specs.Written.{compact_text};
ghost use Rattle.tcc_answer.specs.Json.{json_line};
ghost use Rattle.tcc_full.specs.private.Framing.{IsFrame, framed};

use serde_json::Value;
use std::alloc::Global;
use tcc_answer::pieces::{Objects, push, push_objects};
use tcc_answer::quoted;
use tcc_txn::NoMemory;

/// What an object has beside its list: the members before it, the name of the list, and the members after it.
#[derive(Drop)]
pub(crate) struct Frame {
    pub(crate) before: Value,
    pub(crate) name: &'static str,
    pub(crate) after: Value,
}

/// The text without its last byte.
fn without_last(text: &[u8]) -> &[u8]
    ensures { result.now ≡ take (length text.now - 1) text.now }
{
    &text[..text.len().saturating_sub(1)]
}

/// The text without its first byte.
fn without_first(text: &[u8]) -> &[u8]
    ensures { result.now ≡ drop 1 text.now }
{
    &text[text.len().min(1)..]
}

impl Frame {
    /// Adds the text of the object that has these items as its list.
    pub(crate) fn push<T, O: Objects<T>>(
        &self,
        alloc: Global,
        text: &mut Vec<u8>,
        objects: &O,
        items: &[T],
    ) -> Result<(), NoMemory>
        requires { IsFrame self.now }
        ensures { OnOk result (text.new.items ≡ text.old.items ++ compact_text (framed self.now (array (items_of (map (O.json objects.now) items.now))))) }
    {
        let before = self.before.to_string(alloc)?;
        let name = quoted(alloc, self.name)?;
        let after = self.after.to_string(alloc)?;
        let front = without_last(before.as_bytes());
        push(text, &[front, b",", name.as_bytes(), b":["])?;
        push_objects(alloc, text, objects, items)?;
        push(text, &[b",", without_first(after.as_bytes())])
    }

    /// The line of the object that has these items as its list.
    pub(crate) fn line<T, O: Objects<T>>(
        &self,
        alloc: Global,
        objects: &O,
        items: &[T],
    ) -> Result<Vec<u8>, NoMemory>
        requires { IsFrame self.now }
        ensures { IfOk result (λ line. line.items ≡ json_line (framed self.now (array (items_of (map (O.json objects.now) items.now))))) }
    {
        let mut line = Vec::new(alloc);
        self.push(alloc, &mut line, objects, items)?;
        push(&mut line, &[b"\n"])?;
        Ok(line)
    }
}
