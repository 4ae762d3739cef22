//! What the lines of a text define.

ghost use Rattle.std.specs.Prelude.{◌≡◌, ◌<◌, ◌^◌, IfErr, IfOk, length};
ghost use Rattle.rw_layout.specs.Checks.{IsFirstAt};
ghost use Rattle.rw_layout.specs.Keys.{Adds, AreKeyed, KeyTwice, key_of};
ghost use Rattle.rw_layout.specs.Keys as keys;

use asm_items::{Item, Label};
use std::alloc::{AllocError, Global};
use std::collections::HashMap;

/// The lines that define something, by the kind and the number of it.
pub(crate) type Definitions = HashMap<(u8, u64), u32>;

/// The kind and the number of a label.
pub(crate) fn label_key(label: Label) -> (u8, u64)
    ensures { result ≡ keys.label_key label }
{
    match label {
        Label::Code(a) => (0, a),
        Label::Past(a) => (1, a),
        Label::Section(n) => (2, u64::from(n)),
        Label::Table(a) => (3, a),
    }
}

/// The kind and the number of what a line defines, if it does.
pub(crate) fn key_of(item: &Item) -> Option<(u8, u64)>
    ensures { result ≡ key_of item.now }
{
    match item {
        Item::Label(label) => Some(label_key(*label)),
        Item::Copy(id, _) => Some((4, u64::from(id.0))),
        _ => None,
    }
}

// Adds the line of a key, unless there is one.
fn add(defined: &mut Definitions, key: (u8, u64), line: u32) -> Result<bool, AllocError>
    ensures { IfOk result (λ added. Adds defined.old.entries defined.new.entries key line added) }
{
    if defined.contains_key(&key) {
        return Ok(false);
    }
    match defined.insert(key, line) {
        Ok(_) => Ok(true),
        Err(_) => Err(AllocError),
    }
}

/// How many lines define something.
pub(crate) fn count_keyed(items: &[Item]) -> usize {
    items.iter().filter(|item| key_of(item).is_some()).count()
}

// The first line that defines again what an earlier one defines, or what each line defines.
pub(crate) fn definitions(
    alloc: Global,
    items: &[Item],
) -> Result<Result<Definitions, u32>, AllocError>
    requires { length items.now < 2 ^ 32 }
    ensures known { IfOk result (λ found. IfOk found (λ defined. AreKeyed defined.entries items.now (length items.now))) }
    ensures twice { IfOk result (λ found. IfErr found (λ line. IsFirstAt (KeyTwice items.now) line)) }
{
    let mut defined = HashMap::with_capacity(alloc, count_keyed(items))?;
    for (i, item) in items.iter().enumerate() {
        if let Some(key) = key_of(item) {
            if !add(&mut defined, key, i as u32)? {
                return Ok(Err(i as u32));
            }
        }
    }
    Ok(Ok(defined))
}
