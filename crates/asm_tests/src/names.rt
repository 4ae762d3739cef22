//! Names and their numbers.

use asm_items::{Item, NameId, Names, Sym};
use asm_read::{Text, read_text};
use rw_base::Refusal;
use std::alloc::{AllocError, Global};
use std::process::Abort;
use std::test::Fail;

#[test]
fn a_name_keeps_its_number(rt: HostRuntime) -> Result<(), Fail> {
    let mut names = Names::new(rt.alloc());
    for (name, number) in [
        ("puts", 0),
        ("exit", 1),
        ("puts", 0),
        ("", 2),
        ("put", 3),
        ("exit", 1),
    ] {
        assert!(&rt; names.len() < 100);
        let id = names.add(rt.alloc(), name.as_bytes())?;
        assert_eq!(&rt; id, NameId(number), "{name}");
        assert_eq!(&rt; names.find(name.as_bytes()), Some(id), "{name}");
    }
    assert_eq!(&rt; names.len(), 4);
    assert_eq!(&rt; names.find(b"Puts"), None);
    assert_eq!(&rt; names.get(NameId(3)), b"put".as_slice());
    Ok(())
}

/// What is read of a text that has no bad line.
#[tactic(auto, using(asm_read::proofs::Progress::feeds))]
fn read(rt: &impl Abort, alloc: Global, text: &[u8]) -> Result<Text, AllocError> {
    assert!(rt; text.len() < 100_000);
    match read_text(alloc, text) {
        Ok(text) => Ok(text),
        Err(Refusal::Memory) => Err(AllocError),
        Err(Refusal::Fault(fault)) => panic!(rt; "{fault:?}"),
    }
}

/// The name that an item shows, if it shows one.
fn shown_name(item: &Item) -> Option<NameId> {
    match item {
        Item::Copy(name, _) => Some(*name),
        Item::Weak(name) | Item::Comment(name) | Item::Globl(name) | Item::Name(name) => {
            Some(*name)
        }
        Item::Quad(symbol) => named(*symbol),
        Item::Ins(insn) => named(insn.reference()?),
        _ => None,
    }
}

/// The name of a symbol, if it has one.
fn named(symbol: Sym) -> Option<NameId> {
    match symbol {
        Sym::Named(name, _) => Some(name),
        _ => None,
    }
}

/// A text, its names in the order of their numbers, and the number of the name that each line shows.
struct Numbered(
    &'static [u8],
    &'static [&'static str],
    &'static [Option<u32>],
);

static NUMBERED: [Numbered; 4] = [
    Numbered(b"", &[], &[]),
    Numbered(
        b"\t.weak puts\n\tcall exit\n\tjmp puts\n\tret\n\tcall exit+4\n",
        &["puts", "exit"],
        &[Some(0), Some(1), Some(0), None, Some(1)],
    ),
    Numbered(
        b"# function main\n\t.globl main\n\t.quad __retro_counts+8\n__retro_counts:\n\tincq __retro_counts(%rip)\n",
        &["main", "__retro_counts"],
        &[Some(0), Some(0), None, Some(1), None],
    ),
    Numbered(
        b"# copy big 1073741824\n# function _start\n\t.globl _start\n\tcall far\n\t.quad big+8\n",
        &["big", "_start", "far"],
        &[Some(0), Some(1), Some(1), Some(2), Some(0)],
    ),
];

#[test]
fn names_are_numbered_by_first_appearance(rt: HostRuntime) -> Result<(), Fail> {
    for Numbered(bytes, names, numbers) in &NUMBERED {
        let text = read(&rt, rt.alloc(), bytes)?;
        assert_eq!(&rt; text.names.len(), names.len());
        for (number, name) in names.iter().enumerate() {
            let id = text.names.find(name.as_bytes());
            assert!(&rt; id.is_some_and(|id| id.0 as usize == number), "{name}");
        }
        assert_eq!(&rt; text.items.len(), numbers.len());
        for (item, number) in text.items.iter().zip(numbers.iter()) {
            assert_eq!(&rt; shown_name(item).map(|name| name.0), *number);
        }
    }
    Ok(())
}
