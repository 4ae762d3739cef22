//! Tests of the crates that read a file: its tables (`rw_elf`), relocations (`rw_reloc`), functions (`rw_funcs`), what addresses
//! stand for (`rw_refs`) and jump tables (`rw_tables`). One file each; `files` makes the files that they read.
//!
//! They stand apart from those crates because a crate that has tests is proved twice. This one has nothing else.
#![tactic(auto)]

#[cfg(test)]
mod elf;
#[cfg(test)]
mod files;
#[cfg(test)]
mod funcs;
#[cfg(test)]
mod refs;
#[cfg(test)]
mod reloc;
#[cfg(test)]
mod relr;
#[cfg(test)]
mod tables;
