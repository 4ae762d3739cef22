//! Makes small ELF files of their parts, for tests of what reads them.
//!
//! [`make`] lays out [`Parts`]: sections, symbols, dynamic symbols and relocation entries. Its clause says
//! that the bytes are exactly `file_of` of the parts, which `specs/Image` writes out as lists beside the
//! sections of the ELF-64 gABI: the file header, the contents of the sections, each at the next multiple of 8,
//! and the section headers. The clauses of [`laws::sections_stand_where_headers_say`] prove of that definition that
//! contents, names and headers stand where the headers say.
//!
//! The crate stands on std alone. `make` is linear in the bytes that it makes.
#![tactic(auto)]

mod bytes;
mod file;
pub mod laws;
mod layout;
mod parts;
mod tables;
#[cfg(test)]
mod tests;

pub use file::make;
pub use parts::{PartRela, PartSection, PartSymbol, Parts};
