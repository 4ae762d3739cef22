//! Types of relocations, under the names that the AMD64 ABI (psABI) gives them ("Relocation Types").

/// Nothing is done.
pub const R_X86_64_NONE: u32 = 0;
/// The symbol's address plus the addend is put at the place.
pub const R_X86_64_64: u32 = 1;
/// The symbol's bytes are put at the place.
pub const R_X86_64_COPY: u32 = 5;
/// The symbol's address is put at the place, a word of the global offset table.
pub const R_X86_64_GLOB_DAT: u32 = 6;
/// The symbol's address is put at the place, a word through which a stub jumps.
pub const R_X86_64_JUMP_SLOT: u32 = 7;
/// The addend, an address of the file, is put at the place.
pub const R_X86_64_RELATIVE: u32 = 8;
