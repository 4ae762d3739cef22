//! Numbers of the ELF-64 format, under the names that the generic ABI (gABI) gives them.

/// Section type: contents of the program (gABI, "Section Types").
pub const SHT_PROGBITS: u32 = 1;
/// Section type: the symbol table.
pub const SHT_SYMTAB: u32 = 2;
/// Section type: a string table.
pub const SHT_STRTAB: u32 = 3;
/// Section type: relocation entries with addends.
pub const SHT_RELA: u32 = 4;
/// Section type: zero bytes, which the file does not hold.
pub const SHT_NOBITS: u32 = 8;
/// Section type: relocation entries without addends.
pub const SHT_REL: u32 = 9;
/// Section type: the symbols of dynamic linking.
pub const SHT_DYNSYM: u32 = 11;
/// Section type: addresses of functions that run before `main`.
pub const SHT_INIT_ARRAY: u32 = 14;
/// Section type: addresses of functions that run after `main`.
pub const SHT_FINI_ARRAY: u32 = 15;
/// Section type: addresses of functions that run before all others.
pub const SHT_PREINIT_ARRAY: u32 = 16;
/// Section type: relative relocations in a short form.
pub const SHT_RELR: u32 = 19;

/// Section flag: the program may write it (gABI, "Section Attribute Flags").
pub const SHF_WRITE: u64 = 1;
/// Section flag: it takes part of the address space.
pub const SHF_ALLOC: u64 = 2;
/// Section flag: it holds instructions.
pub const SHF_EXECINSTR: u64 = 4;
/// Section flag: each thread has a copy.
pub const SHF_TLS: u64 = 0x400;

/// Symbol type: a function (gABI, "Symbol Types").
pub const STT_FUNC: u8 = 2;
/// Symbol type: an object of thread-local storage.
pub const STT_TLS: u8 = 6;
/// Symbol type: a function that finds an address at load time (GNU).
pub const STT_GNU_IFUNC: u8 = 10;

/// Symbol binding: not seen outside its file (gABI, "Symbol Binding").
pub const STB_LOCAL: u8 = 0;
/// Symbol binding: seen by all files.
pub const STB_GLOBAL: u8 = 1;
/// Symbol binding: as `STB_GLOBAL`, and may stay undefined.
pub const STB_WEAK: u8 = 2;

/// The section number of an undefined symbol (gABI, "Special Section Indexes").
pub const SHN_UNDEF: u16 = 0;
/// The first of the section numbers that name no section header.
pub const SHN_LORESERVE: u16 = 0xff00;

/// The kind of a position-independent file, `ET_DYN`, in `e_type`.
pub(crate) const ET_DYN: u16 = 3;
/// x86-64 in `e_machine`.
pub(crate) const EM_X86_64: u16 = 62;

/// The current version of the format, `EV_CURRENT`, in `e_version`.
pub(crate) const EV_CURRENT: u32 = 1;

/// What a file begins with: the magic number, 64 bits (`ELFCLASS64`), little-endian (`ELFDATA2LSB`), the current
/// version (gABI, "ELF Identification").
pub(crate) const IDENTIFICATION: [u8; 7] = [0x7f, 0x45, 0x4c, 0x46, 2, 1, 1];

/// The size of the file header in bytes, which `e_ehsize` gives.
pub(crate) const FILE_HEADER_SIZE: usize = 64;
/// The size of a section header in bytes, which `e_shentsize` gives.
pub const SECTION_HEADER_SIZE: usize = 64;
/// The size of a symbol in bytes, which `sh_entsize` of a symbol table gives.
pub(crate) const SYMBOL_SIZE: usize = 24;

// Where the fields of the file header stand (gABI, "ELF Header").
pub(crate) const E_TYPE: usize = 16;

pub(crate) const E_MACHINE: usize = 18;

pub(crate) const E_VERSION: usize = 20;

pub(crate) const E_ENTRY: usize = 24;

/// Where `e_shoff` stands in the file header, the place of the section headers in the file.
pub const E_SHOFF: usize = 40;

pub(crate) const E_EHSIZE: usize = 52;

pub(crate) const E_SHENTSIZE: usize = 58;

pub(crate) const E_SHNUM: usize = 60;

pub(crate) const E_SHSTRNDX: usize = 62;

// Where the fields of a section header stand (gABI, "Section Header").
pub(crate) const SH_TYPE: usize = 4;

pub(crate) const SH_FLAGS: usize = 8;

pub(crate) const SH_ADDR: usize = 16;

pub(crate) const SH_OFFSET: usize = 24;

/// Where `sh_size` stands in a section header.
pub const SH_SIZE: usize = 32;

pub(crate) const SH_LINK: usize = 40;

pub(crate) const SH_ADDRALIGN: usize = 48;

/// Where `sh_entsize` stands in a section header, the size of an entry of a table.
pub const SH_ENTSIZE: usize = 56;

// Where the fields of a symbol stand (gABI, "Symbol Table").
pub(crate) const ST_INFO: usize = 4;

pub(crate) const ST_SHNDX: usize = 6;

pub(crate) const ST_VALUE: usize = 8;

pub(crate) const ST_SIZE: usize = 16;
