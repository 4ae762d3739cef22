//! What a file is made of.

/// A section of the file.
#[derive(Drop)]
pub struct PartSection {
    /// The name, without a zero byte.
    pub name: Vec<u8>,
    /// `sh_type`.
    pub kind: u32,
    /// `sh_flags`.
    pub flags: u64,
    /// `sh_addr`.
    pub addr: u64,
    /// The contents; those of a section of type NOBITS, which is 8, are left out.
    pub bytes: Vec<u8>,
    /// `sh_size` of a section of type NOBITS; that of any other is the number of its bytes.
    pub size: u64,
}

/// A symbol of the symbol table or of the dynamic symbols.
#[derive(Drop)]
pub struct PartSymbol {
    /// The name, without a zero byte.
    pub name: Vec<u8>,
    /// The binding, the high four bits of `st_info`, from 0 to 15; of a greater number the low four bits.
    pub bind: u8,
    /// The type, the low four bits of `st_info`, from 0 to 15; of a greater number the low four bits.
    pub sort: u8,
    /// `st_shndx`; the first given section has the index 1.
    pub section: u16,
    /// `st_value`.
    pub value: u64,
    /// `st_size`.
    pub size: u64,
}

/// An entry of the relocation table.
#[derive(Clone, Copy, Debug, PartialEq, Eq)]
pub struct PartRela {
    /// `r_offset`.
    pub offset: u64,
    /// The number of the dynamic symbol, the high half of `r_info`; the first given one has the number 1.
    pub sym: u32,
    /// The type, the low half of `r_info`.
    pub kind: u32,
    /// `r_addend`, as two's complement.
    pub addend: u64,
}

/// The parts of a file.
#[derive(Drop)]
pub struct Parts {
    /// The sections, which get the indices from 1 on.
    pub sections: Vec<PartSection>,
    /// The symbols of `.symtab`, which get the numbers from 1 on.
    pub symbols: Vec<PartSymbol>,
    /// The symbols of `.dynsym`, which get the numbers from 1 on.
    pub dynamic: Vec<PartSymbol>,
    /// The entries of `.rela.dyn`.
    pub relas: Vec<PartRela>,
    /// `e_entry`.
    pub entry: u64,
}
