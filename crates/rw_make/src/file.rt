//! The file as a whole.

ghost use Rattle.std.specs.Prelude.{◌≡◌, IfOk};
ghost use Rattle.rw_make.specs.Image.{file_of};

use crate::layout::Layout;
use crate::parts::Parts;
use std::alloc::{AllocError, Global};

/// Makes the ELF file of these parts: position-independent, for x86-64, little-endian, with no program headers.
///
/// Its sections are, by index: null; the given ones; if there are dynamic symbols or relocation entries,
/// `.dynsym`, `.dynstr` and `.rela.dyn`; then `.symtab`, `.strtab` and `.shstrtab`. Each begins at a multiple of
/// 8. Given sections have alignment 16, made ones 8.
///
/// A file of 65,280 section headers or more, or of 2^32 bytes or more, can't be said by the fields of its headers:
/// these then have the low bytes of their values.
///
/// # Errors
///
/// [`AllocError`] for want of memory.
pub fn make(alloc: Global, parts: &Parts) -> Result<Vec<u8>, AllocError>
    ensures { IfOk result (λ bytes. bytes.items ≡ file_of parts.now) }
{
    let mut layout = Layout::new(alloc)?;
    layout.add_given(&parts.sections)?;
    layout.add_tables(alloc, parts)?;
    layout.add_names(alloc)?;
    layout.file(alloc, parts.entry)
}
