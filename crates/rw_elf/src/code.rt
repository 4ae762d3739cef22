//! Which sections have code.
ghost use Rattle.std.specs.Prelude.{◌≡◌};
ghost use Rattle.rw_elf.specs.Tables.{IsNameIn, is_code};

use crate::elf::Elf;
use crate::section::Section;
use crate::tables;

impl Elf {
    /// Whether a section of this file has code: it is allocated with bytes in the file and SHF_EXECINSTR, and it
    /// is none of the sections of stubs and of startup code (`.plt`, `.plt.sec`, `.plt.got`, `.init`, `.fini`).
    pub fn is_code(&self, section: &Section) -> bool
        requires { IsNameIn self.now section.now.name }
        ensures { result ≡ is_code self.now section.now }
    {
        tables::is_code(section, self.file())
    }
}
