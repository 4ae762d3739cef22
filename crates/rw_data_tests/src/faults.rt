//! One file for each fault, each with no fault before it, and files that are accepted.

use crate::files::{
    COPY, Change, File, Filled, GLOB_DAT, Given, JUMP_SLOT, Named, RELATIVE, changed,
};
use rw_base::{Fault, Refusal};
use rw_data::Picture;
use std::alloc::Global;
use std::test::Fail;

/// `movl $60, %eax`, `xorl %edi, %edi`, `syscall`.
const EXIT: &[u8] = b"\xb8\x3c\0\0\0\x31\xff\x0f\x05";

/// `leaq 0x2010(%rip), %rax` with the address of the operand, and `ud2`.
const LEA: &[u8] = b"\x48\x8d\x05\x09\x10\0\0\x0f\x0b";

/// A dispatch of three words at 0x2000 with bound 2: `movl $0, %edi`, `cmpl $2, %edi`, `ja`, `leaq`, `movslq`, `addq`,
/// `notrack jmp *%rax` at 0x1018; then three cases, and the end.
const DISPATCH: &[u8] =
    b"\xbf\0\0\0\0\x83\xff\x02\x77\x24\x48\x8d\x15\xef\x0f\0\0\x48\x63\x04\xba\x48\x01\xd0\x3e\xff\xe0\xbf\x0a\0\0\0\xeb\x0c\xbf\x0b\0\0\0\xeb\x05\xbf\x0c\0\0\0\xb8\x3c\0\0\0\x0f\x05";

/// The same with bound -1, and with bound 3.
const DISPATCH_BELOW: &[u8] =
    b"\xbf\0\0\0\0\x83\xff\xff\x77\x24\x48\x8d\x15\xef\x0f\0\0\x48\x63\x04\xba\x48\x01\xd0\x3e\xff\xe0\xbf\x0a\0\0\0\xeb\x0c\xbf\x0b\0\0\0\xeb\x05\xbf\x0c\0\0\0\xb8\x3c\0\0\0\x0f\x05";

const DISPATCH_ABOVE: &[u8] =
    b"\xbf\0\0\0\0\x83\xff\x03\x77\x24\x48\x8d\x15\xef\x0f\0\0\x48\x63\x04\xba\x48\x01\xd0\x3e\xff\xe0\xbf\x0a\0\0\0\xeb\x0c\xbf\x0b\0\0\0\xeb\x05\xbf\x0c\0\0\0\xb8\x3c\0\0\0\x0f\x05";

/// `movq 0x3000(%rip), %rax` with the address of the operand, `movl (%rax), %edi`, `movl $60, %eax`, `syscall`.
const LOAD: &[u8] = b"\x48\x8b\x05\xf9\x1f\0\0\x8b\x38\xb8\x3c\0\0\0\x0f\x05";

/// The same from 0x3008.
const LOAD_SECOND: &[u8] = b"\x48\x8b\x05\x01\x20\0\0\x8b\x38\xb8\x3c\0\0\0\x0f\x05";

/// `main` at 0x1000, which calls `puts`, and `_start` at 0x1020, one byte that is no instruction.
const HOSTED: &[u8] =
    b"\x48\x83\xec\x08\x48\x8d\x3d\xf5\x0f\0\0\xe8\xf0\0\0\0\x31\xc0\x48\x83\xc4\x08\xc3\xcc\xcc\xcc\xcc\xcc\xcc\xcc\xcc\xcc\x06";

/// The same with `frame_dummy` at 0x1021, another such byte.
const LINKED: &[u8] =
    b"\x48\x83\xec\x08\x48\x8d\x3d\xf5\x0f\0\0\xe8\xf0\0\0\0\x31\xc0\x48\x83\xc4\x08\xc3\xcc\xcc\xcc\xcc\xcc\xcc\xcc\xcc\xcc\x06\x06";

/// A stub of `puts`, through the slot at 0x3000.
const STUB: &[u8] = b"\xf3\x0f\x1e\xfa\xf2\xff\x25\xf5\x1e\0\0\x0f\x1f\x44\0\0";

/// A file, and the fault that it is refused with.
struct Case {
    what: &'static str,
    file: File,
    change: Change,
    want: Option<Fault>,
}

fn fault_of(alloc: Global, case: &Case) -> Result<Option<Refusal>, Fail> {
    let bytes = changed(alloc, &case.file, &case.change)?;
    Ok(Picture::of(alloc, bytes).err())
}

#[rattlefmt::skip]
static FAULTS: [Case; 23] = [
    Case { what: "F01: longer than 16 MiB", file: File { sections: &[Given(b".text", 1, 6, 0x1000, EXIT)], functions: &[Named(b"_start", 1, 1, 0x1000, 9)], dynamic: &[], filled: &[], entry: 0x1000 }, change: Change::Length(16777217), want: Some(Fault::TooLarge(16777217)) },
    Case { what: "F02: empty", file: File { sections: &[Given(b".text", 1, 6, 0x1000, EXIT)], functions: &[Named(b"_start", 1, 1, 0x1000, 9)], dynamic: &[], filled: &[], entry: 0x1000 }, change: Change::Length(0), want: Some(Fault::Truncated(0)) },
    Case { what: "F03: of 32 bits", file: File { sections: &[Given(b".text", 1, 6, 0x1000, EXIT)], functions: &[Named(b"_start", 1, 1, 0x1000, 9)], dynamic: &[], filled: &[], entry: 0x1000 }, change: Change::Header(4, 1), want: Some(Fault::NotElf64(4)) },
    Case { what: "F04: of the machine 3", file: File { sections: &[Given(b".text", 1, 6, 0x1000, EXIT)], functions: &[Named(b"_start", 1, 1, 0x1000, 9)], dynamic: &[], filled: &[], entry: 0x1000 }, change: Change::Header(18, 3), want: Some(Fault::WrongMachine(3)) },
    Case { what: "F05: at fixed addresses", file: File { sections: &[Given(b".text", 1, 6, 0x1000, EXIT)], functions: &[Named(b"_start", 1, 1, 0x1000, 9)], dynamic: &[], filled: &[], entry: 0x1000 }, change: Change::Header(16, 2), want: Some(Fault::NotPositionIndependent(2)) },
    Case { what: "F06: a file header of 63 bytes", file: File { sections: &[Given(b".text", 1, 6, 0x1000, EXIT)], functions: &[Named(b"_start", 1, 1, 0x1000, 9)], dynamic: &[], filled: &[], entry: 0x1000 }, change: Change::Header(52, 63), want: Some(Fault::BadHeader(52)) },
    Case { what: "F07: no symbol table", file: File { sections: &[Given(b".text", 1, 6, 0x1000, EXIT)], functions: &[Named(b"_start", 1, 1, 0x1000, 9)], dynamic: &[], filled: &[], entry: 0x1000 }, change: Change::Kind(2, 0), want: Some(Fault::Stripped) },
    Case { what: "F08: a function with a space in its name", file: File { sections: &[Given(b".text", 1, 6, 0x1000, EXIT)], functions: &[Named(b"a b", 1, 1, 0x1000, 9)], dynamic: &[], filled: &[], entry: 0x1000 }, change: Change::Nothing, want: Some(Fault::BadString(129)) },
    Case { what: "F09: a section that begins in another", file: File { sections: &[Given(b".text", 1, 6, 0x1000, &[0xcc; 32]), Given(b".rodata", 1, 2, 0x1010, &[0; 8])], functions: &[Named(b"_start", 1, 1, 0x1000, 9)], dynamic: &[], filled: &[], entry: 0x1000 }, change: Change::Nothing, want: Some(Fault::Overlap(0x1010)) },
    Case { what: "F10: thread-local data", file: File { sections: &[Given(b".text", 1, 6, 0x1000, EXIT), Given(b".tdata", 1, 0x402, 0x2000, &[0; 8])], functions: &[Named(b"_start", 1, 1, 0x1000, 9)], dynamic: &[], filled: &[], entry: 0x1000 }, change: Change::Nothing, want: Some(Fault::ThreadLocal(2)) },
    Case { what: "F11: a section off its alignment", file: File { sections: &[Given(b".text", 1, 6, 0x1000, EXIT), Given(b".rodata", 1, 2, 0x2008, &[0; 8])], functions: &[Named(b"_start", 1, 1, 0x1000, 9)], dynamic: &[], filled: &[], entry: 0x1000 }, change: Change::Nothing, want: Some(Fault::BadSection(2)) },
    Case { what: "F12: a relocation of type 37", file: File { sections: &[Given(b".text", 1, 6, 0x1000, EXIT)], functions: &[Named(b"_start", 1, 1, 0x1000, 9)], dynamic: &[], filled: &[Filled(0x3000, 0, 37, 0)], entry: 0x1000 }, change: Change::Nothing, want: Some(Fault::UnknownReloc(0x3000, 37)) },
    Case { what: "F13: a relocation in constant data", file: File { sections: &[Given(b".text", 1, 6, 0x1000, EXIT), Given(b".rodata", 1, 2, 0x2000, &[0; 8])], functions: &[Named(b"_start", 1, 1, 0x1000, 9)], dynamic: &[], filled: &[Filled(0x2000, 0, RELATIVE, 0x2000)], entry: 0x1000 }, change: Change::Nothing, want: Some(Fault::BadRelocPlace(0x2000)) },
    Case { what: "F14: the address of nothing in data", file: File { sections: &[Given(b".text", 1, 6, 0x1000, LOAD), Given(b".data", 1, 3, 0x3000, b"\0\0\0\0\0\0\0\0\x09\0\0\0\0\0\0\0")], functions: &[Named(b"_start", 1, 1, 0x1000, 16)], dynamic: &[], filled: &[Filled(0x3000, 0, RELATIVE, 0x9000)], entry: 0x1000 }, change: Change::Nothing, want: Some(Fault::BadRelocTarget(0x3000)) },
    Case { what: "F15: an entry inside a function", file: File { sections: &[Given(b".text", 1, 6, 0x1000, EXIT)], functions: &[Named(b"_start", 1, 1, 0x1000, 9)], dynamic: &[], filled: &[], entry: 0x1005 }, change: Change::Nothing, want: Some(Fault::NoEntry) },
    Case { what: "F16: movaps", file: File { sections: &[Given(b".text", 1, 6, 0x1000, b"\x90\x0f\x28\xc1")], functions: &[Named(b"_start", 1, 1, 0x1000, 4)], dynamic: &[], filled: &[], entry: 0x1000 }, change: Change::Nothing, want: Some(Fault::BadInstruction(0x1001)) },
    Case { what: "F17: a function past its section", file: File { sections: &[Given(b".text", 1, 6, 0x1000, EXIT)], functions: &[Named(b"_start", 1, 1, 0x1000, 10)], dynamic: &[], filled: &[], entry: 0x1000 }, change: Change::Nothing, want: Some(Fault::Crosses(0x1000)) },
    Case { what: "F18: a jump into itself", file: File { sections: &[Given(b".text", 1, 6, 0x1000, b"\xeb\xff")], functions: &[Named(b"_start", 1, 1, 0x1000, 2)], dynamic: &[], filled: &[], entry: 0x1000 }, change: Change::Nothing, want: Some(Fault::BadTarget(0x1000)) },
    Case { what: "F19: the address of nothing", file: File { sections: &[Given(b".text", 1, 6, 0x1000, LEA), Given(b".rodata", 1, 2, 0x2000, &[0; 8])], functions: &[Named(b"_start", 1, 1, 0x1000, 9)], dynamic: &[], filled: &[], entry: 0x1000 }, change: Change::Nothing, want: Some(Fault::BadReference(0x1000)) },
    Case { what: "F20: a jump behind an add", file: File { sections: &[Given(b".text", 1, 6, 0x1000, b"\x48\x01\xd0\xff\xe0")], functions: &[Named(b"_start", 1, 1, 0x1000, 5)], dynamic: &[], filled: &[], entry: 0x1000 }, change: Change::Nothing, want: Some(Fault::UnknownTable(0x1003)) },
    Case { what: "F21: a word that leads into an instruction", file: File { sections: &[Given(b".text", 1, 6, 0x1000, DISPATCH), Given(b".rodata", 1, 2, 0x2000, b"\x1b\xf0\xff\xff\x22\xf0\xff\xff\x2a\xf0\xff\xff")], functions: &[Named(b"_start", 1, 1, 0x1000, 53)], dynamic: &[], filled: &[], entry: 0x1000 }, change: Change::Nothing, want: Some(Fault::BadTable(0x1018)) },
    Case { what: "F22: a constructor", file: File { sections: &[Given(b".text", 1, 6, 0x1000, LINKED), Given(b".plt.sec", 1, 6, 0x1100, STUB), Given(b".rodata", 1, 2, 0x2000, b"hi\0"), Given(b".init_array", 14, 3, 0x2ff0, &[0; 8]), Given(b".got", 1, 3, 0x3000, &[0; 16])], functions: &[Named(b"main", 1, 1, 0x1000, 23), Named(b"_start", 1, 1, 0x1020, 1), Named(b"frame_dummy", 1, 1, 0x1021, 1)], dynamic: &[Named(b"puts", 1, 0, 0, 0), Named(b"__libc_start_main", 1, 0, 0, 0), Named(b"__gmon_start__", 2, 0, 0, 0)], filled: &[Filled(0x2ff0, 0, RELATIVE, 0x1000), Filled(0x3000, 1, JUMP_SLOT, 0), Filled(0x3008, 3, GLOB_DAT, 0)], entry: 0x1020 }, change: Change::Nothing, want: Some(Fault::Constructors(0x2ff0)) },
    Case { what: "F23: code that may be written", file: File { sections: &[Given(b".text", 1, 6, 0x1000, EXIT), Given(b".more", 1, 7, 0x2000, &[0xcc; 8])], functions: &[Named(b"_start", 1, 1, 0x1000, 9)], dynamic: &[], filled: &[], entry: 0x1000 }, change: Change::Nothing, want: Some(Fault::WritableCode(2)) },
];

#[test]
fn answers_each_fault(rt: HostRuntime) -> Result<(), Fail> {
    for case in &FAULTS {
        let fault = fault_of(rt.alloc(), case)?;
        assert_eq!(rt; fault, case.want.map(Refusal::Fault), "{}", case.what);
    }
    Ok(())
}

#[rattlefmt::skip]
static FILES: [Case; 14] = [
    Case { what: "code alone", file: File { sections: &[Given(b".text", 1, 6, 0x1000, EXIT)], functions: &[Named(b"_start", 1, 1, 0x1000, 9)], dynamic: &[], filled: &[], entry: 0x1000 }, change: Change::Nothing, want: None },
    Case { what: "constant data", file: File { sections: &[Given(b".text", 1, 6, 0x1130, b"\xcc\xcc\xcc\xcc\xcc\xcc\xcc\xcc\xcc\x48\x8d\x05\xc4\x0e\0\0\x8b\x38\xb8\x3c\0\0\0\x0f\x05"), Given(b".rodata", 1, 2, 0x2000, b"\x01\x02\x03\x04\x07\0\0\0")], functions: &[Named(b"_start", 1, 1, 0x1139, 16)], dynamic: &[], filled: &[], entry: 0x1139 }, change: Change::Nothing, want: None },
    Case { what: "the start of a section that ends another", file: File { sections: &[Given(b".text", 1, 6, 0x1000, LEA), Given(b".rodata", 1, 2, 0x2000, &[0; 16]), Given(b".rodata.more", 1, 2, 0x2010, &[0; 16])], functions: &[Named(b"_start", 1, 1, 0x1000, 9)], dynamic: &[], filled: &[], entry: 0x1000 }, change: Change::Nothing, want: None },
    Case { what: "the end of a section", file: File { sections: &[Given(b".text", 1, 6, 0x1000, LEA), Given(b".rodata", 1, 2, 0x2000, &[0; 16])], functions: &[Named(b"_start", 1, 1, 0x1000, 9)], dynamic: &[], filled: &[], entry: 0x1000 }, change: Change::Nothing, want: None },
    Case { what: "a jump table", file: File { sections: &[Given(b".text", 1, 6, 0x1000, DISPATCH), Given(b".rodata", 1, 2, 0x2000, b"\x1b\xf0\xff\xff\x22\xf0\xff\xff\x29\xf0\xff\xff")], functions: &[Named(b"_start", 1, 1, 0x1000, 53)], dynamic: &[], filled: &[], entry: 0x1000 }, change: Change::Nothing, want: None },
    Case { what: "a jump table without a bound", file: File { sections: &[Given(b".text", 1, 6, 0x1000, DISPATCH_BELOW), Given(b".rodata", 1, 2, 0x2000, b"\x1b\xf0\xff\xff\x22\xf0\xff\xff\x29\xf0\xff\xff")], functions: &[Named(b"_start", 1, 1, 0x1000, 53)], dynamic: &[], filled: &[], entry: 0x1000 }, change: Change::Nothing, want: Some(Fault::UnknownTable(0x1018)) },
    Case { what: "a jump table that passes its section", file: File { sections: &[Given(b".text", 1, 6, 0x1000, DISPATCH_ABOVE), Given(b".rodata", 1, 2, 0x2000, b"\x1b\xf0\xff\xff\x22\xf0\xff\xff\x29\xf0\xff\xff")], functions: &[Named(b"_start", 1, 1, 0x1000, 53)], dynamic: &[], filled: &[], entry: 0x1000 }, change: Change::Nothing, want: Some(Fault::BadTable(0x1018)) },
    Case { what: "a C library", file: File { sections: &[Given(b".text", 1, 6, 0x1000, HOSTED), Given(b".plt.sec", 1, 6, 0x1100, STUB), Given(b".rodata", 1, 2, 0x2000, b"hi\0"), Given(b".got", 1, 3, 0x3000, &[0; 8])], functions: &[Named(b"main", 1, 1, 0x1000, 23), Named(b"_start", 1, 1, 0x1020, 1)], dynamic: &[Named(b"puts", 1, 0, 0, 0), Named(b"__libc_start_main", 1, 0, 0, 0)], filled: &[Filled(0x3000, 1, JUMP_SLOT, 0)], entry: 0x1020 }, change: Change::Nothing, want: None },
    Case { what: "a C library, as a linker leaves the file", file: File { sections: &[Given(b".text", 1, 6, 0x1000, LINKED), Given(b".plt.sec", 1, 6, 0x1100, STUB), Given(b".rodata", 1, 2, 0x2000, b"hi\0"), Given(b".init_array", 14, 3, 0x2ff0, &[0; 8]), Given(b".got", 1, 3, 0x3000, &[0; 16])], functions: &[Named(b"main", 1, 1, 0x1000, 23), Named(b"_start", 1, 1, 0x1020, 1), Named(b"frame_dummy", 1, 1, 0x1021, 1)], dynamic: &[Named(b"puts", 1, 0, 0, 0), Named(b"__libc_start_main", 1, 0, 0, 0), Named(b"__gmon_start__", 2, 0, 0, 0)], filled: &[Filled(0x2ff0, 0, RELATIVE, 0x1021), Filled(0x3000, 1, JUMP_SLOT, 0), Filled(0x3008, 3, GLOB_DAT, 0)], entry: 0x1020 }, change: Change::Nothing, want: None },
    Case { what: "an address in data", file: File { sections: &[Given(b".text", 1, 6, 0x1000, LOAD), Given(b".data", 1, 3, 0x3000, b"\0\0\0\0\0\0\0\0\x09\0\0\0\0\0\0\0")], functions: &[Named(b"_start", 1, 1, 0x1000, 16)], dynamic: &[], filled: &[Filled(0x3000, 0, RELATIVE, 0x3008)], entry: 0x1000 }, change: Change::Nothing, want: None },
    Case { what: "a copied symbol", file: File { sections: &[Given(b".text", 1, 6, 0x1000, b"\x48\x8b\x05\xf9\x2f\0\0\x0f\x0b"), Given(b".bss", 8, 3, 0x4000, &[0; 16])], functions: &[Named(b"_start", 1, 1, 0x1000, 9)], dynamic: &[Named(b"stdout", 1, 2, 0x4000, 8)], filled: &[Filled(0x4000, 1, COPY, 0)], entry: 0x1000 }, change: Change::Nothing, want: None },
    Case { what: "relocations in compact form", file: File { sections: &[Given(b".text", 1, 6, 0x1000, LOAD), Given(b".data", 1, 3, 0x3000, b"\x08\x30\0\0\0\0\0\0\x09\0\0\0\0\0\0\0"), Given(b".relr.dyn", 19, 2, 0x5000, b"\0\x30\0\0\0\0\0\0")], functions: &[Named(b"_start", 1, 1, 0x1000, 16)], dynamic: &[], filled: &[], entry: 0x1000 }, change: Change::Nothing, want: None },
    Case { what: "a bitmap first", file: File { sections: &[Given(b".text", 1, 6, 0x1000, LOAD), Given(b".data", 1, 3, 0x3000, b"\x08\x30\0\0\0\0\0\0\x09\0\0\0\0\0\0\0"), Given(b".relr.dyn", 19, 2, 0x5000, b"\x03\0\0\0\0\0\0\0")], functions: &[Named(b"_start", 1, 1, 0x1000, 16)], dynamic: &[], filled: &[], entry: 0x1000 }, change: Change::Nothing, want: Some(Fault::BadHeader(96)) },
    Case { what: "a bitmap behind an address", file: File { sections: &[Given(b".text", 1, 6, 0x1000, LOAD_SECOND), Given(b".data", 1, 3, 0x3000, b"\x10\x30\0\0\0\0\0\0\x10\x30\0\0\0\0\0\0\x09\0\0\0\0\0\0\0"), Given(b".relr.dyn", 19, 2, 0x5000, b"\0\x30\0\0\0\0\0\0\x03\0\0\0\0\0\0\0")], functions: &[Named(b"_start", 1, 1, 0x1000, 16)], dynamic: &[], filled: &[], entry: 0x1000 }, change: Change::Nothing, want: None },
];

#[test]
fn accepts_files_with_data(rt: HostRuntime) -> Result<(), Fail> {
    for case in &FILES {
        let fault = fault_of(rt.alloc(), case)?;
        assert_eq!(rt; fault, case.want.map(Refusal::Fault), "{}", case.what);
    }
    Ok(())
}
