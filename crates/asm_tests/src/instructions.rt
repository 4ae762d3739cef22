//! Lines of each kind of instruction.

use crate::cases::{Case, Pair, assert_cases, assert_pairs};
use std::test::Fail;

static KINDS: [Pair; 31] = [
    Pair(
        "Alu",
        "\taddq $-1, -8(%rbx,%r9,4)",
        "\taddq (%rbx), -8(%rax)",
    ),
    Pair("Test", "\ttestl %ecx, (%rax)", "\ttestl (%rax), %ecx"),
    Pair("Xchg", "\txchgw %ax, (%rsi)", "\txchgw %eax, (%rsi)"),
    Pair("Mov", "\tmovl %fs:40, %eax", "\tmovl %fs:48, %eax"),
    Pair(
        "MovAbs",
        "\tmovabsq $-9223372036854775808, %r15",
        "\tmovabsq $9223372036854775808, %r15",
    ),
    Pair("MovZx", "\tmovzbl (%rax), %ecx", "\tmovzlq (%rax), %rcx"),
    Pair("MovSx", "\tmovslq %eax, %rcx", "\tmovsbb %al, %cl"),
    Pair("Lea", "\tleaq 8(,%rcx,8), %rax", "\tleaq %fs:40, %rax"),
    Pair("Push", "\tpushq $5", "\tpushl $5"),
    Pair("Pop", "\tpopq %r12", "\tpopq $5"),
    Pair("Imul2", "\timulq %rax, %rcx", "\timulb %al, %cl"),
    Pair(
        "Imul3",
        "\timull $7, (%rdi), %ecx",
        "\timull $7, %ecx, (%rdi)",
    ),
    Pair("One", "\tidivq (%rsp)", "\tidivq $2"),
    Pair("Shift", "\tsarl %cl, %eax", "\tsarl %ch, %eax"),
    Pair("Convert", "\tcqto", "\tcqto "),
    Pair("Movs", "\trep movsb", "\trepz movsb"),
    Pair("Stos", "\tstosq", "\tnotrack stosq"),
    Pair(
        "Cmov",
        "\tcmovne stdout(%rip), %eax",
        "\tcmovnel stdout(%rip), %eax",
    ),
    Pair("Setcc", "\tsetg (%rax)", "\tsetg %eax"),
    Pair("Bit", "\tbtsl $31, (%rax)", "\tbtsl %ecx, (%rax)"),
    Pair("Scan", "\ttzcntw %ax, %cx", "\ttzcntb %al, %cl"),
    Pair("Bswap", "\tbswap %rax", "\tbswap %ax"),
    Pair("Jcc", "\tje .L1000", "\tje *.L1000"),
    Pair("Jmp", "\tjmp .L1000", "\tjmp 1000"),
    Pair(
        "JmpTo",
        "\tnotrack jmp *(%rax,%rcx,8)",
        "\tnotrack jmp (%rax,%rcx,8)",
    ),
    Pair("Call", "\tcall puts+4", "\tcall puts-4"),
    Pair("CallTo", "\tcall *%rax", "\tcall *%eax"),
    Pair("Ret", "\tret", "\tretq"),
    Pair("Leave", "\tleave", "\tleaveq"),
    Pair("Syscall", "\tsyscall", "\tsysenter"),
    Pair("Plain", "\tnop", "\tnop %rax"),
];

#[test]
fn each_kind_of_instruction_has_its_line(rt: HostRuntime) -> Result<(), Fail> {
    assert_pairs(&rt, rt.alloc(), &KINDS)?;
    Ok(())
}

// Each operation by its one name, and behind them another name or form of one.
static NAMES: [Case; 6] = [
    Case(
        b"\taddb $1, %al\n\torw $1, %ax\n\tadcl $1, %eax\n\tsbbq $1, %rax\n\tandb %al, %cl\n\tsubw %ax, %cx\n\txorl %eax, %ecx\n\tcmpq %rax, %rcx\n\tadd $1, %eax\n",
        Some(9),
    ),
    Case(
        b"\tincb %al\n\tdecw %ax\n\tnotl %eax\n\tnegq %rax\n\tmulb %al\n\timulw %ax\n\tdivl %eax\n\tidivq %rax\n\tinc %eax\n",
        Some(9),
    ),
    Case(
        b"\trolb $1, %al\n\trorw $1, %ax\n\tshll $1, %eax\n\tshrq $1, %rax\n\tsarb %cl, %al\n\tsall $1, %eax\n",
        Some(6),
    ),
    Case(
        b"\tbtw $1, %ax\n\tbtsl $1, %eax\n\tbtrq $1, %rax\n\tbtcl %ecx, %eax\n\tbsfl %eax, %ecx\n\tbsrq %rax, %rcx\n\ttzcntq %rax, %rcx\n\tbsf %eax, %ecx\n",
        Some(8),
    ),
    Case(
        b"\tcbtw\n\tcwtl\n\tcltq\n\tcwtd\n\tcltd\n\tcqto\n\tcdq\n",
        Some(7),
    ),
    Case(
        b"\tnop\n\tendbr64\n\tint3\n\tud2\n\thlt\n\tpause\n\tint $3\n",
        Some(7),
    ),
];

// Each condition by its one name, and behind them another name of one.
static CONDITIONS: [Case; 4] = [
    Case(
        b"\tjo .L1\n\tjno .L1\n\tjb .L1\n\tjae .L1\n\tje .L1\n\tjne .L1\n\tjbe .L1\n\tja .L1\n\tjs .L1\n\tjns .L1\n\tjp .L1\n\tjnp .L1\n\tjl .L1\n\tjge .L1\n\tjle .L1\n\tjg .L1\n\tjz .L1\n",
        Some(17),
    ),
    Case(
        b"\tseto %al\n\tsetno %al\n\tsetb %al\n\tsetae %al\n\tsete %al\n\tsetne %al\n\tsetbe %al\n\tseta %al\n\tsets %al\n\tsetns %al\n\tsetp %al\n\tsetnp %al\n\tsetl %al\n\tsetge %al\n\tsetle %al\n\tsetg %al\n\tsetc %al\n",
        Some(17),
    ),
    Case(
        b"\tcmovo %eax, %ecx\n\tcmovno %eax, %ecx\n\tcmovb %eax, %ecx\n\tcmovae %eax, %ecx\n\tcmove %eax, %ecx\n\tcmovne %eax, %ecx\n\tcmovbe %eax, %ecx\n\tcmova %eax, %ecx\n",
        None,
    ),
    Case(
        b"\tcmovs %eax, %ecx\n\tcmovns %eax, %ecx\n\tcmovp %eax, %ecx\n\tcmovnp %eax, %ecx\n\tcmovl %eax, %ecx\n\tcmovge %eax, %ecx\n\tcmovle %eax, %ecx\n\tcmovg %eax, %ecx\n\tcmovpe %eax, %ecx\n",
        Some(9),
    ),
];

#[test]
fn an_operation_has_one_name(rt: HostRuntime) -> Result<(), Fail> {
    assert_cases(&rt, rt.alloc(), &NAMES)?;
    assert_cases(&rt, rt.alloc(), &CONDITIONS)?;
    Ok(())
}

// Operands: registers of each width, immediates, memory and targets.
static OPERANDS: [Pair; 26] = [
    Pair(
        "registers of 8 bits",
        "\tmovb %spl, %r15b",
        "\tmovb %ah, %r8b",
    ),
    Pair("high bytes", "\tmovb %ah, %bh", "\tmovb %ah, %sil"),
    Pair(
        "a high byte without REX",
        "\tmovzbl %ah, %eax",
        "\tmovzbq %ah, %rax",
    ),
    Pair(
        "registers of 16 bits",
        "\tmovw %r8w, %di",
        "\tmovw %r8, %di",
    ),
    Pair(
        "registers of 32 bits",
        "\tmovl %r10d, %esp",
        "\tmovl %r10d, %rsp",
    ),
    Pair(
        "registers of 64 bits",
        "\tmovq %r9, %rbp",
        "\tmovq %R9, %rbp",
    ),
    Pair(
        "immediate of 8 bits",
        "\tmovb $-128, %al",
        "\tmovb $128, %al",
    ),
    Pair(
        "immediate of 16 bits",
        "\tmovw $32767, %ax",
        "\tmovw $65535, %ax",
    ),
    Pair(
        "immediate of 32 bits",
        "\tmovl $2147483647, %eax",
        "\tmovl $4294967295, %eax",
    ),
    Pair(
        "immediate of 64 bits",
        "\tmovq $-2147483648, %rax",
        "\tmovq $-2147483649, %rax",
    ),
    Pair(
        "an immediate has no plus",
        "\tmovl $1, %eax",
        "\tmovl $+1, %eax",
    ),
    Pair(
        "an immediate has no leading zero",
        "\tmovl $0, %eax",
        "\tmovl $01, %eax",
    ),
    Pair("zero has no sign", "\tmovl $-1, %eax", "\tmovl $-0, %eax"),
    Pair(
        "an immediate is decimal",
        "\tmovl $10, %eax",
        "\tmovl $0xa, %eax",
    ),
    Pair(
        "count of a shift at 32 bits",
        "\tshll $31, %eax",
        "\tshll $32, %eax",
    ),
    Pair(
        "count of a shift at 64 bits",
        "\tshlq $63, %rax",
        "\tshlq $64, %rax",
    ),
    Pair(
        "a displacement of 0 is left out",
        "\tmovq (%rax), %rax",
        "\tmovq 0(%rax), %rax",
    ),
    Pair("a displacement alone", "\tmovq 0, %rax", "\tmovq (), %rax"),
    Pair(
        "displacement of 32 bits",
        "\tmovq -2147483648(%rax), %rax",
        "\tmovq 2147483648(%rax), %rax",
    ),
    Pair(
        "scale of an index",
        "\tmovq (%rax,%rcx,1), %rax",
        "\tmovq (%rax,%rcx), %rax",
    ),
    Pair(
        "index without a base",
        "\tmovq 0(,%rcx,2), %rax",
        "\tmovq (,%rcx,2), %rax",
    ),
    Pair(
        "scales are powers of 2",
        "\tmovq (%rax,%rcx,8), %rax",
        "\tmovq (%rax,%rcx,3), %rax",
    ),
    Pair(
        "no index is rsp",
        "\tmovq (%rsp,%rbp,4), %rax",
        "\tmovq (%rbp,%rsp,4), %rax",
    ),
    Pair(
        "a counter is 8 bytes",
        "\tmovq __retro_counts+8(%rip), %rax",
        "\tmovq __retro_counts+4(%rip), %rax",
    ),
    Pair(
        "a place in a section",
        "\tleaq .Ls1+16(%rip), %rax",
        "\tleaq .Ls1+0(%rip), %rax",
    ),
    Pair(
        "a label of code",
        "\tleaq .L1000(%rip), %rax",
        "\tleaq .L01000(%rip), %rax",
    ),
];

#[test]
fn operands_are_spelled_in_one_way(rt: HostRuntime) -> Result<(), Fail> {
    assert_pairs(&rt, rt.alloc(), &OPERANDS)?;
    Ok(())
}
