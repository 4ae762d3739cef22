//! Bytes that are no text of items. Each is refused at its line.

use crate::cases::{Case, assert_cases, refused_line};
use std::alloc::{AllocError, Global};
use std::test::Fail;

// Spaces, feeds and bytes that no line has.
static BYTES: [Case; 21] = [
    Case(b"\tret\n\tmovl  $60, %eax\n", Some(2)),
    Case(b"\tret\n\tmovl $60,  %eax\n", Some(2)),
    Case(b"\tret\n\tmovl $60,%eax\n", Some(2)),
    Case(b"\tret\n\tmovl $60 , %eax\n", Some(2)),
    Case(b"\tret\n\tmovl\t$60, %eax\n", Some(2)),
    Case(b"\tret\n movl $60, %eax\n", Some(2)),
    Case(b"\tret\n\t\tret\n", Some(2)),
    Case(b"\tret\n\tret \n", Some(2)),
    Case(b"\tret\n\tret\r\n", Some(2)),
    Case(b"\tret\n\tret\n\tret", Some(3)),
    Case(b"\tret\n\tret\n\n", Some(3)),
    Case(b"\tret\n\tRET\n", Some(2)),
    Case(b"\tret\n\tret # done\n", Some(2)),
    Case(b"\tret\n\tret; ret\n", Some(2)),
    Case(b"\tret\n\0\n", Some(2)),
    Case(b"\tret\n\x80\n", Some(2)),
    Case(b"\tret\n\xff\xff\n", Some(2)),
    Case(b"\tret\n# function caf\xc3\xa9\n", Some(2)),
    Case(b"\tret\n\t.weak caf\xe9\n", Some(2)),
    Case(b"\tret\n\tmovl $\xb2, %eax\n", Some(2)),
    Case(b"\tret\n\tr\xe9t\n", Some(2)),
];

#[test]
fn a_line_has_its_bytes_and_no_other(rt: HostRuntime) -> Result<(), Fail> {
    assert_cases(&rt, rt.alloc(), &BYTES)?;
    Ok(())
}

// Numbers with digits or signs that are left out.
static NUMBERS: [Case; 22] = [
    Case(b"\tret\n.L01000:\n", Some(2)),
    Case(b"\tret\n.Lp01000:\n", Some(2)),
    Case(b"\tret\n.Ls00:\n", Some(2)),
    Case(b"\tret\n\tcall .L01000\n", Some(2)),
    Case(b"\tret\n\tcall .L1000+0\n", Some(2)),
    Case(b"\tret\n\tcall puts+0\n", Some(2)),
    Case(b"\tret\n\tcall puts+\n", Some(2)),
    Case(b"\tret\n\tmovl $+1, %eax\n", Some(2)),
    Case(b"\tret\n\tmovl $, %eax\n", Some(2)),
    Case(b"\tret\n\tmovl $4294967295, %eax\n", Some(2)),
    Case(b"\tret\n.L:\n", Some(2)),
    Case(b"\tret\n.Ls01:\n", Some(2)),
    Case(b"\tret\n.Lt0a:\n", Some(2)),
    Case(b"\tret\n\tpushq $\n", Some(2)),
    Case(b"\tret\n\tpushq $-\n", Some(2)),
    Case(b"\tret\n\t.p2align \n", Some(2)),
    Case(b"\tret\n\t.zero \n", Some(2)),
    Case(b"\tret\n\tmovq -0(%rax), %rax\n", Some(2)),
    Case(b"\tret\n\tmovq +8(%rax), %rax\n", Some(2)),
    Case(b"\tret\n\tcall puts+08\n", Some(2)),
    Case(b"\tret\n\timull $2147483648, (%rdi), %ecx\n", Some(2)),
    Case(b"\tret\n\tmovabsq $9223372036854775808, %rax\n", Some(2)),
];

#[test]
fn a_number_has_one_form(rt: HostRuntime) -> Result<(), Fail> {
    assert_cases(&rt, rt.alloc(), &NUMBERS)?;
    Ok(())
}

// Names and operands at places where they are none.
static PLACES: [Case; 9] = [
    Case(b"\tret\n\tcall main\n", Some(2)),
    Case(b"\tret\n\t.quad _start\n", Some(2)),
    Case(b"\tret\n\t.type puts, @function\n", Some(2)),
    Case(b"\tret\n# copy main 8\n", Some(2)),
    Case(b"\tret\n\tjmp *.L10\n", Some(2)),
    Case(b"\tret\n\tleave %rax\n", Some(2)),
    Case(b"\tret\n\tsyscall %rax\n", Some(2)),
    Case(b"\tret\n\txchgl (%rax), %eax\n", Some(2)),
    Case(b"\tret\n\tmovq %rax\n", Some(2)),
];

#[test]
fn each_place_has_its_own_names_and_operands(rt: HostRuntime) -> Result<(), Fail> {
    assert_cases(&rt, rt.alloc(), &PLACES)?;
    Ok(())
}

/// A line, and one behind it: a front, as many copies of a byte, and a line feed.
fn with_copies(alloc: Global, front: &str, byte: u8, copies: usize) -> Result<Vec<u8>, AllocError> {
    let mut text = Vec::from_slice(alloc, b"\t.text\n")?;
    text.extend_from_slice(front.as_bytes())?;
    for _copy in 0..copies {
        text.push(byte)?;
    }
    text.push(b'\n')?;
    Ok(text)
}

// What the second line begins with, the byte that follows, how often, and whether the line is refused. The comment with
// 8,181 letters has 8,193 bytes with its line feed, and one with 8,180 has 8,192.
static LONG: [(&str, u8, usize, bool); 13] = [
    ("# function ", b'a', 4096, false),
    ("# function ", b'a', 4097, true),
    ("# function ", b'a', 8180, true),
    ("# function ", b'a', 8181, true),
    ("\t.weak ", b'a', 4096, false),
    ("\t.weak ", b'a', 4097, true),
    ("\tcall ", b'a', 4096, false),
    ("\tcall ", b'a', 4097, true),
    ("\t.zero ", b'0', 8184, true),
    ("\t.zero ", b'1', 8185, true),
    ("\t.byte ", b',', 90_000, true),
    ("", b' ', 90_000, true),
    ("\t", b'%', 90_000, true),
];

#[test]
fn a_long_line_is_refused_at_its_number(rt: HostRuntime) -> Result<(), Fail> {
    for (front, byte, copies, refused) in &LONG {
        let text = with_copies(rt.alloc(), front, *byte, *copies)?;
        let want = if *refused { Some(2) } else { None };
        assert_eq!(&rt;
            refused_line(&rt, rt.alloc(), &text)?,
            want,
            "{front} {copies}"
        );
    }
    Ok(())
}
