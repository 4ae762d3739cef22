//! Lines of each kind of item.

use crate::cases::{Case, Pair, assert_cases, assert_pairs};
use std::test::Fail;

static ITEMS: [Pair; 17] = [
    Pair("copy", "# copy stdout 8", "# copy stdout 0"),
    Pair("comment", "# function a+b(c)", "# function a b"),
    Pair("weak", "\t.weak puts", "\t.weak main"),
    Pair("globl", "\t.globl main", "\t.globl puts"),
    Pair("text", "\t.text", "\t.text 0"),
    Pair("alignment", "\t.p2align 16", "\t.p2align 17"),
    Pair(
        "function",
        "\t.type _start, @function",
        "\t.type _start, @object",
    ),
    Pair("name", "__retro_counts:", "puts:"),
    Pair("label", ".L1000:", ".L1000: "),
    Pair("instruction", "\tret", "ret"),
    Pair(
        "section",
        "\t.section .retro.s0,\"a\",@progbits",
        "\t.section .retro.s0,\"ax\",@progbits",
    ),
    Pair("bytes", "\t.byte 104, 105, 0", "\t.byte 104, 256, 0"),
    Pair("address", "\t.quad .Ls0+8", "\t.quad 8"),
    Pair(
        "distance",
        "\t.long .L101b-.Lt2000",
        "\t.long .L101b-.L2000",
    ),
    Pair("zeros", "\t.zero 1", "\t.zero 0"),
    Pair(
        "counters",
        "\t.section .retro.counts,\"aw\",@nobits",
        "\t.section .retro.counts,\"a\",@nobits",
    ),
    Pair(
        "end",
        "\t.section .note.GNU-stack,\"\",@progbits",
        "\t.section .note.GNU-stack,\"\",@nobits",
    ),
];

#[test]
fn each_kind_of_item_has_its_line(rt: HostRuntime) -> Result<(), Fail> {
    assert_pairs(&rt, rt.alloc(), &ITEMS)?;
    Ok(())
}

// The ends of ranges, and forms that no item has.
static RANGES: [Pair; 22] = [
    Pair(
        "label of code",
        ".Lffffffffffffffff:",
        ".L10000000000000000:",
    ),
    Pair("label past a function", ".Lp0:", ".Lp:"),
    Pair("label of a section", ".Ls4294967295:", ".Ls4294967296:"),
    Pair("label of a table", ".Lt2a0:", ".Lt2A0:"),
    Pair(
        "number of a section",
        "\t.section .retro.s4294967295,\"aw\",@nobits",
        "\t.section .retro.s4294967296,\"aw\",@nobits",
    ),
    Pair(
        "writable section",
        "\t.section .retro.s1,\"aw\",@progbits",
        "\t.section .retro.s1,\"wa\",@progbits",
    ),
    Pair(
        "section without bytes",
        "\t.section .retro.s1,\"a\",@nobits",
        "\t.section .retro.s1, \"a\",@nobits",
    ),
    Pair("alignment 1", "\t.p2align 0", "\t.p2align 00"),
    Pair("alignment 256", "\t.p2align 8", "\t.p2align 264"),
    Pair(
        "16 bytes",
        "\t.byte 0, 1, 2, 3, 4, 5, 6, 7, 8, 9, 10, 11, 12, 13, 14, 255",
        "\t.byte 0, 1, 2, 3, 4, 5, 6, 7, 8, 9, 10, 11, 12, 13, 14, 15, 16",
    ),
    Pair("one byte", "\t.byte 0", "\t.byte "),
    Pair("bytes apart", "\t.byte 1, 2", "\t.byte 1,2"),
    Pair(
        "zeros of 64 bits",
        "\t.zero 18446744073709551615",
        "\t.zero 18446744073709551616",
    ),
    Pair("decimal zeros", "\t.zero 8", "\t.zero 08"),
    Pair(
        "size of a copy",
        "# copy stdout 18446744073709551615",
        "# copy stdout 18446744073709551616",
    ),
    Pair("name of a copy", "# copy _IO.2$ 1", "# copy a+b 1"),
    Pair(
        "offset of 64 bits",
        "\t.quad puts+18446744073709551615",
        "\t.quad puts+18446744073709551616",
    ),
    Pair("no offset", "\t.quad puts", "\t.quad puts+0"),
    Pair(
        "counter of 32 bits",
        "\t.quad __retro_counts+34359738360",
        "\t.quad __retro_counts+34359738368",
    ),
    Pair(
        "first counter",
        "\t.quad __retro_counts",
        "\t.quad __retro_counts+0",
    ),
    Pair(
        "name that looks like a label",
        "\t.weak .l1000",
        "\t.weak .L1000",
    ),
    Pair("name with a digit", "\t.weak puts2", "\t.weak 2puts"),
];

#[test]
fn numbers_and_names_end_where_their_fields_do(rt: HostRuntime) -> Result<(), Fail> {
    assert_pairs(&rt, rt.alloc(), &RANGES)?;
    Ok(())
}

// A text is a list of lines: none, one, or many.
static TEXTS: [Case; 5] = [
    Case(b"", None),
    Case(b"\n", Some(1)),
    Case(b"\n\n\n", Some(1)),
    Case(b"\t.text\n\n\t.text\n", Some(2)),
    Case(b"\t.text\n\t.text\n", None),
];

#[test]
fn an_empty_line_is_none(rt: HostRuntime) -> Result<(), Fail> {
    assert_cases(&rt, rt.alloc(), &TEXTS)?;
    Ok(())
}
