//! Where the lines of programs lie.

ghost use Rattle.asm_items.specs.Layout as place;
ghost use Rattle.rw_layout.specs.Places.{IsLaidBy};
ghost use Rattle.rw_layout.specs.Program.{shown};

use crate::cases::program_of;
use crate::laying::laid_out;
use crate::looked::{address_of, regions_before_counters};
use rw_base::Refusal;
use rw_layout::{Layout, Order, Program};
use std::alloc::{AllocError, Global};
use std::process::Abort;
use std::test::Fail;

/// A line of a text. A label or an instruction has its address, and a copy or a word of a name that of its name: in the order of
/// the text with no gap, and in reverse with gaps of 4,096 bytes.
pub struct Line(&'static str, Option<(u64, u64)>);

/// The lines of a text, and its regions with their bases: sections, copies, counters.
struct Given(&'static [Line], &'static [Line]);

/// A line or a region, and its address or base as it was found, where that isn't the wanted one.
type Wrong = Option<(&'static str, Option<(u64, u64)>)>;

// A program that counts. Code of 7 instructions, 56 bytes, and of 14, 112 bytes; 4 counters, 32 bytes. All begin at multiples of
// 16. In the order of the text: `_start` at 65,536; `f` behind 65,592, at 65,600; the counters at 65,600 + 112 = 65,712. In
// reverse: the counters at 65,536; `f` at 65,536 + 32 + 4,096 = 69,664; `_start` at 69,664 + 112 + 4,096 = 73,872.
#[rattlefmt::skip]
pub const COUNTED: &[Line] = &[
    Line("# function _start", None),
    Line("\t.text", None),
    Line("\t.p2align 4", None),
    Line("\t.globl _start", None),
    Line("\t.type _start, @function", None),
    Line("_start:", None),
    Line(".L1000:", Some((65_536, 73_872))),
    Line("\tincq __retro_counts(%rip)", Some((65_536, 73_872))),
    Line("\tmovl $3, %edi", Some((65_544, 73_880))),
    Line(".L1005:", Some((65_552, 73_888))),
    Line("\tcall .L1020", Some((65_552, 73_888))),
    Line(".L100a:", Some((65_560, 73_896))),
    Line("\tmovl %eax, %edi", Some((65_560, 73_896))),
    Line(".L100c:", Some((65_568, 73_904))),
    Line("\tmovl $60, %eax", Some((65_568, 73_904))),
    Line(".L1011:", Some((65_576, 73_912))),
    Line("\tsyscall", Some((65_576, 73_912))),
    Line(".Lp1000:", Some((65_584, 73_920))),
    Line("\tint3", Some((65_584, 73_920))),
    Line("# function f", None),
    Line("\t.text", None),
    Line("\t.p2align 4", None),
    Line(".L1020:", Some((65_600, 69_664))),
    Line("\tincq __retro_counts+8(%rip)", Some((65_600, 69_664))),
    Line("\ttestl %edi, %edi", Some((65_608, 69_672))),
    Line(".L1022:", Some((65_616, 69_680))),
    Line("\tje .L1030", Some((65_616, 69_680))),
    Line(".L1024:", Some((65_624, 69_688))),
    Line("\tincq __retro_counts+16(%rip)", Some((65_624, 69_688))),
    Line("\tpushq %rdi", Some((65_632, 69_696))),
    Line(".L1025:", Some((65_640, 69_704))),
    Line("\tdecl %edi", Some((65_640, 69_704))),
    Line(".L1027:", Some((65_648, 69_712))),
    Line("\tcall .L1020", Some((65_648, 69_712))),
    Line(".L102c:", Some((65_656, 69_720))),
    Line("\tpopq %rdi", Some((65_656, 69_720))),
    Line(".L102d:", Some((65_664, 69_728))),
    Line("\taddl %edi, %eax", Some((65_664, 69_728))),
    Line(".L102f:", Some((65_672, 69_736))),
    Line("\tret", Some((65_672, 69_736))),
    Line(".L1030:", Some((65_680, 69_744))),
    Line("\tincq __retro_counts+24(%rip)", Some((65_680, 69_744))),
    Line("\txorl %eax, %eax", Some((65_688, 69_752))),
    Line(".L1032:", Some((65_696, 69_760))),
    Line("\tret", Some((65_696, 69_760))),
    Line(".Lp1020:", Some((65_704, 69_768))),
    Line("\tint3", Some((65_704, 69_768))),
    Line("\t.section .retro.counts,\"aw\",@nobits", None),
    Line("\t.globl __retro_counts", None),
    Line("\t.p2align 3", None),
    Line("__retro_counts:", None),
    Line("\t.zero 32", None),
    Line("\t.section .note.GNU-stack,\"\",@progbits", None),
];

// A program with data. In the order of the text, with no gap:
//
//     main      65,536                          7 instructions, 56 bytes   to 65,592
//     f         multiple of 16: 65,600          2 instructions, 16 bytes   to 65,616
//     .Ls0      multiple of 32: 65,632          3 + 4 bytes                to 65,639
//     .Ls1      multiple of 16: 65,648          3 words of 8 bytes         to 65,672
//     .Ls2      multiple of 16: 65,680          100 bytes                  to 65,780
//     stdout    multiple of 16: 65,792          8 bytes                    to 65,800
//     pair      multiple of 16: 65,808          20 bytes                   to 65,828
//     names     multiple of 16: 65,840 puts, 65,856 exit, 65,872 __gmon_start__
//
// In reverse, with 4,096 bytes behind each function and section:
//
//     .Ls2      65,536                          100 + 4,096                to 69,732
//     .Ls1      multiple of 16: 69,744          24 + 4,096                 to 73,864
//     .Ls0      multiple of 32: 73,888          7 + 4,096                  to 77,991
//     f         multiple of 16: 78,000          16 + 4,096                 to 82,112
//     main      multiple of 16: 82,112          56 + 4,096                 to 86,264
//     stdout    multiple of 16: 86,272          8 bytes                    to 86,280
//     pair      multiple of 16: 86,288          20 bytes                   to 86,308
//     names     multiple of 16: 86,320 puts, 86,336 exit, 86,352 __gmon_start__
//
// The table begins behind 3 bytes of its section. Without counters their region, empty, has the base 65,536.
#[rattlefmt::skip]
const DATA: &[Line] = &[
    Line("# copy stdout 8", Some((65_792, 86_272))),
    Line("# copy pair 20", Some((65_808, 86_288))),
    Line("\t.weak __gmon_start__", None),
    Line("# function main", None),
    Line("\t.text", None),
    Line("\t.p2align 4", None),
    Line("\t.globl main", None),
    Line("\t.type main, @function", None),
    Line("main:", None),
    Line(".L1000:", Some((65_536, 82_112))),
    Line("\tsubq $8, %rsp", Some((65_536, 82_112))),
    Line(".L1004:", Some((65_544, 82_120))),
    Line("\tleaq .Ls0(%rip), %rdi", Some((65_544, 82_120))),
    Line(".L100b:", Some((65_552, 82_128))),
    Line("\tcall puts", Some((65_552, 82_128))),
    Line(".L1010:", Some((65_560, 82_136))),
    Line("\tmovq stdout(%rip), %rax", Some((65_560, 82_136))),
    Line(".L1017:", Some((65_568, 82_144))),
    Line("\txorl %eax, %eax", Some((65_568, 82_144))),
    Line(".L1019:", Some((65_576, 82_152))),
    Line("\tret", Some((65_576, 82_152))),
    Line(".Lp1000:", Some((65_584, 82_160))),
    Line("\tint3", Some((65_584, 82_160))),
    Line("# function f", None),
    Line("\t.text", None),
    Line("\t.p2align 4", None),
    Line(".L1020:", Some((65_600, 78_000))),
    Line("\tjmp exit", Some((65_600, 78_000))),
    Line(".Lp1020:", Some((65_608, 78_008))),
    Line("\tint3", Some((65_608, 78_008))),
    Line("\t.section .retro.s0,\"a\",@progbits", None),
    Line("\t.p2align 5", None),
    Line(".Ls0:", Some((65_632, 73_888))),
    Line("\t.byte 104, 105, 0", None),
    Line(".Lt2003:", Some((65_635, 73_891))),
    Line("\t.long .L1004-.Lt2003", None),
    Line("\t.section .retro.s1,\"aw\",@progbits", None),
    Line("\t.p2align 3", None),
    Line(".Ls1:", Some((65_648, 69_744))),
    Line("\t.quad puts", Some((65_840, 86_320))),
    Line("\t.quad __gmon_start__", Some((65_872, 86_352))),
    Line("\t.quad pair+16", Some((65_808, 86_288))),
    Line("\t.section .retro.s2,\"aw\",@nobits", None),
    Line("\t.p2align 2", None),
    Line(".Ls2:", Some((65_680, 65_536))),
    Line("\t.zero 100", None),
    Line("\t.section .note.GNU-stack,\"\",@progbits", None),
];

#[rattlefmt::skip]
static GIVEN: [Given; 2] = [
    Given(COUNTED, &[Line("counters", Some((65_712, 65_536)))]),
    Given(DATA, &[
        Line("section 0", Some((65_632, 73_888))),
        Line("section 1", Some((65_648, 69_744))),
        Line("section 2", Some((65_680, 65_536))),
        Line("copy of stdout", Some((65_792, 86_272))),
        Line("copy of pair", Some((65_808, 86_288))),
        Line("counters", Some((65_536, 65_536))),
    ]),
];

pub fn text_of(alloc: Global, lines: &[Line]) -> Result<Vec<u8>, AllocError> {
    let mut text = Vec::new(alloc);
    for Line(line, _) in lines {
        text.extend_from_slice(line.as_bytes())?;
        text.push(b'\n')?;
    }
    Ok(text)
}

fn wrong_line(
    lines: &'static [Line],
    program: &Program,
    forward: &Layout,
    reverse: &Layout,
) -> Wrong
    requires forward { (at : place.Layout) × IsLaidBy (shown program.now) program.now.names at forward.now }
    requires reverse { (at : place.Layout) × IsLaidBy (shown program.now) program.now.names at reverse.now }
{
    for (i, Line(line, want)) in lines.iter().enumerate() {
        if i >= program.text().items.len() {
            return Some((*line, None));
        }
        let here = address_of(program, forward, i);
        let found = here.zip(address_of(program, reverse, i));
        if found != *want {
            return Some((*line, found));
        }
    }
    None
}

fn wrong_base(
    regions: &'static [Line],
    program: &Program,
    forward: &Layout,
    reverse: &Layout,
) -> Wrong
    requires forward { (at : place.Layout) × IsLaidBy (shown program.now) program.now.names at forward.now }
    requires reverse { (at : place.Layout) × IsLaidBy (shown program.now) program.now.names at reverse.now }
{
    let counters = regions_before_counters(program);
    for (i, Line(region, want)) in regions.iter().enumerate() {
        if i > counters as usize {
            return Some((*region, None));
        }
        let found = Some((forward.base(i as u32), reverse.base(i as u32)));
        if found != *want {
            return Some((*region, found));
        }
    }
    None
}

fn wrong_place(rt: &impl Abort, alloc: Global, given: &'static Given) -> Result<Wrong, Refusal> {
    let program = program_of(rt, alloc, &text_of(alloc, given.0)?)?;
    let Ok(forward) = laid_out(rt, alloc, &program, Order::Forward, 0)? else {
        return Err(Refusal::Memory);
    };
    let Ok(reverse) = laid_out(rt, alloc, &program, Order::Reverse, 4096)? else {
        return Err(Refusal::Memory);
    };
    Ok(wrong_line(given.0, &program, &forward, &reverse).or(wrong_base(
        given.1, &program, &forward, &reverse,
    )))
}

#[test]
fn lines_lie_by_the_rule(rt: HostRuntime) -> Result<(), Fail> {
    for given in &GIVEN {
        assert_eq!(rt; wrong_place(&rt, rt.alloc(), given)?, None);
    }
    Ok(())
}
