//! The text of an item's parts, appended to a line.
ghost use Rattle.std.specs.Prelude.{◌≡◌, ◌++◌, [], true, codes, decimal};
ghost use Rattle.rw_io.specs.Outside.{HasCause};
ghost use Rattle.rw_io.specs.WriteAll.{WritesAll};
ghost use Rattle.x86_insn.specs.References.{map_mem, map_references};
ghost use Rattle.asm_items.specs.Formed.{is_item};
ghost use Rattle.asm_items.specs.Named.{name_of, map_sym, named};
ghost use Rattle.asm_print.specs.Line.{Appends, hex};
ghost use Rattle.asm_print.specs.Spelling.{map_arg, map_args};
ghost use Rattle.asm_print.specs.Text.{offset_text, sym_text, reg_text, quad_text, disp_text, index_text, place_text, mem_text, arg_text, args_text, insn_text, label_text, body, line_text, section_text, numbers_text, more_numbers};

use crate::line::Line;
use crate::spelling::{Arg, Args, args_for, form_for};
use crate::words::{ending, reg_name, stem};
use asm_items::{Item, Label, NameId, Names, Sym};
use rw_base::Width;
use rw_io::{Sink, WriteFault, write_all};
use x86_insn::{Insn, Mem, Reg, Reg8};

#[tactic(auto, using(crate::proofs::Cut::pieces), unfolding(crate::specs::Text::offset_text))]
fn put_offset(line: &mut Line, offset: u64)
    ensures { Appends line.old.bytes.items (offset_text offset) line.new.bytes.items }
{
    if offset != 0 {
        line.put_str("+");
        line.put_decimal(offset);
    }
}

fn put_name(line: &mut Line, names: &Names, id: NameId)
    ensures { Appends line.old.bytes.items (name_of names.now id) line.new.bytes.items }
{
    line.put(name_bytes(names, id));
}

/// The bytes of a name; a number past the list has no bytes.
fn name_bytes<'a>(names: &'a Names, id: NameId) -> &'a [u8]
    ensures { result.now ≡ name_of names.now id }
{
    if (id.0 as usize) < names.len() {
        names.get(id)
    } else {
        &[]
    }
}

#[tactic(auto, using(crate::proofs::Cut::pieces), unfolding(crate::specs::Text::sym_text))]
fn put_sym(line: &mut Line, names: &Names, sym: Sym)
    ensures { Appends line.old.bytes.items (sym_text (map_sym (name_of names.now) sym)) line.new.bytes.items }
{
    match sym {
        Sym::Code(a) => {
            line.put_str(".L");
            line.put_hex(a);
        }
        Sym::Section(n, offset) => {
            line.put_str(".Ls");
            line.put_decimal(u64::from(n));
            put_offset(line, offset);
        }
        Sym::Named(name, offset) => {
            put_name(line, names, name);
            put_offset(line, offset);
        }
        Sym::Counter(k) => {
            line.put_str("__retro_counts");
            put_offset(line, 8 * u64::from(k));
        }
    }
}

#[tactic(auto, using(crate::proofs::Cut::pieces), unfolding(crate::specs::Text::reg_text))]
fn put_reg(line: &mut Line, w: Width, r: Reg8)
    ensures { Appends line.old.bytes.items (reg_text w r) line.new.bytes.items }
{
    line.put_str("%");
    line.put_str(reg_name(w, r));
}

#[tactic(auto, using(crate::proofs::Cut::pieces), unfolding(crate::specs::Text::disp_text))]
fn put_disp(line: &mut Line, base: Option<Reg>, disp: i32)
    ensures { Appends line.old.bytes.items (disp_text base disp) line.new.bytes.items }
{
    if base.is_none() || disp != 0 {
        line.put_signed(i64::from(disp));
    }
}

#[tactic(auto, using(crate::proofs::Cut::pieces), unfolding(crate::specs::Text::index_text))]
fn put_index(line: &mut Line, index: (Reg, u8))
    ensures { Appends line.old.bytes.items (index_text index) line.new.bytes.items }
{
    line.put_str(",");
    put_reg(line, Width::Q, Reg8::Low(index.0));
    line.put_str(",");
    line.put_decimal(u64::from(index.1));
}

#[tactic(auto, using(crate::proofs::Cut::pieces), unfolding(crate::specs::Text::place_text))]
fn put_place(line: &mut Line, base: Option<Reg>, index: Option<(Reg, u8)>)
    ensures { Appends line.old.bytes.items (place_text base index) line.new.bytes.items }
{
    match (base, index) {
        (None, None) => {}
        (Some(base), None) => {
            line.put_str("(");
            put_reg(line, Width::Q, Reg8::Low(base));
            line.put_str(")");
        }
        (None, Some(index)) => {
            line.put_str("(");
            put_index(line, index);
            line.put_str(")");
        }
        (Some(base), Some(index)) => {
            line.put_str("(");
            put_reg(line, Width::Q, Reg8::Low(base));
            put_index(line, index);
            line.put_str(")");
        }
    }
}

#[tactic(auto, using(crate::proofs::Cut::pieces), unfolding(crate::specs::Text::mem_text))]
fn put_mem(line: &mut Line, names: &Names, mem: Mem<Sym>)
    ensures { Appends line.old.bytes.items (mem_text (map_mem (map_sym (name_of names.now)) mem)) line.new.bytes.items }
{
    match mem {
        Mem::At { base, index, disp } => {
            put_disp(line, base, disp);
            put_place(line, base, index);
        }
        Mem::Rel(sym) => {
            put_sym(line, names, sym);
            line.put_str("(%rip)");
        }
        Mem::Canary => line.put_str("%fs:40"),
    }
}

#[tactic(auto, using(crate::proofs::Cut::pieces), unfolding(crate::specs::Text::arg_text))]
fn put_arg(line: &mut Line, names: &Names, arg: Arg<Sym>)
    ensures { Appends line.old.bytes.items (arg_text (map_arg (map_sym (name_of names.now)) arg)) line.new.bytes.items }
{
    match arg {
        Arg::Reg(w, r) => put_reg(line, w, r),
        Arg::Imm(n) => {
            line.put_str("$");
            line.put_signed(n);
        }
        Arg::Mem(mem) => put_mem(line, names, mem),
        Arg::To(sym) => put_sym(line, names, sym),
    }
}

#[tactic(auto, using(crate::proofs::Cut::pieces), unfolding(crate::specs::Text::args_text))]
fn put_args(line: &mut Line, names: &Names, args: Args<Sym>)
    ensures { Appends line.old.bytes.items (args_text (map_args (map_sym (name_of names.now)) args)) line.new.bytes.items }
{
    match args {
        Args::Zero => {}
        Args::One(a) => {
            line.put_str(" ");
            put_arg(line, names, a);
        }
        Args::Star(a) => {
            line.put_str(" *");
            put_arg(line, names, a);
        }
        Args::Two(a, b) => {
            line.put_str(" ");
            put_arg(line, names, a);
            line.put_str(", ");
            put_arg(line, names, b);
        }
        Args::Three(a, b, c) => {
            line.put_str(" ");
            put_arg(line, names, a);
            line.put_str(", ");
            put_arg(line, names, b);
            line.put_str(", ");
            put_arg(line, names, c);
        }
    }
}

#[tactic(auto, using(crate::proofs::Mapped::spelled), unfolding(crate::specs::Text::insn_text))]
fn put_insn(line: &mut Line, names: &Names, insn: Insn<Sym>)
    ensures { Appends line.old.bytes.items (insn_text (map_references (map_sym (name_of names.now)) insn)) line.new.bytes.items }
{
    let form = form_for(insn);
    line.put_str(stem(form));
    line.put_str(ending(form));
    put_args(line, names, args_for(insn));
}

#[tactic(auto, using(crate::proofs::Cut::pieces), unfolding(crate::specs::Text::label_text))]
fn put_label(line: &mut Line, label: Label)
    ensures { Appends line.old.bytes.items (label_text label) line.new.bytes.items }
{
    match label {
        Label::Code(a) => {
            line.put_str(".L");
            line.put_hex(a);
        }
        Label::Past(a) => {
            line.put_str(".Lp");
            line.put_hex(a);
        }
        Label::Section(n) => {
            line.put_str(".Ls");
            line.put_decimal(u64::from(n));
        }
        Label::Table(a) => {
            line.put_str(".Lt");
            line.put_hex(a);
        }
    }
}

#[tactic(auto, using(crate::proofs::Cut::pieces), unfolding(crate::specs::Text::section_text))]
fn put_section(line: &mut Line, writable: bool, nobits: bool)
    ensures { Appends line.old.bytes.items (section_text writable nobits) line.new.bytes.items }
{
    line.put_str(",\"a");
    line.put_str(if writable { "w" } else { "" });
    line.put_str("\",@");
    line.put_str(if nobits { "nobits" } else { "progbits" });
}

/// A text, and a name behind it.
#[tactic(auto, using(crate::proofs::Cut::pieces))]
fn put_named(line: &mut Line, names: &Names, before: &str, id: NameId)
    ensures { Appends line.old.bytes.items (before.now ++ name_of names.now id) line.new.bytes.items }
{
    line.put_str(before);
    put_name(line, names, id);
}

/// A text, and a number in decimal behind it.
#[tactic(auto, using(crate::proofs::Cut::pieces))]
fn put_numbered(line: &mut Line, before: &str, n: u64)
    ensures { Appends line.old.bytes.items (before.now ++ decimal n) line.new.bytes.items }
{
    line.put_str(before);
    line.put_decimal(n);
}

/// The distance of a code label from the label of a jump table, in 4 bytes.
#[tactic(auto, using(crate::proofs::Cut::pieces))]
fn put_distance(line: &mut Line, code: u64, table: u64)
    ensures { Appends line.old.bytes.items (codes "\t.long .L" ++ hex code ++ codes "-.Lt" ++ hex table) line.new.bytes.items }
{
    line.put_str("\t.long .L");
    line.put_hex(code);
    line.put_str("-.Lt");
    line.put_hex(table);
}

#[tactic(auto, using(crate::proofs::Cut::pieces), unfolding(crate::specs::Text::body))]
fn put_body(line: &mut Line, names: &Names, item: &Item)
    ensures { Appends line.old.bytes.items (body (named names.now item.now)) line.new.bytes.items }
{
    match item {
        Item::Copy(name, size) => {
            put_named(line, names, "# copy ", *name);
            put_numbered(line, " ", *size);
        }
        Item::Comment(name) => put_named(line, names, "# function ", *name),
        Item::Weak(name) => put_named(line, names, "\t.weak ", *name),
        Item::Globl(name) => put_named(line, names, "\t.globl ", *name),
        Item::TextHead => line.put_str("\t.text"),
        Item::Align(k) => put_numbered(line, "\t.p2align ", u64::from(*k)),
        Item::FuncKind(name) => {
            put_named(line, names, "\t.type ", *name);
            line.put_str(", @function");
        }
        Item::Name(name) => {
            put_name(line, names, *name);
            line.put_str(":");
        }
        Item::Label(label) => {
            put_label(line, *label);
            line.put_str(":");
        }
        Item::Ins(insn) => {
            line.put_str("\t");
            put_insn(line, names, *insn);
        }
        Item::SectionHead(n, writable, nobits) => {
            put_numbered(line, "\t.section .retro.s", u64::from(*n));
            put_section(line, *writable, *nobits);
        }
        Item::Bytes(bytes) => {
            line.put_str("\t.byte ");
            put_numbers(line, bytes.as_slice());
        }
        Item::Quad(sym) => {
            line.put_str("\t.quad ");
            put_sym(line, names, *sym);
        }
        Item::LongDiff(code, table) => put_distance(line, *code, *table),
        Item::Zero(n) => put_numbered(line, "\t.zero ", *n),
        Item::CountsHead => line.put_str("\t.section .retro.counts,\"aw\",@nobits"),
        Item::Tail => line.put_str("\t.section .note.GNU-stack,\"\",@progbits"),
    }
}

#[tactic(auto, using(crate::proofs::Cut::more_pieces))]
fn put_numbers(line: &mut Line, bytes: &[u8])
    ensures { Appends line.old.bytes.items (numbers_text bytes.now) line.new.bytes.items }
{
    if bytes.len() > 0 {
        line.put_decimal(u64::from(bytes[0]));
        put_more_numbers(line, &bytes[1..]);
    }
}

#[tactic(auto, using(crate::proofs::Cut::more_pieces))]
fn put_more_numbers(line: &mut Line, bytes: &[u8])
    ensures { Appends line.old.bytes.items (more_numbers bytes.now) line.new.bytes.items }
{
    for b in bytes {
        line.put_str(", ");
        line.put_decimal(u64::from(*b));
    }
}

/// The item's line as far as there is room.
#[tactic(auto, using(crate::proofs::Cut::pieces))]
fn put_line(line: &mut Line, names: &Names, item: &Item)
    ensures { Appends [] (line_text (named names.now item.now)) line.new.bytes.items }
{
    line.bytes.clear();
    put_body(line, names, item);
    line.put_str("\n");
}

/// Leaves the line of an item of a text in `line`, with its line feed.
pub fn line_of(item: &Item, names: &Names, line: &mut Line)
    requires { is_item (named names.now item.now) ≡ true }
    ensures { line.new.bytes.items ≡ line_text (named names.now item.now) }
{
    put_line(line, names, item);
}

/// Writes the line of an item of a text by one `write_all`. A fault comes only where the sink's count rose,
/// and tells how many bytes of the line were written.
pub fn print_item<S: Sink>(
    item: &Item,
    names: &Names,
    line: &mut Line,
    sink: &mut S,
) -> Result<(), WriteFault>
    requires { is_item (named names.now item.now) ≡ true }
    ensures line { line.new.bytes.items ≡ line_text (named names.now item.now) }
    ensures bytes { WritesAll (S.held sink.old) (S.held sink.new) result (line_text (named names.now item.now)) }
    ensures cause { HasCause (S.faults sink.old) (S.faults sink.new) result }
{
    line_of(item, names, line);
    write_all(sink, &line.bytes)
}
