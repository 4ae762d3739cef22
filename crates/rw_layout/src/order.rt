//! The order of the lines of a program.

ghost use Rattle.std.specs.Prelude.{◌≡◌, ◌<◌, ◌+◌, ℕ, List, true, IfSome, None};
ghost use Rattle.rw_base.specs.Name.{is_own_name};
ghost use Rattle.asm_items.specs.Formed.{is_item};
ghost use Rattle.asm_items.specs.Named.{map_sym, name_of, named};
ghost use Rattle.x86_insn.specs.References.{map_references};
ghost use Rattle.rw_layout.specs.Order.{counts_name, entry_name, is_content};
ghost use Rattle.std.specs.Str.{bytes_eq};
ghost use Rattle.rw_layout.specs.Checks.{IsFirstAt, IsMisplaced, Nowhere};
ghost use Rattle.rw_layout.specs.Program.{IsText, shown};
ghost use Rattle.rw_layout.specs.States as states;
ghost use Rattle.rw_layout.specs.declared.order.State.TheVariants as is;

use asm_items::{Item, Label, NameId, Names, Sym};
use x86_insn::{Insn, Plain};

/// How far the lines have come. `entered` says whether a function has the name with which the program starts, and numbers
/// are those of sections.
#[derive(Clone, Copy)]
pub(crate) enum State {
    /// At copies.
    Copies,
    /// At weak names.
    Weaks,
    /// Behind the comment of a function.
    Head(bool),
    /// Behind its head.
    Code(bool),
    /// Before its first label.
    Open(bool),
    /// Behind the line that makes its name global: whether it is `main`.
    Kind(bool),
    /// Before its name.
    Naming(bool),
    /// Behind its first label.
    Body(bool),
    /// Behind its last label.
    Closing(bool),
    /// Behind it.
    Between(bool),
    /// Behind the head of the section of this number, and whether it has no bytes in the file.
    Aligned(u32, bool),
    /// Before its label.
    Labelled(u32, bool),
    /// Before its one line of zeros.
    OneZero(u32),
    /// Before its first line of data.
    Contents(u32),
    /// Behind its data: the number of the next section, and whether there may be more data.
    More(u32, bool),
    /// Behind the head of the counters.
    CountsGlobl,
    /// Before their alignment.
    CountsAlign,
    /// Before their name.
    CountsName,
    /// Before their zeros.
    CountsZero,
    /// Before the last line.
    Last,
    /// Behind the last line.
    Done,
}

fn next_if(test: bool, state: State) -> Option<State>
    ensures { result ≡ states.next_if test state }
{
    if test { Some(state) } else { None }
}

// At copies, which weak names or a function may follow.
fn after_copies(item: &Item) -> Option<State>
    ensures { (names : List (List ℕ)) → result ≡ states.next is.Copies (named names item.now) }
{
    match item {
        Item::Copy(_, _) => Some(State::Copies),
        Item::Weak(_) => Some(State::Weaks),
        Item::Comment(_) => Some(State::Head(false)),
        _ => None,
    }
}

fn after_weaks(item: &Item) -> Option<State>
    ensures { (names : List (List ℕ)) → result ≡ states.next is.Weaks (named names item.now) }
{
    match item {
        Item::Weak(_) => Some(State::Weaks),
        Item::Comment(_) => Some(State::Head(false)),
        _ => None,
    }
}

fn after_head(item: &Item, entered: bool) -> Option<State>
    ensures { (names : List (List ℕ)) → result ≡ states.next (is.Head entered) (named names item.now) }
{
    match item {
        Item::TextHead => Some(State::Code(entered)),
        _ => None,
    }
}

fn after_code(item: &Item, entered: bool) -> Option<State>
    ensures { (names : List (List ℕ)) → result ≡ states.next (is.Code entered) (named names item.now) }
{
    match item {
        Item::Align(k) => next_if(*k == 4, State::Open(entered)),
        _ => None,
    }
}

// Whether a name with which a program starts is `main`.
fn entry_of(name: &[u8]) -> Option<bool>
    ensures { result ≡ states.entry_of name.now }
{
    if name == "main".as_bytes() {
        Some(true)
    } else if name == "_start".as_bytes() {
        Some(false)
    } else {
        None
    }
}

// Whether a name is that with which a program starts, which is `main` or `_start`.
fn is_entry_name(name: &[u8], hosted: bool) -> bool
    ensures { result ≡ bytes_eq name.now (entry_name hosted) }
{
    if hosted {
        name == "main".as_bytes()
    } else {
        name == "_start".as_bytes()
    }
}

fn is_counts_name(name: &[u8]) -> bool
    ensures { result ≡ bytes_eq name.now counts_name }
{
    name == "__retro_counts".as_bytes()
}

// The name with which the program starts, in the line that makes it global.
#[tactic(auto, using(crate::proofs::OwnNames::within))]
fn entry_name_of(names: &Names, id: NameId) -> Option<bool>
    requires { is_own_name (name_of names.now id) ≡ true }
    ensures { result ≡ states.entry_of (name_of names.now id) }
{
    entry_of(names.get(id))
}

#[tactic(auto, using(crate::proofs::OwnNames::within))]
fn has_entry_name(names: &Names, id: NameId, hosted: bool) -> bool
    requires { is_own_name (name_of names.now id) ≡ true }
    ensures { result ≡ bytes_eq (name_of names.now id) (entry_name hosted) }
{
    is_entry_name(names.get(id), hosted)
}

#[tactic(auto, using(crate::proofs::OwnNames::within))]
pub(crate) fn has_counts_name(names: &Names, id: NameId) -> bool
    requires { is_own_name (name_of names.now id) ≡ true }
    ensures { result ≡ bytes_eq (name_of names.now id) counts_name }
{
    is_counts_name(names.get(id))
}

fn after_opening(names: &Names, item: &Item, entered: bool) -> Option<State>
    requires { is_item (named names.now item.now) ≡ true }
    ensures { result ≡ states.next (is.Open entered) (named names.now item.now) }
{
    match item {
        Item::Globl(id) => {
            if entered {
                return None;
            }
            match entry_name_of(names, *id) {
                Some(hosted) => Some(State::Kind(hosted)),
                None => None,
            }
        }
        Item::Label(Label::Code(_)) => Some(State::Body(entered)),
        _ => None,
    }
}

fn after_global(names: &Names, item: &Item, hosted: bool) -> Option<State>
    requires { is_item (named names.now item.now) ≡ true }
    ensures { result ≡ states.next (is.Kind hosted) (named names.now item.now) }
{
    match item {
        Item::FuncKind(id) => next_if(has_entry_name(names, *id, hosted), State::Naming(hosted)),
        _ => None,
    }
}

fn after_kind(names: &Names, item: &Item, hosted: bool) -> Option<State>
    requires { is_item (named names.now item.now) ≡ true }
    ensures { result ≡ states.next (is.Naming hosted) (named names.now item.now) }
{
    match item {
        Item::Name(id) => next_if(has_entry_name(names, *id, hosted), State::Open(true)),
        _ => None,
    }
}

fn after_body_line(item: &Item, entered: bool) -> Option<State>
    ensures { (names : List (List ℕ)) → result ≡ states.next (is.Body entered) (named names item.now) }
{
    match item {
        Item::Ins(_) => Some(State::Body(entered)),
        Item::Label(Label::Code(_)) => Some(State::Body(entered)),
        Item::Label(Label::Past(_)) => Some(State::Closing(entered)),
        _ => None,
    }
}

fn is_int3(insn: &Insn<Sym>) -> bool
    ensures { (names : List (List ℕ)) → result ≡ states.is_int3 (map_references (map_sym (name_of names)) insn.now) }
{
    match insn {
        Insn::Plain(Plain::Int3) => true,
        _ => false,
    }
}

fn after_last_label(item: &Item, entered: bool) -> Option<State>
    ensures { (names : List (List ℕ)) → result ≡ states.next (is.Closing entered) (named names item.now) }
{
    match item {
        Item::Ins(insn) => next_if(is_int3(insn), State::Between(entered)),
        _ => None,
    }
}

// Behind a section or the last function: the section of a number, the counters, or the end.
fn next_part(item: &Item, n: u32) -> Option<State>
    ensures { (names : List (List ℕ)) → result ≡ states.next_part n (named names item.now) }
{
    match item {
        Item::SectionHead(m, _, nobits) => next_if(*m == n, State::Aligned(n, *nobits)),
        Item::CountsHead => Some(State::CountsGlobl),
        Item::Tail => Some(State::Done),
        _ => None,
    }
}

fn after_function(item: &Item, entered: bool) -> Option<State>
    ensures { (names : List (List ℕ)) → result ≡ states.next (is.Between entered) (named names item.now) }
{
    match item {
        Item::Comment(_) => Some(State::Head(entered)),
        _ => { if entered { next_part(item, 0) } else { None } }
    }
}

fn after_section_head(item: &Item, n: u32, nobits: bool) -> Option<State>
    ensures { (names : List (List ℕ)) → result ≡ states.next (is.Aligned n nobits) (named names item.now) }
{
    match item {
        Item::Align(_) => Some(State::Labelled(n, nobits)),
        _ => None,
    }
}

fn after_alignment(item: &Item, n: u32, nobits: bool) -> Option<State>
    ensures { (names : List (List ℕ)) → result ≡ states.next (is.Labelled n nobits) (named names item.now) }
{
    match item {
        Item::Label(Label::Section(m)) => {
            let state = if nobits {
                State::OneZero(n)
            } else {
                State::Contents(n)
            };
            next_if(*m == n, state)
        }
        _ => None,
    }
}

fn is_content(item: &Item) -> bool
    ensures { (names : List (List ℕ)) → result ≡ is_content (named names item.now) }
{
    match item {
        Item::Label(Label::Table(_)) => true,
        Item::Bytes(_) | Item::Quad(_) | Item::LongDiff(_, _) => true,
        _ => false,
    }
}

fn after_label_of_zeros(item: &Item, n: u32) -> Option<State>
    requires { n < 4294967295 }
    ensures { (names : List (List ℕ)) → result ≡ states.next (is.OneZero n) (named names item.now) }
{
    match item {
        Item::Zero(_) => Some(State::More(n + 1, false)),
        _ => None,
    }
}

fn after_label_of_data(item: &Item, n: u32) -> Option<State>
    requires { n < 4294967295 }
    ensures { (names : List (List ℕ)) → result ≡ states.next (is.Contents n) (named names item.now) }
{
    next_if(is_content(item), State::More(n + 1, true))
}

fn after_data(item: &Item, n: u32, more: bool) -> Option<State>
    ensures { (names : List (List ℕ)) → result ≡ states.next (is.More n more) (named names item.now) }
{
    if more && is_content(item) {
        return Some(State::More(n, true));
    }
    next_part(item, n)
}

fn after_counts_head(names: &Names, item: &Item) -> Option<State>
    requires { is_item (named names.now item.now) ≡ true }
    ensures { result ≡ states.next is.CountsGlobl (named names.now item.now) }
{
    match item {
        Item::Globl(id) => next_if(has_counts_name(names, *id), State::CountsAlign),
        _ => None,
    }
}

fn after_counts_global(item: &Item) -> Option<State>
    ensures { (names : List (List ℕ)) → result ≡ states.next is.CountsAlign (named names item.now) }
{
    match item {
        Item::Align(k) => next_if(*k == 3, State::CountsName),
        _ => None,
    }
}

fn after_counts_alignment(names: &Names, item: &Item) -> Option<State>
    requires { is_item (named names.now item.now) ≡ true }
    ensures { result ≡ states.next is.CountsName (named names.now item.now) }
{
    match item {
        Item::Name(id) => next_if(has_counts_name(names, *id), State::CountsZero),
        _ => None,
    }
}

fn after_counts_name(item: &Item) -> Option<State>
    ensures { (names : List (List ℕ)) → result ≡ states.next is.CountsZero (named names item.now) }
{
    match item {
        Item::Zero(size) => next_if(*size % 8 == 0, State::Last),
        _ => None,
    }
}

fn after_counts(item: &Item) -> Option<State>
    ensures { (names : List (List ℕ)) → result ≡ states.next is.Last (named names item.now) }
{
    match item {
        Item::Tail => Some(State::Done),
        _ => None,
    }
}

// The state behind a line, if the line may stand here.
pub(crate) fn next(names: &Names, item: &Item, state: State) -> Option<State>
    requires formed { is_item (named names.now item.now) ≡ true }
    requires few { states.section_of state < 4294967295 }
    ensures { result ≡ states.next state (named names.now item.now) }
{
    match state {
        State::Copies => after_copies(item),
        State::Weaks => after_weaks(item),
        State::Head(entered) => after_head(item, entered),
        State::Code(entered) => after_code(item, entered),
        State::Open(entered) => after_opening(names, item, entered),
        State::Kind(hosted) => after_global(names, item, hosted),
        State::Naming(hosted) => after_kind(names, item, hosted),
        State::Body(entered) => after_body_line(item, entered),
        State::Closing(entered) => after_last_label(item, entered),
        State::Between(entered) => after_function(item, entered),
        State::Aligned(n, nobits) => after_section_head(item, n, nobits),
        State::Labelled(n, nobits) => after_alignment(item, n, nobits),
        State::OneZero(n) => after_label_of_zeros(item, n),
        State::Contents(n) => after_label_of_data(item, n),
        State::More(n, more) => after_data(item, n, more),
        State::CountsGlobl => after_counts_head(names, item),
        State::CountsAlign => after_counts_global(item),
        State::CountsName => after_counts_alignment(names, item),
        State::CountsZero => after_counts_name(item),
        State::Last => after_counts(item),
        State::Done => None,
    }
}

fn is_done(state: State) -> bool
    ensures { result ≡ states.is_done state }
{
    match state {
        State::Done => true,
        _ => false,
    }
}

/// The first line at which another line has to stand.
pub(crate) fn first_misplaced(names: &Names, items: &[Item]) -> Option<usize>
    requires { IsText (record { names = names.now; items = items.now }) }
    ensures found { IfSome result (λ p. IsFirstAt (IsMisplaced (shown (record { names = names.now; items = items.now }))) p) }
    ensures none { result ≡ None → Nowhere (IsMisplaced (shown (record { names = names.now; items = items.now }))) }
{
    let mut state = State::Copies;
    for (i, item) in items.iter().enumerate() {
        match next(names, item, state) {
            Some(more) => state = more,
            None => return Some(i),
        }
    }
    if is_done(state) {
        None
    } else {
        Some(items.len())
    }
}
