//! Laws of the definitions: what holds of the functions of each file in which no rule up to instructions finds a fault.

ghost use Rattle.std.specs.Prelude.{◌≡◌, ◌<◌, All, List, ℕ, Contains, None, length, true};
ghost use Rattle.std.specs.List.{AllPairs};
ghost use Rattle.rw_base.specs.Rules.{first};
ghost use Rattle.rw_elf.specs.declared.symbol.Symbol.{Symbol};
ghost use Rattle.rw_elf.specs.Tables.{code_sections, elf_rules};
ghost use Rattle.rw_funcs.specs.Filled.{Fills};
ghost use Rattle.rw_funcs.specs.Found.{FollowsOn, found_rules};
ghost use Rattle.rw_funcs.specs.Functions.{code_of_symbol, entry_function, entry_of, functions_of, is_inside, its_section, kept_functions};
ghost use Rattle.rw_funcs.specs.Points.{Point, points_of};

/// The points of a function follow one another from its start to its end, and each is spelled by its bytes. There is no
/// other such list.
pub fn points_fill_functions()
    ensures size { (bytes : List ℕ) (f : Symbol) → first (elf_rules bytes) ≡ None → first (found_rules bytes) ≡ None → Contains (kept_functions bytes) f → length (code_of_symbol bytes f) ≡ f.size }
    ensures filled { (bytes : List ℕ) (f : Symbol) → first (found_rules bytes) ≡ None → Contains (kept_functions bytes) f → Fills (points_of bytes f) f.value (code_of_symbol bytes f) }
    ensures one { (bytes : List ℕ) (f : Symbol) (ps : List Point) → Fills ps f.value (code_of_symbol bytes f) → ps ≡ points_of bytes f }
{}

/// The functions ascend, none overlaps another, and each has an address. Each lies in the code section that its symbol
/// names. The file starts at the start of one of them.
pub fn functions_lie_apart()
    ensures apart { (bytes : List ℕ) → first (found_rules bytes) ≡ None → AllPairs FollowsOn (functions_of bytes) }
    ensures some { (bytes : List ℕ) → first (found_rules bytes) ≡ None → All (λ f. f.span.start < f.span.end) (functions_of bytes) }
    ensures code { (bytes : List ℕ) (f : Symbol) → first (found_rules bytes) ≡ None → Contains (kept_functions bytes) f → Contains (code_sections bytes) (its_section bytes f) }
    ensures inside { (bytes : List ℕ) (f : Symbol) → first (found_rules bytes) ≡ None → Contains (kept_functions bytes) f → is_inside f (its_section bytes f) ≡ true }
    ensures entered { (bytes : List ℕ) → first (found_rules bytes) ≡ None → Contains (kept_functions bytes) (entry_function bytes) }
    ensures entry { (bytes : List ℕ) → first (found_rules bytes) ≡ None → (entry_function bytes).value ≡ entry_of bytes }
{}
