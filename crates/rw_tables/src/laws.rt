//! Laws of the definitions.
ghost use Rattle.std.specs.Prelude.{◌≡◌, ◌<◌, ℕ, Bool, Contains, List, Some, None, true};
ghost use Rattle.std.specs.List.{AllPairs};
ghost use Rattle.rw_base.specs.Rules.{first};
ghost use Rattle.rw_funcs.specs.Points.{Point};
ghost use Rattle.rw_tables.specs.declared.table.Table.{Table};
ghost use Rattle.rw_tables.specs.Dispatch.{nearest, IsNearest, IsBelow};
ghost use Rattle.rw_tables.specs.Tables.{EndsBefore, all_lead, is_constant, table_rules, tables_of};

/// Of points that ascend, the nearest that passes a test is the one with the greatest address; where there is no nearest,
/// none passes.
pub fn nearest_is_the_greatest()
    ensures greatest { (test : Point → Bool) (ps : List Point) (p : Point) → AllPairs IsBelow ps → nearest test ps ≡ Some p → IsNearest test ps p }
    ensures none { (test : Point → Bool) (ps : List Point) (p : Point) → nearest test ps ≡ None → Contains ps p → test p ≡ true → ⊥ }
{}

/// Each table of a file in which the phase tables has no fault has a word, lies in constant data, and each of its words leads to a
/// point. The tables ascend without an overlap.
pub fn tables_are_good()
    ensures some { (bytes : List ℕ) (t : Table) → first (table_rules bytes) ≡ None → Contains (tables_of bytes) t → 0 < t.count }
    ensures constant { (bytes : List ℕ) (t : Table) → first (table_rules bytes) ≡ None → Contains (tables_of bytes) t → is_constant bytes t ≡ true }
    ensures leading { (bytes : List ℕ) (t : Table) → first (table_rules bytes) ≡ None → Contains (tables_of bytes) t → all_lead bytes t ≡ true }
    ensures apart { (bytes : List ℕ) → first (table_rules bytes) ≡ None → AllPairs EndsBefore (tables_of bytes) }
{}
