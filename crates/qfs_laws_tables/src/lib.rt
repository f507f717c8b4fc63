//! Laws of tables, of any row and key: the lemma files of specs/ say what placing, changing and
//! dropping rows leave of a table. Each function here does nothing, and its contract is a law.
#![tactic(auto)]

ghost use Rattle.std.specs.Prelude.{◌≡◌, ◌≤◌, ◌∷◌, ℕ, List, nat_eq, false, Some, None, find};
ghost use Rattle.std.specs.Cmp.{IsTotalOrder};
ghost use Rattle.std.specs.List.{IsDistinct};
ghost use Rattle.std.specs.declared.cmp.Ordering.{Ordering};
ghost use Rattle.qfs_base.specs.Table.{IsRising, place};
ghost use Rattle.qfs_laws_tables.specs.Distinct.{copies};

/// A row that is placed leaves a table in its order, without repeats.
pub fn placing_keeps_order<Row>()
    ensures { (order : Row → Row → Ordering) (new : Row) (rows : List Row) → IsTotalOrder order
        → IsRising order rows → IsRising order (place order new rows) }
{}

/// Numbers are distinct just where each counts at most once.
pub fn distinct_numbers_count_once()
    ensures once { (numbers : List ℕ) → IsDistinct nat_eq numbers → (n : ℕ) → copies n numbers ≤ 1 }
    ensures distinct { (numbers : List ℕ) → ((n : ℕ) → copies n numbers ≤ 1)
        → IsDistinct nat_eq numbers }
{}
