//! Laws of the table. Each function takes and does nothing; its contract is the law.
ghost use Rattle.std.specs.Prelude.{◌≡◌, true, All};
ghost use Rattle.generic_table.specs.Safe.{IsSafe, names_rise};
ghost use Rattle.generic_table.specs.Table.{operations};

/// No pure operation ends its block, is a symbol or has a region.
pub fn pure_operations_are_safe()
    ensures { All (λ operation. IsSafe operation.1) operations }
{}

/// Each name stands once, and above the one before.
pub fn names_rise()
    ensures { names_rise operations ≡ true }
{}
