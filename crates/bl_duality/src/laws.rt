//! What closing dictionaries prove. Each function does nothing: its contract is the law.
ghost use Rattle.bl_duality.specs.Laws.{ClosingRowProves, ClosingCostProves};

/// Where steps lead to a dictionary that a row closes, the multipliers of that row prove that the box has no point
/// that meets the rows.
pub fn closing_row_proves()
    ensures { ClosingRowProves }
{}

/// Where steps lead to a dictionary that the cost row closes, the multipliers of the cost row prove the cutoff.
pub fn closing_cost_proves()
    ensures { ClosingCostProves }
{}
