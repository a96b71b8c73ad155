// The state of a row under a half-made setting.
ghost use Rattle.std.specs.Prelude.{◌≡◌, length};
ghost use Rattle.table.specs.RowParts.{meant};
ghost use Rattle.meaning.specs.WholeRows.{RowNamed};
ghost use Rattle.meaning.specs.States.{row_state};

use crate::literals::clause_state;
use crate::state::State;
use crate::terms::linear_state;
use table::rows::Row;

// The state of a row.
#[tactic(auto, unfolding(crate::specs::WholeRows::RowNamed, crate::specs::States::row_state, table::specs::RowParts::meant))]
pub fn row_state(row: Row<'_>, values: &[Option<bool>]) -> State
    requires { RowNamed (length values.now) (meant row) }
    ensures { result ≡ row_state values.now (meant row.entry) }
{
    match row {
        Row::Clause { literals, .. } => clause_state(literals, values),
        Row::Linear { bound, terms, .. } => linear_state(terms, bound, values),
    }
}
