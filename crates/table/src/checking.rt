ghost use Rattle.std.specs.Prelude.{◌≡◌, None, OnOk};
ghost use Rattle.grid.specs.Answers.{refusal};
ghost use Rattle.table.specs.Checks.{check_refusal, Numbers};
ghost use Rattle.table.specs.Rules.{IsTable};

use crate::table_view::TableView;
use diagram::Entry;
use grid::Refusal;

// Whether a list is a table of that many axes and states. It accepts exactly the lists that keep the five rules, and each is then a numbering.
pub fn check(axes: u32, states: u32, entries: &[Entry]) -> Result<(), Refusal>
    ensures refused { refusal result ≡ check_refusal axes states entries.now }
    ensures table { OnOk result (IsTable axes states entries.now) }
    ensures accepts { IsTable axes states entries.now → refusal result ≡ None }
    ensures numbers { OnOk result (Numbers axes states entries.now) }
{
    TableView::new(axes, states, entries)?.check()
}
