ghost use Rattle.std.specs.Prelude.{◌≡◌, length, None};
ghost use Rattle.diagram.specs.Diagrams.{entries as diagram_entries};
ghost use Rattle.diagram.specs.States.{states as diagram_states};
ghost use Rattle.table.specs.Checks.{check_refusal};
ghost use Rattle.table.specs.Installed.{four_states};

use diagram::Entry;

// The built-in table, four entries for each state.
pub const FOUR_STATES: [Entry; 16] = [
    Entry { point: 0, next: 1 },
    Entry { point: 1, next: 0 },
    Entry { point: 3, next: 0 },
    Entry { point: 2, next: 2 },
    Entry { point: 0, next: 0 },
    Entry { point: 2, next: 1 },
    Entry { point: 3, next: 1 },
    Entry { point: 1, next: 3 },
    Entry { point: 3, next: 3 },
    Entry { point: 1, next: 2 },
    Entry { point: 0, next: 2 },
    Entry { point: 2, next: 0 },
    Entry { point: 3, next: 2 },
    Entry { point: 2, next: 3 },
    Entry { point: 0, next: 3 },
    Entry { point: 1, next: 1 },
];

// The built-in table, of two axes and four states: the check accepts it, and it is the diagram of two axes.
pub fn four_states() -> [Entry; 16]
    ensures table { result ≡ four_states }
    ensures accepted { check_refusal 2 4 result ≡ None }
    ensures diagram { (result ≡ diagram_entries 2) × (length (diagram_states 2) ≡ 4) }
{
    FOUR_STATES
}
