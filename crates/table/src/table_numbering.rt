ghost use Rattle.std.specs.Prelude.{◌≡◌, ◌*◌, ◌^◌, ◌<◌, true, length, IfOk, OnErr, OnOk, None};
ghost use Rattle.grid.specs.Answers.{refusal, OrMemory};
ghost use Rattle.grid.specs.Grids.{grid_refusal};
ghost use Rattle.diagram.specs.Diagrams.{entries as diagram_entries};
ghost use Rattle.diagram.specs.States.{states as diagram_states};
ghost use Rattle.table.specs.Checks.{accepted, check_refusal};
ghost use Rattle.table.specs.Diagram.{DiagramsPass, SameAsReckoned};
ghost use Rattle.table.specs.Installed.{Undoes, install_refusal, four_states};
ghost use Rattle.table.specs.Tables.{entry_at};

use crate::four::four_states;
use crate::place::Place;
use crate::table_view::TableView;
use diagram::{DiagramTable, Entry};
use grid::{Grid, Refusal, Step};
use machine::{JoinedMachine, Machine, cell_by, key_by, step_by};
use numbering::{Numbering, Unbroken};
use std::alloc::Global;

// The numbering by a table, at an order, followed from state 0. It always holds a table that the check accepts, and the digits of its n-points.
#[derive(Drop)]
pub struct TableNumbering {
    pub(crate) grid: Grid,
    pub(crate) states: u32,
    pub(crate) entries: Vec<Entry>,
    pub(crate) digits: Vec<u8>,
    ghost table: { accepted grid.axes states entries.items ≡ true },
    ghost long: { length digits.items ≡ states * 2 ^ grid.axes },
    ghost undone: { Undoes grid.axes states entries.items digits.items },
}

impl TableNumbering {
    ghost use Rattle.table.specs.TableNumbering.{Holds};

    // At first by the built-in table, at order 1. Only memory can fail, but the error is the one of all calls.
    pub fn new(heap: Global) -> Result<TableNumbering, Refusal>
        ensures refused { OrMemory None (refusal result) }
        ensures holds { IfOk result (λ x. Holds x 2 1 4 four_states) }
    {
        let entries = four_states();
        let table = TableView::new(2, 4, &entries).unwrap();
        TableNumbering::by_table(heap, &table, 1)
    }

    // The numbering by an accepted table, of which it makes a copy, at an order.
    fn by_table(heap: Global, table: &TableView<'_>, order: u32) -> Result<TableNumbering, Refusal>
        requires { check_refusal table.now.axes.count table.now.states table.now.entries.now ≡ None }
        ensures refused { OrMemory (grid_refusal table.now.axes.count order) (refusal result) }
        ensures holds { IfOk result (λ x. Holds x table.now.axes.count order table.now.states table.now.entries.now) }
    {
        let grid = Grid::new(table.axes.get(), order)?;
        let digits = table.undo(heap)?;
        let entries = Vec::from_slice(heap, table.entries)?;
        Ok(TableNumbering {
            grid,
            states: table.states,
            entries,
            digits,
        })
    }

    // Installs a copy of another table, at an order; refused, it keeps the former.
    pub fn install(
        &mut self,
        heap: Global,
        axes: u32,
        states: u32,
        entries: &[Entry],
        order: u32,
    ) -> Result<(), Refusal>
        ensures refused { OrMemory (install_refusal axes states entries.now order) (refusal result) }
        ensures installed { OnOk result (Holds self.new axes order states entries.now) }
        ensures kept { OnErr result (self.new ≡ self.old) }
    {
        let table = TableView::new(axes, states, entries)?;
        table.check()?;
        *self = TableNumbering::by_table(heap, &table, order)?;
        Ok(())
    }

    // Installs the diagram of that many axes, at an order; refused, it keeps the former table. Every diagram is accepted, and means what the reckoned numbering means.
    pub fn install_diagram(&mut self, heap: Global, axes: u32, order: u32) -> Result<(), Refusal>
        ensures refused { OrMemory (grid_refusal axes order) (refusal result) }
        ensures installed { OnOk result (Holds self.new axes order (length (diagram_states axes)) (diagram_entries axes)) }
        ensures kept { OnErr result (self.new ≡ self.old) }
        ensures pass { DiagramsPass }
        ensures same { SameAsReckoned }
    {
        let grid = Grid::new(axes, order)?;
        let diagram = DiagramTable::new(heap, grid.axis_count())?;
        // By `install`: what is held has passed the check, also where a theorem says that it does.
        self.install(
            heap,
            axes,
            diagram.states,
            diagram.entries.as_slice(),
            order,
        )
    }

    // How many states the table has.
    pub fn states(&self) -> u32
        ensures { result ≡ self.now.states }
    {
        self.states
    }

    // The table.
    pub fn entries(&self) -> &[Entry]
        ensures { result.now ≡ self.now.entries.items }
    {
        self.entries.as_slice()
    }

    // Not by a `TableView`, which answers for entries that the list has not: here the digit is known to be one of the table's.
    fn entry(&self, state: u32, digit: u32) -> Entry
        requires state { state < self.now.states }
        requires digit { digit < 2 ^ self.now.grid.axes }
        ensures { result ≡ entry_at self.now.grid.axes self.now.entries.items state digit }
    {
        let place = Place { state, digit };
        self.entries[place.index(self.grid.axis_count())]
    }
}

impl Machine for TableNumbering {
    ghost use Rattle.grid.proofs.Limited.{limited};
    ghost use Rattle.table.specs.Followed.{table_exact, first_state};
    ghost use Rattle.table.specs.Held.{held};
    ghost use Rattle.table.specs.Tables.{table_machine};

    type State = u32;

    ghost model = { λ x. table_machine x.grid.axes x.states x.entries.items };

    ghost begin = { λ _. 0 };

    ghost depth = { λ x. x.grid.order };

    ghost exact = { λ x. table_exact _ _ _ (held x) };

    ghost begins = { λ x. first_state _ _ _ (held x) };

    ghost limits = { λ x. limited x.grid.limits };

    fn grid(&self) -> Grid {
        self.grid
    }

    fn first(&self) -> u32 {
        0
    }

    fn point(&self, state: u32, digit: u32) -> u32 {
        u32::from(self.entry(state, digit).point)
    }

    // No search: the digits stand by their n-points.
    fn digit(&self, state: u32, point: u32) -> u32 {
        let place = Place {
            state,
            digit: point,
        };
        u32::from(self.digits[place.index(self.grid.axis_count())])
    }

    fn next(&self, state: u32, digit: u32) -> u32 {
        u32::from(self.entry(state, digit).next)
    }
}

impl JoinedMachine for TableNumbering {
    ghost use Rattle.table.specs.Followed.{table_rules};
    ghost use Rattle.table.specs.Held.{held};

    ghost rules = { λ x. table_rules _ _ _ (held x) };
}

// Its calls stand here as they do for a `Curve`. Tried: one impl for every machine is refused, since the trait is another
// crate's; a struct round every machine would hand on each call of this type.
impl Numbering for TableNumbering {
    ghost use Rattle.machine.specs.Means.{means};
    ghost use Rattle.table.specs.Held.{held_lawful};
    ghost use Rattle.table.specs.Tables.{table_machine};

    ghost meaning = { λ x. means (table_machine x.grid.axes x.states x.entries.items) x.grid.order 0 };

    ghost limits = { λ x. (held_lawful x).limits };

    ghost onekey = { λ x. (held_lawful x).one_key };

    ghost nesting = { λ x. (held_lawful x).nesting };

    fn grid(&self) -> Grid {
        Machine::grid(self)
    }

    fn cell_of(&self, key: u64, cell: &mut [u32]) -> Result<(), Refusal> {
        cell_by(self, key, cell)
    }

    fn key_of(&self, cell: &[u32]) -> Result<u64, Refusal> {
        key_by(self, cell)
    }
}

impl Unbroken for TableNumbering {
    ghost use Rattle.table.specs.Held.{held_unbroken};

    ghost joined = { λ x. held_unbroken x };

    fn step(&self, key: u64) -> Result<Step, Refusal> {
        step_by(self, key)
    }
}
