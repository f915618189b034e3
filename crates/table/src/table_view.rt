ghost use Rattle.std.specs.Prelude.{◌≡◌, ◌*◌, ◌^◌, ◌<◌, ◌≤◌, length, IfErr, IfOk, None, Some};
ghost use Rattle.grid.specs.Answers.{refusal};
ghost use Rattle.table.specs.Checks.{check_refusal};
ghost use Rattle.table.specs.Installed.{Undone};
ghost use Rattle.table.specs.Offenders.{point_repeated, offends as breaks, first_offender};
ghost use Rattle.table.specs.Rules.{IsTable};
ghost use Rattle.table.specs.Tables.{entry_at};

use crate::place::Place;
use crate::rule::Rule;
use diagram::Entry;
use grid::{AxisCount, Refusal};
use std::alloc::{AllocError, Global};

// What is read where the list has no entry.
const NO_ENTRY: Entry = Entry { point: 0, next: 0 };

// A list in the form of a table: as many entries as the states have digits. Whether it keeps the rules is not said.
#[derive(Clone, Copy)]
pub(crate) struct TableView<'a> {
    pub(crate) axes: AxisCount,
    pub(crate) states: u32,
    pub(crate) entries: &'a [Entry],
    ghost least: { 1 ≤ states },
    ghost most: { states ≤ 4096 },
    ghost long: { length entries.now ≡ states * 2 ^ axes.count },
}

impl<'a> TableView<'a> {
    // The form is tried in this order: the axes, the states, the length.
    pub(crate) fn new(axes: u32, states: u32, entries: &'a [Entry]) -> Result<Self, Refusal>
        ensures refused { IfErr result (λ e. check_refusal axes states entries.now ≡ Some e) }
        ensures axes { IfOk result (λ t. t.axes.count ≡ axes) }
        ensures states { IfOk result (λ t. t.states ≡ states) }
        ensures entries { IfOk result (λ t. t.entries.now ≡ entries.now) }
    {
        let count = AxisCount::try_from(axes)?;
        if states < 1 || states > 4096 {
            return Err(Refusal::States { states });
        }
        if entries.len() != states as usize * count.points() as usize {
            return Err(Refusal::Entries {
                length: entries.len(),
            });
        }
        Ok(TableView {
            axes: count,
            states,
            entries,
        })
    }

    // Whether it keeps the five rules, each tried over the whole of it before the next.
    pub(crate) fn check(&self) -> Result<(), Refusal>
        ensures { refusal result ≡ check_refusal self.now.axes.count self.now.states self.now.entries.now }
    {
        for rule in Rule::ALL {
            if let Some(place) = self.first_offence(rule) {
                return Err(rule.refusal(place));
            }
        }
        Ok(())
    }

    // The first entry that breaks a rule, by state and then by digit. The n-points seen in a row are marked, so that no row is read again for them.
    fn first_offence(&self, rule: Rule) -> Option<Place>
        ensures { result ≡ first_offender rule self.now.axes.count self.now.states self.now.entries.now }
    {
        let mut found = None;
        // Nested loops left by a label: so the project wants this search written.
        'states: for (state, row) in self.entries.chunks(self.axes.points() as usize).enumerate() {
            let mut seen = [false; 256];
            for (digit, entry) in row.iter().enumerate() {
                let place = Place {
                    state: state as u32,
                    digit: digit as u32,
                };
                let point = usize::from(entry.point);
                if self.offends(rule, place, seen[point]) {
                    found = Some(place);
                    break 'states;
                }
                seen[point] = true;
            }
        }
        found
    }

    // Whether the entry at a place breaks a rule. Whether its n-point stands earlier in the row is told by a flag, since the
    // search has marked it: to look it up here would read the row again.
    fn offends(&self, rule: Rule, place: Place, repeated: bool) -> bool
        requires digit { place.digit < 2 ^ self.now.axes.count }
        requires repeated { repeated ≡ point_repeated self.now.axes.count self.now.entries.now place.state place.digit }
        ensures { result ≡ breaks rule self.now.axes.count self.now.states self.now.entries.now place.state place.digit }
    {
        let Place { state, digit } = place;
        let here = self.entry(state, digit);
        let last = self.axes.points() - 1;
        // By the rule, as the definition goes: a closure for each would say the same five tests, further from it.
        match rule {
            Rule::Points => u32::from(here.point) > last || repeated,
            Rule::NextStates => u32::from(here.next) >= self.states,
            Rule::Neighbours => {
                let after = self.entry(state, digit + 1);
                digit < last && (here.point ^ after.point).count_ones() != 1
            }
            Rule::Corners => {
                let there = self.entry(u32::from(here.next), digit);
                (digit == 0 || digit == last) && there.point != here.point
            }
            Rule::Blocks => {
                let after = self.entry(state, digit + 1);
                let leaving = self.entry(u32::from(here.next), last).point;
                let entering = self.entry(u32::from(after.next), 0).point;
                let changed = here.point ^ after.point;
                let crossing = leaving ^ entering == changed;
                let outward = (leaving ^ here.point) & changed == changed;
                digit < last && !(crossing && outward)
            }
        }
    }

    // The entry of a digit in a state. A next state may be none of the table's: its entries are all zeros.
    fn entry(&self, state: u32, digit: u32) -> Entry
        ensures { result ≡ entry_at self.now.axes.count self.now.entries.now state digit }
    {
        let place = Place { state, digit };
        self.entries
            .get(place.index(self.axes))
            .copied()
            .unwrap_or(NO_ENTRY)
    }

    // The digit of each n-point in each state: the table read backwards, so that no row is searched.
    pub(crate) fn undo(&self, heap: Global) -> Result<Vec<u8>, AllocError>
        requires { IsTable self.now.axes.count self.now.states self.now.entries.now }
        ensures { IfOk result (λ v. Undone self.now.axes.count self.now.states self.now.entries.now v.items) }
    {
        // Read once, and not again after each byte that is written.
        let axes = self.axes;
        let mut digits = vec![in heap; 0; self.entries.len()]?;
        for (state, row) in self.entries.chunks(axes.points() as usize).enumerate() {
            for (digit, entry) in row.iter().enumerate() {
                let place = Place {
                    state: state as u32,
                    digit: u32::from(entry.point),
                };
                digits[place.index(axes)] = digit as u8;
            }
        }
        Ok(digits)
    }
}
