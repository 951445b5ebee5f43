//! Marks of the ways that were met.

ghost use Rattle.std.specs.Prelude.{◌≡◌, ◌+◌, ◌<◌, ◌≤◌, ◌↔◌, ℕ, true, false, length, IfOk, IsTrue, slice_set, slice_index_or};
ghost use Rattle.csn_sample.specs.Covering.{IsMarked, HasMarks, Sets, marks_at};

use crate::covering::Way;
use crate::way_numbers::ways;
use csn_bits::NoMemory;
use csn_certify::{Plan, Steps};
use std::alloc::Global;
use std::marker::Model;
use std::sync::ledger::Ledger;

/// Marks of the ways of one node.
#[derive(Drop)]
pub(crate) struct MarkRow {
    marks: Vec<bool>,
}

impl Model for MarkRow {
    ghost use Rattle.std.specs.Prelude.{List, Bool};

    ghost Value = { List Bool };

    ghost view = { λ r. r.marks.items };
}

/// Marks of the ways of all nodes. A contract sees a list for each.
#[derive(Drop)]
pub(crate) struct WayMarks {
    rows: Vec<MarkRow>,
}

impl Model for WayMarks {
    ghost use Rattle.std.specs.Prelude.{List, Bool};

    ghost Value = { List (List Bool) };

    ghost view = { λ m. m.rows.items };
}

impl MarkRow {
    /// No mark is set of so many.
    fn new(alloc: Global, count: u16) -> Result<MarkRow, NoMemory>
        ensures many { IfOk result (λ row. length row ≡ count) }
        ensures none { IfOk result (λ row. (way : ℕ) → ¬ (slice_index_or row way false ≡ true)) }
    {
        Ok(MarkRow {
            marks: vec![in alloc; false; usize::from(count)]?,
        })
    }

    /// Whether a mark is set.
    fn has(&self, way: u16) -> bool
        ensures { IsTrue result ↔ (slice_index_or self.now way false ≡ true) }
    {
        let way = usize::from(way);
        way < self.marks.len() && self.marks[way]
    }

    /// Sets a mark.
    fn set(&mut self, way: u16)
        requires { way < length self.old }
        ensures { self.new ≡ slice_set self.old way true }
    {
        self.marks[usize::from(way)] = true;
    }
}

impl WayMarks {
    /// No mark is set. There is one for each way of each node.
    pub fn new<L: Ledger>(
        alloc: Global,
        plan: &Plan,
        steps: &mut Steps<L>,
    ) -> Result<WayMarks, NoMemory>
        ensures many { IfOk result (HasMarks plan.now) }
        ensures none { IfOk result (λ marks. (i way : ℕ) → ¬ IsMarked marks i way) }
        ensures steps { steps.new ≤ steps.old + length plan.now.nodes }
    {
        let mut rows = Vec::new(alloc);
        for i in 0..plan.len() {
            let count = ways(plan.node(i, steps));
            let row = MarkRow::new(alloc, count)?;
            rows.push(row)?;
        }
        Ok(WayMarks { rows })
    }

    /// Whether a mark is set.
    pub fn has(&self, i: u16, way: u16) -> bool
        ensures { IsTrue result ↔ IsMarked self.now i way }
    {
        let i = usize::from(i);
        i < self.rows.len() && self.rows[i].has(way)
    }

    /// Sets a mark, and tells it if it is new.
    pub fn set(&mut self, i: u16, way: u16) -> Option<Way>
        requires { way < marks_at self.old i }
        ensures { Sets self.old self.new (λ j w. (j ≡ i) × (w ≡ way)) result }
    {
        if self.has(i, way) {
            return None;
        }
        self.rows[usize::from(i)].set(way);
        Some(Way {
            node: i,
            number: way,
        })
    }
}
