//! The findings of one connection, in several lists.

ghost use Rattle.std.specs.Prelude.{◌≡◌, ◌++◌, [], IfOk, OnOk};
ghost use Rattle.split_merge.specs.code.Findings.{findings_in};

use audit_terms::Finding;
use std::alloc::{AllocError, Global};

/// Findings in lists that follow each other: if there are many, each worker makes a list, and none is copied behind
/// another.
#[derive(Drop)]
pub struct Findings {
    pub lists: Vec<Vec<Finding>>,
}

impl Findings {
    /// No findings.
    pub fn none(alloc: Global) -> Findings
        ensures { findings_in result ≡ [] }
    {
        Findings {
            lists: Vec::new(alloc),
        }
    }

    /// The findings of one list.
    pub fn of(alloc: Global, list: Vec<Finding>) -> Result<Findings, AllocError>
        ensures { IfOk result (λ found. findings_in found ≡ list.items) }
    {
        let mut found = Findings::none(alloc);
        found.add(list)?;
        Ok(found)
    }

    /// Appends the findings of a list. An empty list takes no room.
    pub fn add(&mut self, list: Vec<Finding>) -> Result<(), AllocError>
        ensures { OnOk result (findings_in self.new ≡ findings_in self.old ++ list.items) }
    {
        if list.is_empty() {
            return Ok(());
        }
        // Most connections have one list; without this, there would be room for four.
        if self.lists.is_empty() {
            self.lists.reserve_exact(1)?;
        }
        self.lists.push(list)?;
        Ok(())
    }
}
