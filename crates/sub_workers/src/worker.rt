//! A worker: a subordinate, its driver and what this has found.
ghost use Rattle.std.specs.Prelude.{◌≡◌, IfOk, None, OnErr, Some};
ghost use Rattle.sub_core.specs.Calls.{bytes_of, AreThere};
ghost use Rattle.sub_core.specs.Driving.{next_no};
ghost use Rattle.sub_core.specs.Numbers.{IsNotBelow};
ghost use Rattle.sub_workers.specs.Runs.{IsReady};

use package_reader::Packages;
use std::alloc::AllocError;
use sub_core::{Driver, Finding, Rises, Subordinate};

/// Runs the driver of one subordinate. It borrows the packages, which all workers share.
#[derive(Drop)]
pub struct Worker<'a, U> {
    pub subordinate: U,
    pub driver: Driver,
    pub packages: &'a Packages,
    /// What the last round gave; before the first one, as after want of memory, nothing.
    pub found: Option<Finding>,
}

impl<'a, U: Subordinate> Worker<'a, U> {
    /// A worker that has done nothing yet. The packages of the driver's steps are among these, and its number isn't
    /// below the last one that was sent to the subordinate.
    pub fn new(driver: Driver, subordinate: U, packages: &'a Packages) -> Worker<'a, U>
        requires ready { U.ready subordinate }
        requires packages { AreThere (bytes_of packages.now) driver.steps }
        requires number { IsNotBelow (U.last subordinate) (next_no driver) }
        ensures subordinate { result.subordinate ≡ subordinate }
        ensures driver { result.driver ≡ driver }
        ensures packages { result.packages.now ≡ packages.now }
        ensures found { result.found ≡ None }
        ensures ready { IsReady U.ready U.last result }
    {
        Worker {
            subordinate,
            driver,
            packages,
            found: None,
        }
    }
}

impl<'a, U: Drop> Worker<'a, U> {
    /// What its last round gave.
    pub fn finding(&self) -> Result<Finding, AllocError>
        ensures found { IfOk result (λ finding. self.now.found ≡ Some finding) }
        ensures none { OnErr result (self.now.found ≡ None) }
    {
        self.found.ok_or(AllocError)
    }

    /// The failed attempts in a row at what its driver asks: eight where this rests with Unreached.
    pub fn series(&self) -> &[Rises]
        ensures { result.now ≡ self.now.driver.misses }
    {
        self.driver.series()
    }

    /// The subordinate back. It takes no memory.
    pub fn into_subordinate(self) -> U
        ensures { result ≡ self.entry.subordinate }
    {
        self.subordinate
    }
}
