ghost use Rattle.std.specs.Prelude.{◌≡◌, IsPermutation, if◌then◌else◌};
ghost use Rattle.std.specs.Bool.{OnTrue, OnFalse};
ghost use Rattle.bsp_edge.specs.Calls.{FailsNext, passed_call, failed_call};
ghost use Rattle.bsp_edge.specs.Faults.{counted, Rose};

use std::marker::Model;

/// Counts the calls of an object in memory, and knows which of them were told to fail.
#[derive(Drop)]
pub(crate) struct FailingCalls {
    failing: Vec<u64>,
    made: u64,
    faults: u64,
}

impl Model for FailingCalls {
    ghost use Rattle.std.specs.List.Sorted.{IsNonDecreasing};
    ghost use Rattle.bsp_edge.specs.Calls.{Calls};

    ghost Value = { Calls };

    ghost view = { λ calls. record { failing = calls.failing.items; made = calls.made; faults = calls.faults } };

    ghost invariant = { λ calls. IsNonDecreasing calls.failing.items };
}

impl FailingCalls {
    /// The calls with these ordinals fail, counted from 1.
    pub(crate) fn new(mut failing: Vec<u64>) -> FailingCalls
        ensures failing { IsPermutation failing.items result.failing }
        ensures made { result.made ≡ 0 }
        ensures faults { result.faults ≡ 0 }
    {
        failing.sort_unstable();
        FailingCalls {
            failing,
            made: 0,
            faults: 0,
        }
    }

    /// The ordinal of the next call.
    pub(crate) fn next_call(&self) -> u64
        ensures { result ≡ counted self.now.made }
    {
        self.made.saturating_add(1)
    }

    /// Is the next call one of those that fail?
    pub(crate) fn fails_next(&self) -> bool
        ensures fails { OnTrue result (FailsNext self.now) }
        ensures passes { OnFalse result (¬ FailsNext self.now) }
    {
        self.failing.binary_search(&self.next_call()).is_ok()
    }

    /// Counts a call. Is it one of those that fail? Then its fault is counted too.
    pub(crate) fn next_fails(&mut self) -> bool
        ensures fails { OnTrue result (FailsNext self.old) }
        ensures passes { OnFalse result (¬ FailsNext self.old) }
        ensures counted { self.new ≡ (if result then failed_call self.old else passed_call self.old) }
        ensures rose { OnTrue result (Rose self.old.faults self.new.faults) }
    {
        let fails = self.fails_next();
        if fails {
            self.fail();
        } else {
            self.pass();
        }
        fails
    }

    /// Counts a call that passes.
    pub(crate) fn pass(&mut self)
        ensures { self.new ≡ passed_call self.old }
    {
        self.made = self.next_call();
    }

    /// Counts a call that fails, and its fault.
    pub(crate) fn fail(&mut self)
        ensures counted { self.new ≡ failed_call self.old }
        ensures rose { Rose self.old.faults self.new.faults }
    {
        self.pass();
        self.count_fault();
    }

    /// Counts a fault of a call that was counted already.
    pub(crate) fn count_fault(&mut self)
        ensures counted { self.new ≡ record self.old { faults = counted self.old.faults } }
        ensures rose { Rose self.old.faults self.new.faults }
    {
        self.faults = self.faults.saturating_add(1);
    }
}
