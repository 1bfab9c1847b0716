//! What a gate holds.
ghost use Rattle.std.specs.Prelude.{◌≡◌, ◌<◌, ◌^◌, List, ℕ, length, Option};
ghost use Rattle.turn_gate.specs.declared.view.Account.{Account};

/// What a gate holds: a list of entries that only grows, with a device under it that may fail.
pub trait Machine {
    type Entry;

    /// Plain data from which the list goes on: what the machine stood for as the gate was made.
    type Opening;

    /// Its list of entries, the entry that is pending or none, and its device's count of faults.
    ghost account: { Self → Account Self.Entry };

    /// The part number that an entry tells, or none.
    ghost tells: { Self.Entry → Option ℕ };

    /// The numbers that no call changes.
    ghost fixed: { Self → List ℕ };

    /// It stands for its list and its pending entry from this opening.
    ghost stands: { Self → Self.Opening → Type 0 };

    /// The opening of a gate that is made with it.
    ghost opening: { Self → Self.Opening };

    /// The status code after these entries.
    ghost code_after: { Self.Opening → List Self.Entry → ℕ };

    /// The length of the list.
    fn count(&self) -> u64
        ensures { result ≡ length (account self.now).entries };

    /// The status code after the list, below 16.
    fn code(&self) -> u8
        ensures { (o : Self.Opening) → stands self.now o
            → result ≡ code_after o (account self.now).entries };

    /// How often its device has failed. It never falls.
    fn faults(&self) -> u64
        ensures { result ≡ (account self.now).faults };

    ghost code_fits: { (o : Self.Opening) (entries : List Self.Entry) → code_after o entries < 16 };

    /// The list lies in memory.
    ghost list_fits: { (m : Self) → length (account m).entries < 2 ^ 59 };
}
