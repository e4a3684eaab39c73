// A plain machine of sets of events, and that the clock's states refine it: each theorem is the contract of a function.
#![tactic(auto)]

ghost use Rattle.history.specs.Refines.{Refines};
ghost use Rattle.history.specs.Scenarios.{Scenarios};
ghost use Rattle.history.specs.Sanity.{PutIsHeld, PutStandsAlone, ExchangeAgrees, LastCounterRefused};

// It holds of values of any type, however they are written as bytes.
pub fn clock_refines_machine<V>()
    ensures { Refines V }
{}

// A put is listed right after it.
pub fn put_is_held<V>()
    ensures { PutIsHeld V }
{}

// A put that has seen all that its seat holds is listed alone.
pub fn put_stands_alone<V>()
    ensures { PutStandsAlone V }
{}

// Two seats that sent each other all that they know show the same.
pub fn exchange_agrees<V>()
    ensures { ExchangeAgrees V }
{}

// No put gets past the last counter.
pub fn last_counter_refused<V>()
    ensures { LastCounterRefused V }
{}

// Lists of calls, with the answers of a second program.
pub fn scenarios_agree()
    ensures { Scenarios }
{}
