// Where a core begins: unopened, and opened with empty tables.
#![tactic(auto)]

ghost use Rattle.std.specs.Prelude.{◌≡◌};
ghost use Rattle.definitions.specs.Event.{Open};
ghost use Rattle.definitions.specs.State.{unopened};
ghost use Rattle.definitions.specs.Checks.{open_checks};
ghost use Rattle.definitions.specs.Refusals.{number_in};
ghost use Rattle.tables.specs.declared.Tables.{Tables};
ghost use Rattle.tables.specs.Meaning.{core_of};
ghost use Rattle.tables.specs.Invariant.{Valid};
ghost use Rattle.tables.specs.Numbers.{first_failed};
ghost use Rattle.tables.specs.Places.{Promised};

use counts::COUNTS;
use definitions::{Refusal, SHARES, WEIGHTED_DRAW};
use generator::Generator;
use order::{END, LINKS};
use tables::{Answered, Control, STOCKS, STORE, TERMS, Tables};

// The control of a core before any open, whatever its tables hold.
pub fn unopened() -> Control
    ensures { (t : Tables) → (core_of result t ≡ unopened) × Valid result t }
{
    control_of(false, 0, 0, 0)
}

// A control without clients.
fn control_of(opened: bool, threshold: u32, discipline: u32, seed: u32) -> Control
    ensures { result ≡ record {
      opened = opened;
      threshold = threshold;
      discipline = discipline;
      generator = record { value = seed };
      rates = 0;
      indifferent = 0;
      private = 0;
      waiting = 0;
    } }
{
    Control {
        opened,
        threshold,
        discipline,
        generator: Generator::new(seed),
        rates: 0,
        indifferent: 0,
        private: 0,
        waiting: 0,
    }
}

// What an open is refused for: 1, 2, 3.
fn check_open(threshold: u32, discipline: u32, seed: u32) -> Result<(), Refusal>
    ensures { number_in result ≡ first_failed (open_checks threshold discipline seed) }
{
    if !(1..=SHARES).contains(&threshold) {
        return Err(Refusal::Threshold);
    }
    if WEIGHTED_DRAW < discipline {
        return Err(Refusal::Discipline);
    }
    if seed == 0 {
        return Err(Refusal::Seed);
    }
    Ok(())
}

// Gives a core without clients, in place of any earlier one (paper 01, "Open"). Refused: 1, 2, 3.
pub fn open(
    control: Control,
    tables: &mut Tables,
    threshold: u32,
    discipline: u32,
    seed: u32,
) -> Answered
    requires { Valid control tables.old }
    ensures { Promised (Open threshold discipline seed) control tables.old result tables.new }
{
    if let Err(refusal) = check_open(threshold, discipline, seed) {
        return tables::refused(control, refusal.number());
    }
    tables.terms = [0; TERMS];
    tables.stocks = [0; STOCKS];
    tables.handles = [0; STORE];
    tables.lengths = [0; STORE];
    tables.links = [END; LINKS];
    tables.counts = [0; COUNTS];
    tables::accepted(control_of(true, threshold, discipline, seed))
}
