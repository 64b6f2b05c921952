// What the sheets tell of a tick (paper 02, S-5): the operator all of it, and a private tenant its own slots, and of each other whether
// it went to an indifferent client or to another private one. A tick gives what these functions take.
#![tactic(auto)]

ghost use Rattle.std.specs.Prelude.{◌≡◌, unwrap_or};
ghost use Rattle.definitions.specs.Sizes.{ids};
ghost use Rattle.definitions.specs.Notes.{note_of, holder, tenant_checks, tenant_seen};
ghost use Rattle.definitions.specs.Refusals.{number_in};
ghost use Rattle.tables.specs.declared.Tables.{Tables};
ghost use Rattle.tables.specs.Meaning.{core_of};
ghost use Rattle.tables.specs.Numbers.{refusal};
ghost use Rattle.notes.specs.ReasonLeft.{reason_left};

use definitions::{Answer, Drawing, Note, Outcome, Refusal};
use tables::Control;

// By which draw a slot went, if there was one: from the control after it and the sum of the rates in the draw, 0 where there was none.
// The sum is that of a tick's sample, which has 0 for no draw (`StandsFor`).
pub fn reason(control: Control, sum: u64) -> Option<Drawing>
    ensures { (t : Tables) → result ≡ reason_left sum (core_of control t) }
{
    if !control.opened {
        return None;
    }
    if sum == 0 {
        return None;
    }
    let generator = control.generator;
    Some(Drawing {
        target: draw::remainder(generator.value, sum),
        sum,
    })
}

// What the operator is told where a tick gave an answer for a reason.
#[tactic(auto, unfolding(definitions::specs::Notes::note_of, definitions::specs::Answers::number))]
pub fn operator(answer: Answer, reason: Option<Drawing>) -> Note
    ensures { result ≡ note_of answer reason }
{
    match answer {
        Answer::Accepted => Note::Refusal { number: 0 },
        Answer::Refused { number } => Note::Refusal { number },
        Answer::Slot { outcome } => Note::Told { outcome, reason },
    }
}

// Whose slot it was, if it was somebody's. The definition has a number for nobody, which no client has.
#[tactic(auto, unfolding(definitions::specs::Notes::holder))]
fn holder_of(answer: Answer) -> Option<u32>
    ensures { unwrap_or result ids ≡ holder answer }
{
    let Answer::Slot { outcome } = answer else {
        return None;
    };
    match outcome {
        Outcome::Real { id, .. } | Outcome::Dummy { id } | Outcome::Idle { id } => Some(id),
        Outcome::None => None,
    }
}

// What a tenant's sheet is refused for: 19, 4, 5, 11.
fn check_tenant(control: Control, id: u32) -> Result<(), Refusal>
    ensures { (t : Tables) → number_in result ≡ refusal control t (λ s. tenant_checks s id) }
{
    tables::check_active(control, id)?;
    if marks::has(control.indifferent, id) {
        return Err(Refusal::Indifferent);
    }
    Ok(())
}

// What a tenant is told where a tick gave an answer for a reason; the control is the one before the tick. Refused: 19, 4, 5, 11.
pub fn tenant(id: u32, control: Control, answer: Answer, reason: Option<Drawing>) -> Note
    ensures { (t : Tables) → result ≡ tenant_seen id (core_of control t) answer reason }
{
    if let Err(refusal) = check_tenant(control, id) {
        return Note::Refusal {
            number: refusal.number(),
        };
    }
    let whole = operator(answer, reason);
    let Some(holder) = holder_of(answer) else {
        return whole;
    };
    if holder == id {
        return whole;
    }
    if marks::has(control.indifferent, holder) {
        return Note::ToIndifferent;
    }
    if marks::has(control.private, holder) {
        return Note::ToAnother;
    }
    whole
}
