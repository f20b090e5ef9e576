//! The checks of an image's words, by their form.

ghost use Rattle.std.specs.Prelude.{◌≡◌, ◌↔◌, ℕ, List, length, IsTrue, IfOk};
ghost use Rattle.std.specs.Option.{ForNone, ForSome};
ghost use Rattle.fram_words.specs.Steps.{place_of};
ghost use Rattle.ink_layout.specs.Shape.{IsOnBoard};
ghost use Rattle.ink_image.specs.Form.{memory_in, HasWords, IsImageIn, FailsFirst, IsWornIn, IsToday};

use crate::form::Form;
use fram_words::Place;
use image_checks::first_failing as first_failing_today;
use image_state::is_worn as is_worn_today;
use ink_base::NoMemory;
use ink_layout::Plan;
use old_image::{first_failing_old, is_worn_old, renew};
use std::alloc::Global;

/// The place that is named by the first check of an image that fails; none where the words are an image.
pub fn first_failing(form: Form, plan: &Plan, words: &[u64]) -> Option<Place>
    requires { HasWords plan.now.accepted words.now }
    ensures none { ForNone result (IsImageIn form plan.now.accepted (memory_in plan.now.accepted words.now)) }
    ensures first { ForSome result (λ place. FailsFirst form plan.now.accepted (memory_in plan.now.accepted words.now) (place_of place)) }
    ensures there { ForSome result (λ place. IsOnBoard plan.now.accepted (place_of place)) }
{
    match form {
        Form::Earlier => first_failing_old(plan, words),
        Form::Today => first_failing_today(plan, words),
    }
}

/// Whether an image is worn, with so many readings listed for each source.
pub fn is_worn(form: Form, plan: &Plan, listed: &[u32], words: &[u64]) -> bool
    requires count { HasWords plan.now.accepted words.now }
    requires listed { length listed.now ≡ length plan.now.accepted.sources }
    ensures { IsTrue result ↔ IsWornIn form plan.now.accepted listed.now (memory_in plan.now.accepted words.now) }
{
    match form {
        Form::Earlier => is_worn_old(plan, listed, words),
        Form::Today => is_worn_today(plan, listed, words),
    }
}

/// The words of an image that isn't worn, in today's form.
pub fn today(alloc: Global, form: Form, plan: &Plan, words: Vec<u64>) -> Result<Vec<u64>, NoMemory>
    requires count { HasWords plan.now.accepted words.items }
    requires image { IsImageIn form plan.now.accepted (memory_in plan.now.accepted words.items) }
    requires fresh { (listed : List ℕ) × ¬ IsWornIn form plan.now.accepted listed (memory_in plan.now.accepted words.items) }
    ensures { IfOk result (λ new. IsToday form plan.now.accepted words.items new.items) }
{
    match form {
        Form::Earlier => renew(alloc, plan, words.as_slice()),
        Form::Today => Ok(words),
    }
}
