//! What a save file is judged to be is so, and what was saved of any machine is gone on from.
//!
//! `save_text` judges what a save file says by looking for one cause after another. Here each judgement is a relation of the program
//! and the saved point: the two nodes that are cut off, the first owner that is one too many, the first record without a step, the
//! first node that read what it wasn't given; and where none of these is there, the point is one from which a machine of the program
//! may go on. Then the circle closes: the text of what is saved after any run is read back and judged to be good, so that `resume`
//! goes on from whatever `save` wrote, unless two nodes are cut off, for which it is refused; and it is no longer than a save file may
//! be. No code stands here.
#![tactic(auto)]

ghost use Rattle.std.specs.Prelude.{◌≡◌, ℕ, ◌+◌, ◌≤◌, ◌↔◌, List, Some, None, Ok, Err, length};
ghost use Rattle.std.specs.List.{All};
ghost use Rattle.sn_base.specs.Image.{ImageData};
ghost use Rattle.sn_base.specs.declared.config.Config.{Config};
ghost use Rattle.sn_base.specs.declared.event.Event.{Event};
ghost use Rattle.route_plan.specs.Routes.{first_cut_off};
ghost use Rattle.rv_core.specs.Flat.{flat_start};
ghost use Rattle.sn_model.specs.PointEvents.{living_switches};
ghost use Rattle.sn_saved.specs.Saved.{Saved, IsInForm, IsAccepted, living_in, first_unread};
ghost use Rattle.sn_text.specs.Written.{HasNumbers};
ghost use Rattle.sn_consistency.specs.Projections.{FirstWithoutStep};
ghost use Rattle.save_text.specs.declared.cause.SaveCause.{SaveCause};
ghost use Rattle.save_text.specs.declared.cause.SaveCause.TheVariants.{CutOff, SetFull, NotLegal, Unread};
ghost use Rattle.save_text.specs.Judged.{Fits, IsLegal, IsGood, full_line, judged, judged_of};
ghost use Rattle.save_text.specs.Reading.{said_by};
ghost use Rattle.save_text.specs.Text.{saved_text};
ghost use Rattle.save_text.specs.Written.{HasValues};
ghost use Rattle.consistent_cuts.specs.Headline.{IsRun};
ghost use Rattle.consistent_cuts.specs.Origins.{Origin, Resumed, MayBegin, reached_from};
ghost use Rattle.saved_points.specs.Points.{saved_after, MayBeSaved};
ghost use Rattle.accepted_saves.specs.Causes.{IsOfPoint};
ghost use Rattle.accepted_saves.specs.Bytes.{BeginsWithBytes, WasGivenBytes};

/// What a save file says is good exactly where nothing refuses it, and refused for a cause exactly where that is the first one: nodes
/// that are cut off, a set that is too full, a record that is no step after those before it, a byte that was read and not given. It
/// is refused for no other cause, and nothing but what it says is gone on from.
pub fn what_is_judged_is_so()
    ensures good { (image : ImageData) (saved : Saved) → (judged image saved ≡ Ok saved) ↔ IsGood image saved }
    ensures same { (image : ImageData) (saved other : Saved) → judged image saved ≡ Ok other → other ≡ saved }
    ensures accepted { (image : ImageData) (saved : Saved) → IsInForm saved → IsGood image saved ↔ IsAccepted image saved }
    ensures cut_off { (image : ImageData) (saved : Saved) (a b : ℕ) →
        (judged image saved ≡ Err (CutOff a b)) ↔ (first_cut_off (living_in saved) ≡ Some (a, b)) }
    ensures set_full { (image : ImageData) (saved : Saved) (line : ℕ) →
        (judged image saved ≡ Err (SetFull line)) ↔ ((first_cut_off (living_in saved) ≡ None) × (full_line saved ≡ Some line)) }
    ensures not_legal { (image : ImageData) (saved : Saved) (place : ℕ) → (judged image saved ≡ Err (NotLegal (place + 1)))
        ↔ (Fits saved × FirstWithoutStep image (flat_start image saved.config.nodes) saved.committed place) }
    ensures numbered { (image : ImageData) (saved : Saved) (number : ℕ) → judged image saved ≡ Err (NotLegal number) → 1 ≤ number }
    ensures unread { (image : ImageData) (saved : Saved) (node : ℕ) →
        (judged image saved ≡ Err (Unread node)) ↔ (IsLegal image saved × (first_unread saved ≡ Some node)) }
    ensures no_other { (image : ImageData) (saved : Saved) (cause : SaveCause) → judged image saved ≡ Err cause → IsOfPoint cause }
{}

/// So a text is gone on from exactly where it says a point from which a machine of the program may go on.
pub fn what_is_gone_on_from_is_accepted()
    ensures { (image : ImageData) (text : List ℕ) (saved : Saved) →
        (judged_of image (said_by text) ≡ Ok saved) ↔ ((said_by text ≡ Ok saved) × IsAccepted image saved) }
{}

/// For every program, every fitting configuration, every place where a run may begin and every list of events: the text of what is
/// saved afterwards is gone on from as what was saved, where no two nodes are cut off; and where two are, it is refused for these.
pub fn what_was_saved_is_gone_on_from()
    ensures joined { (image : ImageData) (config : Config) (origin : Origin) (events : List Event) → MayBegin image config origin →
        IsRun config events → MayBeSaved (saved_after image config origin events) → HasValues (saved_after image config origin events) →
        first_cut_off (living_switches (reached_from image config origin events).fabric) ≡ None
        → judged_of image (said_by (saved_text (saved_after image config origin events))) ≡ Ok (saved_after image config origin events) }
    ensures cut_off { (image : ImageData) (config : Config) (origin : Origin) (events : List Event) → MayBegin image config origin →
        IsRun config events → MayBeSaved (saved_after image config origin events) → HasValues (saved_after image config origin events) →
        (a b : ℕ) → first_cut_off (living_switches (reached_from image config origin events).fabric) ≡ Some (a, b)
        → judged_of image (said_by (saved_text (saved_after image config origin events))) ≡ Err (CutOff a b) }
{}

/// What is saved is of bytes and words, where the program, the events and the place where the run began are: a record sees a word of
/// memory, which has bytes of the program and of writes, and reads a byte that was given.
pub fn what_is_saved_has_values()
    ensures { (image : ImageData) (config : Config) (origin : Origin) (events : List Event) → MayBegin image config origin →
        IsRun config events → BeginsWithBytes image → WasGivenBytes origin → All HasNumbers events
        → HasValues (saved_after image config origin events) }
{}

/// And where a run goes on from what a text says, what was given before is of bytes, whatever the text.
pub fn what_is_said_was_given_as_bytes()
    ensures { (text : List ℕ) (saved : Saved) → said_by text ≡ Ok saved → WasGivenBytes (Resumed saved) }
{}

/// Nor is a text of such values longer than a save file may be, which is 64 MiB.
pub fn what_is_saved_is_short_enough()
    ensures { (saved : Saved) → IsInForm saved → HasValues saved → length (saved_text saved) ≤ 67108864 }
{}
