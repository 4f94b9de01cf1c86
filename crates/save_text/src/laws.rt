//! That what is written is read back.
ghost use Rattle.std.specs.Prelude.{◌≡◌, ℕ, List, Ok};
ghost use Rattle.sn_saved.specs.Saved.{Saved, IsInForm};
ghost use Rattle.save_text.specs.Reading.{said_by};
ghost use Rattle.save_text.specs.Text.{saved_text};
ghost use Rattle.save_text.specs.Written.{HasValues};

/// The text of a recovery point says that point.
pub fn saves_are_read_back()
    ensures { (saved : Saved) → IsInForm saved → HasValues saved → said_by (saved_text saved) ≡ Ok saved }
{}

/// And what a text says is in form, whatever the text.
pub fn what_is_said_is_in_form()
    ensures { (bytes : List ℕ) (saved : Saved) → said_by bytes ≡ Ok saved → IsInForm saved }
{}
