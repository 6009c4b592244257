//! Laws of ids and moments. Each law is the contract of a function with an empty body.
ghost use Rattle.std.specs.Prelude.{◌≡◌, ℕ, ℤ, List, Some, false};
ghost use Rattle.portal_base.specs.Id.{id_text};
ghost use Rattle.portal_base.specs.Moment.{IsMoment};
ghost use Rattle.portal_base.specs.MomentReading.{moment_reading};
ghost use Rattle.portal_base.specs.MomentText.{IsMomentText, moment_text};
ghost use Rattle.portal_base.specs.Name.{is_name};

/// Numbers with the same id are equal.
pub fn ids_tell_numbers_apart(first: u128, second: u128)
    ensures { id_text first ≡ id_text second → first ≡ second }
{}

/// No id is a name, whatever the limit of the length of names.
pub fn an_id_is_no_name()
    ensures { (number longest : ℕ) → is_name (id_text number) longest ≡ false }
{}

/// A moment has at most one text.
pub fn moments_have_one_text()
    ensures { (seconds : ℤ) (first second : List ℕ) →
        IsMomentText seconds first → IsMomentText seconds second → first ≡ second }
{}

/// The text of a moment is read as that moment.
pub fn texts_of_moments_are_read_back()
    ensures { (seconds : ℤ) → IsMoment seconds → moment_reading (moment_text seconds) ≡ Some seconds }
{}

/// A text that is read as a moment is the text of that moment. So no two texts are read as the same moment.
pub fn only_texts_of_moments_are_read()
    ensures { (seconds : ℤ) (text : List ℕ) →
        moment_reading text ≡ Some seconds → IsMoment seconds × (text ≡ moment_text seconds) }
{}
