//! Laws: how a tag is written, that a range of an object has one answer, and that judgements hang on no body.
ghost use Rattle.std.specs.Prelude.{◌≡◌, ◌↔◌, List, ℕ, Some};
ghost use Rattle.mt_types.specs.declared.body.Body.{Body};
ghost use Rattle.mt_cond.specs.Laws.{JudgedIsRead};
ghost use Rattle.mt_cond.specs.Range.{IsRangeAnswer, ranged};
ghost use Rattle.mt_cond.specs.Tags.{WritesTag, tag_of};
ghost use Rattle.mt_cond.specs.declared.range.Range.{Range};
ghost use Rattle.mt_cond.specs.declared.range.Ranged.{Ranged};
ghost use Rattle.mt_cond.specs.declared.tags.Tag.{Tag};

/// A piece of a list is a tag exactly where it is an object's etag, in double quotes or not, and behind `W/`
/// where the tag is weak.
pub fn tag_spelling()
    ensures { (piece : List ℕ) (tag : Tag) → (tag_of piece ≡ Some tag) ↔ WritesTag piece tag }
{}

/// A range of an object of a length has one answer.
pub fn one_answer()
    ensures { (range : Range) (length : ℕ) (answer : Ranged) → IsRangeAnswer range length answer → answer ≡ ranged range length }
{}

/// Conditions say the same of an object whatever its body is: a reference, or the bytes that it stands for.
pub fn judged_is_read()
    ensures { JudgedIsRead Body (List ℕ) }
{}
