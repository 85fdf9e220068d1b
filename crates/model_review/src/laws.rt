//! Laws of the definitions alone: the contract of each function is the law, and its body is empty.

ghost use Rattle.model_facts.specs.Assembly.{Assembly};
ghost use Rattle.fact_formulas.specs.Flat.{system_of};
ghost use Rattle.fact_formulas.specs.Numbered.{numbered_of};
ghost use Rattle.system_review.specs.inner.Alone.{HoldTheSame};
ghost use Rattle.model_review.specs.declared.reviewing.Reviewed.{Reviewed};
ghost use Rattle.model_review.specs.inner.Review.{IsReview};
ghost use Rattle.model_review.specs.Seen.{seen_of};
ghost use Rattle.model_review.specs.inner.Joined.{HasNoHidden, HasNoHiddenLine, joined_by};

/// Nothing is lost to the order of conditions, flows and links where nothing is hidden: the same facts hold in the system in which all
/// that covers a fact is joined. And nothing is hidden where no line of the review tells a source, a path or a link as hidden.
pub fn nothing_is_hidden()
    ensures lists { (assembly : Assembly) → HasNoHidden (seen_of assembly) → HoldTheSame (system_of assembly) (joined_by (numbered_of assembly)) }
    ensures lines { (assembly : Assembly) (reviewed : Reviewed) → IsReview assembly reviewed → HasNoHiddenLine reviewed.lines
        → HoldTheSame (system_of assembly) (joined_by (numbered_of assembly)) }
{}
