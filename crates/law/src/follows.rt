//! That the law follows from where runs stand.
ghost use Rattle.law.specs.Law.{Follows};

/// Does nothing: its contract is that the law holds of two runs that stand where they are reckoned.
pub fn law_follows()
    ensures { Follows }
{}
