// Half-made settings: the value of each variable that is decided, and none for one that is not.
ghost use Rattle.std.specs.Prelude.{◌≡◌};
ghost use Rattle.meaning.specs.HalfMade.{is_free};

// Whether there is such a variable, and it is not decided.
pub fn is_undecided(values: &[Option<bool>], variable: usize) -> bool
    ensures { result ≡ is_free values.now variable }
{
    values.get(variable).is_some_and(|value| value.is_none())
}
