ghost use Rattle.fzn_builtin.specs.Laws.{AreReified, AreSynonyms, reified_names, global_names};
ghost use Rattle.fzn_builtin.specs.Names.{NamesMean};
ghost use Rattle.fzn_builtin.specs.Reading.{ArgumentsAreRead};

/// A law of the table: what each name says of its arguments, and which lengths of lists it refuses.
pub fn names_mean()
    ensures { NamesMean }
{}

/// A law of the table: of arguments that fit the needs of a name, and are a whole list, each that its constraint is made of
/// is there and of the kind that is read, so nothing stands for an argument that is missing.
pub fn arguments_are_read()
    ensures { ArgumentsAreRead }
{}

/// A law of the table: behind the name of each relation that can be reified, `_reif` makes a name with the same
/// arguments and a bool behind them, exactly where which is true the relation holds.
pub fn reified_names_match()
    ensures { AreReified reified_names }
{}

/// A law of the table: the global constraints stand for the same under the name of the standard library and, with
/// `fzn_` before it, under that of the solver's library.
pub fn global_names_match()
    ensures { AreSynonyms global_names }
{}
