ghost use Rattle.model_laws.specs.DatabaseLaws.{ActiveNamesArePlain, NamesAreWords, FramesAreWhole, HasDatabaseFacts, LabelsAreDistinct, PositionsRise, RowsAreAGrammar, RowsAreFrames, SymbolsAreDistinct, DatabasesOfATextAgree, HavePlaces, HaveSymbols};
ghost use Rattle.model_laws.specs.StatementLaws.{StatementsAreSound};

/// No two labels of a database without a fault are one.
pub fn labels_are_distinct()
    ensures { LabelsAreDistinct }
{}

/// No two of its symbols, by their numbers, are one.
pub fn symbols_are_distinct()
    ensures { SymbolsAreDistinct }
{}

/// Each of its labels has a position, and the positions rise with the labels' numbers.
pub fn positions_rise()
    ensures { PositionsRise }
{}

/// Each of its frames has its label and position; each `$f` in it has two symbols, their variables differ, and the symbols
/// of its formulas are known at its place.
pub fn frames_are_whole()
    ensures { FramesAreWhole }
{}

/// Its labels have the bytes of labels, and its symbols are words without a dollar.
pub fn names_are_words()
    ensures { NamesAreWords }
{}

/// The labels of what is active at a place have no white space.
pub fn active_names_are_plain()
    ensures { ActiveNamesArePlain }
{}

/// Its kept productions are a grammar.
pub fn rows_are_a_grammar()
    ensures { RowsAreAGrammar }
{}

/// Each of its kept productions is as the frame of its label says.
pub fn rows_are_frames()
    ensures { RowsAreFrames }
{}

/// All that worksheets rest on holds of the database of a text without a fault.
pub fn has_database_facts()
    ensures { HasDatabaseFacts }
{}

/// Two databases of one text, under given kinds, answer alike.
pub fn databases_of_a_text_agree()
    ensures { DatabasesOfATextAgree }
{}

/// What the faults say of each statement of a text without one: its label, its keyword, and that the variable of a `$f` has
/// no other active `$f`.
pub fn statements_are_sound()
    ensures { StatementsAreSound }
{}

/// What its places say of constants, rows and typecodes.
pub fn databases_have_places()
    ensures { HavePlaces }
{}

/// Its symbols are few enough, its constants are symbols of it, and the typecodes of active variables are those of the `$f` below the place.
pub fn databases_have_symbols()
    ensures { HaveSymbols }
{}
