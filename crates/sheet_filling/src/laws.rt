ghost use Rattle.sheet_filling.specs.Filling.{FillingIsTheAnswer};

/// What is answered to the text of a worksheet with its steps filled is the answer to the worksheet that is filled.
pub fn filling_is_the_answer()
    ensures { FillingIsTheAnswer }
{}
