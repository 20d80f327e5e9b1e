ghost use Rattle.ref_select.specs.Selecting.{SelectionIsTheAnswer};

/// What is selected of a worksheet as it is written is the answer to the worksheet.
pub fn selection_is_the_answer()
    ensures { SelectionIsTheAnswer }
{}
