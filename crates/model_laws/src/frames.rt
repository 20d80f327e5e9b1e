ghost use Rattle.model_laws.specs.FrameLaws.{FramesHaveOwnExpressions, FramesGiveRows, MandatoryVariablesStand};

/// The formulas of a frame are at its place what they are by the frame's own `$f`.
pub fn frames_have_own_expressions()
    ensures { FramesHaveOwnExpressions }
{}

/// The productions that the frames of a text without a fault give are rows of which a grammar can be made.
pub fn frames_give_rows()
    ensures { FramesGiveRows }
{}

/// Each mandatory variable of a frame is no constant, and stands in its formula or in one of its `$e`, behind the typecode.
pub fn mandatory_variables_stand()
    ensures { MandatoryVariablesStand }
{}
