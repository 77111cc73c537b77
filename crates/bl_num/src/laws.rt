//! What fixes the meaning of the numbers that are read, as laws over their definitions.
ghost use Rattle.bl_num.specs.Grammar.{ReadsDecimals, ReadsNumbers};

/// A text is read as what the grammar and the value of numbers say, and as nothing else.
pub fn reads_numbers()
    ensures { ReadsNumbers }
{}

/// The decimal text of a number within the limit is read as that number.
pub fn reads_decimals()
    ensures { ReadsDecimals }
{}
