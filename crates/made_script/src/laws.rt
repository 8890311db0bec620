// What is proved of the definitions: each function's contract is a law.
ghost use Rattle.made_script.specs.Laws.{IsAsLong, AreReadFromTheirTexts};

/// A made script has a line for each directory, three for each item, and one for each flush of a directory.
pub fn made_scripts_are_as_long()
    ensures { IsAsLong }
{}

/// Two made scripts are those that are read from texts which stand in the definition.
pub fn made_scripts_are_read_from_their_texts()
    ensures { AreReadFromTheirTexts }
{}
