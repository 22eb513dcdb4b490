//! The usage text.

/// The options, the operands and the commands, as the program prints them for help and for words that fit no command.
pub const USAGE: &str = "\
Usage: changeset [--data C] [--notfound C] [--conflict C] [--constraint C] [--ignore-noop] FILE COMMAND ...
COMMANDs:
  apply STORE        Apply the changeset to the store STORE
  concat FILE2 OUT   Concatenate FILE and FILE2 into OUT
  dump               Show the complete content of the changeset
  invert OUT         Write an inverted changeset into file OUT
  sql                Give a pseudo-SQL rendering of the changeset
  shell              Run a script from standard input on the store FILE
C is omit, replace or abort (the default).
";
