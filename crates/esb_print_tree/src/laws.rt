//! The law.

ghost use Rattle.esb_print_tree.specs.Laws as law;

/// The tokens of the tree of a text, with each semicolon that was left out, may be printed: they are tokens of the text, and
/// their neighbours may follow one another. So the text that is printed of them, a line for each item of the module, reads as
/// the same tokens again.
pub fn trees_are_printable()
    ensures printable { law.TreesArePrintable }
    ensures read { law.PrintedTreesAreRead }
{}
