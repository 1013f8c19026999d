//! Laws of printing, each the contract of a function that does nothing.

ghost use Rattle.esb_print.specs.Again as spec;

/// Printed text reads as the tokens that it was printed of, line by line: each has its kind and its spelling, and is read under
/// the goal of its kind. None is joined with its neighbour or cut, and nothing else stands in the text.
pub fn printed_is_read()
    ensures { spec.PrintedIsRead }
{}
